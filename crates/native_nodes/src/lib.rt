//! Files, folders and symbolic links of the machine as nodes: how one is looked at, and how one is made with its owner and its mode. No link is followed.
#![tactic(auto)]

mod attributes;
mod content;
mod look;
mod make;
mod standing;

pub use attributes::{Attributes, LINK_MODE};
pub use content::{add_bytes, read_content};
pub use look::{Leaf, Look};
pub use make::{PLACE_TEXT, finish, new_link, new_private, restore, show_folder, spell_young};
pub use standing::Standing;
