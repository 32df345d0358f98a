//! What may stand at each place of the layout: the places that have one path each, those that have many names, and what is
//! asked of a disk on which a repository is opened.
#![tactic(auto)]

mod laws;
mod many;
mod rule;
mod spot;

pub use laws::{rules_by_seen, rules_of_places};
pub use many::{Many, folder_of, is_copy_name, is_name_of};
pub use rule::Rule;
pub use spot::{Spot, rule_of, spot_path, spots};
