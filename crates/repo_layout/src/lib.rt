//! The names and paths of an OSTree bare repository, the text of a ref's file, and keyfiles.
#![tactic(auto)]

mod fixed;
mod folder;
mod known;
mod laws;
mod os_name;
mod part;
mod paths;
mod ref_file;
mod ref_name;

pub use fixed::{Fixed, Version, fixed_path};
pub use folder::{Folder, folder_path};
pub use keyfile::{KeyFault, KeyLine, read_keyfile, write_keyfile};
pub use laws::{names_of_paths, places_of_boots, places_of_things};
pub use os_name::OsName;
pub use paths::{
    config_path, deploy_path, mark_path, object_path, objects_folder_path, ref_path, stage_path,
};
pub use ref_file::{read_ref, ref_text};
pub use ref_name::RefName;
