//! The current folder of the machine as a file system whose nodes are the machine's own: files and folders with their owners and permissions, and symbolic links.
#![tactic(auto)]

mod folder;
mod fs;
mod standing;
mod start;
mod young;

use folder::CurrentFolder;
pub use fs::NativeFs;
use standing::walk;
use start::start_here;
use young::Young;
