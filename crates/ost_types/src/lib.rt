//! The plain types of the whole project: sums, names, paths, attributes and lists of them.
#![tactic(auto)]

mod bytes;
mod csum;
mod csum_hex;
mod limits;
mod list;
mod memory;
mod meta;
mod mode;
mod name;
mod node;
mod object;
mod path;
mod path_map;
mod text;

pub use bytes::Bytes;
pub use csum::Csum;
pub use limits::Limits;
pub use list::{Items, Names, ObjNames, Texts, Xattrs};
pub use memory::{NoMemory, TryCopy, copy_all};
pub use meta::{Meta, Xattr};
pub use mode::{is_file_mode, is_folder_mode, is_link_mode};
pub use name::{Name, is_name};
pub use node::NodeName;
pub use object::{Kind, ObjName};
pub use path::{FsPath, PathFault};
pub use path_map::PathMap;
pub use text::Text;
