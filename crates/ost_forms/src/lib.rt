//! The forms of the four objects of an OSTree repository: their values, their bytes, and what makes bytes one of them.
#![tactic(auto)]

mod body;
mod commit;
mod commit_bytes;
mod commit_join;
mod commit_new;
mod commit_row;
mod content;
mod dirmeta;
mod dirtree;
mod entry;
mod fault;
mod header;
mod inner_value;
mod items;
mod names;
mod number;
mod object_type;
mod pieces;
mod row;
mod rows;
mod sorting;
mod sum;
mod text;
mod tree_bytes;
mod tree_item;
mod xattrs;

pub use body::Body;
pub use commit::Commit;
pub use commit_bytes::{read_commit, write_commit};
pub use content::{Content, read_content, test_content, write_content};
pub use dirmeta::{DirMeta, OBJECT_LIMIT, read_dirmeta, write_dirmeta};
pub use dirtree::{DirTree, read_dirtree};
pub use entry::{FileItem, FolderItem};
pub use fault::ObjFault;
pub use items::{FileItems, FolderItems};
pub use sum::sum_of;
pub use tree_bytes::write_dirtree;
pub use tree_item::{BodySpec, TreeItem};
