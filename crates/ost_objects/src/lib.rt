//! The four objects of an OSTree repository, with their bytes and names, and objects that were checked: bytes with their
//! name, which read as what the name says.
#![tactic(auto)]

mod checked;
mod checking;
mod fault;
mod laws;
mod make;
mod testing;

pub use checked::Checked;
pub use checking::check;
pub use fault::{CheckFault, MakeFault};
pub use laws::{
    commit_again, content_again, dirmeta_again, dirtree_again, one_commit, one_content,
    one_dirmeta, one_dirtree,
};
pub use ost_forms::{
    Body, BodySpec, Commit, Content, DirMeta, DirTree, FileItem, FileItems, FolderItem,
    FolderItems, ObjFault, TreeItem, read_commit, read_content, read_dirmeta, read_dirtree, sum_of,
    write_commit, write_content, write_dirmeta, write_dirtree,
};
pub use testing::test_object;
