use ost_forms::TreeItem;
use ost_types::Text;
use repo_layout::RefName;

/// A commit that is to be made, and the ref that is to name it.
#[derive(Drop)]
pub struct CommitWords {
    pub branch: RefName,
    /// The nodes of the tree, by ascending paths.
    pub tree: Vec<TreeItem>,
    pub subject: Text,
    pub body: Text,
    /// In seconds since 1970.
    pub time: u64,
}
