//! Commits, and what they name.
use ost_types::Csum;

/// The objects that a commit names.
#[derive(Clone, Copy, Debug)]
pub struct Links {
    pub parent: Option<Csum>,
    /// The root's entries and attributes.
    pub tree: Csum,
    pub meta: Csum,
}

/// A commit, and how many parents it stands from a root.
#[derive(Clone, Copy, Debug)]
pub struct Near {
    pub distance: u32,
    pub commit: Csum,
}
