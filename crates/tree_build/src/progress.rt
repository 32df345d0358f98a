//! How far the making of a tree's objects is.

use crate::sums::Sums;
use ost_types::Csum;

/// An item whose objects were given.
#[derive(Clone, Copy, Debug)]
pub struct Done {
    pub(crate) at: usize,
    pub(crate) sums: Sums,
}

/// Items are taken from the last to the first, so that what lies in a folder comes before it.
#[derive(Drop, Debug)]
pub struct Progress {
    /// All objects of the items from here on were given.
    pub(crate) at: usize,
    /// What lies in no folder yet, the least path last.
    pub(crate) made: Vec<Done>,
    /// The entries of the folder before `at`, if they were given and its attributes weren't.
    pub(crate) half: Option<Csum>,
    /// How many objects were given.
    pub(crate) done: u64,
}
