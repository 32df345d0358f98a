//! A commit read where it lies: its sums have any length.

use gv_core::Value;
use ost_types::Text;

#[derive(Drop)]
pub(crate) struct CommitRow<'a> {
    pub(crate) metadata: Value,
    pub(crate) parent: &'a [u8],
    pub(crate) related: Value,
    pub(crate) subject: Text,
    pub(crate) body: Text,
    pub(crate) time: u64,
    pub(crate) tree: &'a [u8],
    pub(crate) meta: &'a [u8],
}
