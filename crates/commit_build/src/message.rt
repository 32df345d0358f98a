//! What a commit says beside its tree.

use ost_types::{Csum, Text};

#[derive(Drop, Debug)]
pub struct Message {
    pub parent: Option<Csum>,
    pub subject: Text,
    pub body: Text,
    /// Seconds since 1970.
    pub time: u64,
}
