use ost_types::{Meta, Text};
use staging::Staging;

/// What is to stand at the object's path.
#[derive(Drop, Debug)]
pub(crate) enum Source {
    /// A regular file, which is staged first.
    File(Staging),
    Link { meta: Meta, target: Text },
}
