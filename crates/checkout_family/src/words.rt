use ost_types::Name;
use script::Rev;

/// A checkout of a commit.
#[derive(Drop)]
pub struct CheckoutWords {
    pub rev: Rev,
    /// Of the folder, which is made in the folder of all checkouts.
    pub name: Name,
}
