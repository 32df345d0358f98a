/// A command of the family.
#[derive(Drop)]
pub enum ListWords {
    /// `refs` lists the refs.
    Refs,
    /// `status` lists the deployments that boot.
    Status,
}
