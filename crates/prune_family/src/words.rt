/// A removal of what nothing leads to.
#[derive(Drop)]
pub struct PruneWords {
    /// How many parents of each commit that a ref names stay.
    pub depth: u32,
}
