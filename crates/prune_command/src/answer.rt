use ost_types::FsPath;

/// What a prune answers.
#[derive(Drop, Debug)]
pub enum PruneAnswer {
    /// How many objects stay, and how many were removed.
    Pruned { kept: usize, removed: usize },
    /// An object of the store is missing or damaged, and nothing was removed: where it should stand in the repository.
    Outside(FsPath),
}
