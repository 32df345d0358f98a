use super::folder::OpenFolder;

/// What the next step does.
#[derive(Drop, Debug)]
pub(crate) enum Phase {
    /// Looks at what stands at the task's path.
    Look,
    /// Looks at the next name in this folder, the innermost that is open, or removes it where no name is left.
    Inside(OpenFolder),
    /// Nothing.
    Ended,
}
