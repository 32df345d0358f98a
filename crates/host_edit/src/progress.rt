/// What a task's next step does to the path of its edit.
#[derive(Clone, Copy, Debug, PartialEq, Eq)]
pub enum Progress {
    /// It stages what is to be put there.
    Preparing,
    /// It looks at the path.
    Looking,
    /// It makes the change.
    Showing,
    /// It makes the change last.
    Settling,
    /// Nothing: the edit is done.
    Ended,
}
