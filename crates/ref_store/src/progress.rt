/// What a task's next step does to the ref.
#[derive(Clone, Copy, Debug, PartialEq, Eq)]
pub enum Progress {
    /// It looks at the ref's value.
    Looking,
    /// It makes room for the ref's file, or stages it.
    Preparing,
    /// It shows the change.
    Showing,
    /// It makes the change last.
    Settling,
    /// Nothing: the change is done.
    Ended,
}
