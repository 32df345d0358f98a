/// What the next step of a sweep does.
#[derive(Clone, Copy, Debug, PartialEq, Eq)]
pub enum Part {
    /// It makes room for all calls that come.
    Begin,
    /// It unlinks a commit.
    Commit,
    /// It makes outlast a crash that the commits are gone.
    Barrier,
    /// It unlinks another object.
    Object,
    /// It unlinks a mark.
    Mark,
    /// It makes all of it outlast a crash.
    End,
    /// Nothing.
    Over,
}
