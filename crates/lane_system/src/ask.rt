/// What an act of the system came to.
#[derive(Clone, Copy, Debug, PartialEq, Eq)]
pub enum Ask {
    /// The actor did work, and has more.
    More,
    /// Another actor holds what its next step asks for, and nothing was done.
    Blocked,
    /// It gave the reply of this command.
    Done { lane: u8, command: u32 },
    /// There is no such lane, or it has no more commands.
    Ended,
}
