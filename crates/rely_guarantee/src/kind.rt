use fs_trait::FsErr;
use ost_types::ObjName;

/// What a task's next step is to the whole system.
#[derive(Clone, Copy, Debug, PartialEq, Eq)]
pub enum StepKind {
    /// It changes nothing that the state speaks of.
    Quiet,
    /// So too, and another actor may take it.
    Store,
    /// So too, once these locks are taken.
    Take(Wants),
    /// It makes the folder of a checkout, which is the lane's from then on.
    Claim,
    /// It publishes a change.
    Publish,
    /// It comes between the step that publishes a change and the one that makes it durable.
    Published,
    /// So too, and it takes the next object that is to be removed from its path.
    Remove,
    /// It makes a change durable.
    MakeDurable,
}

/// What a lane asks for at once.
#[derive(Clone, Copy, Debug, PartialEq, Eq)]
pub struct Wants {
    pub exclusive: bool,
    pub turn: bool,
    pub shared: bool,
    pub sysroot: bool,
    /// The place of a deployment.
    pub hold: Option<u8>,
    pub pin: Option<ObjName>,
}

/// What an act came to.
#[derive(Clone, Copy, Debug, PartialEq, Eq)]
pub enum Outcome {
    /// Another holds what the step asks for, and nothing was done.
    Blocked,
    More,
    Done,
    /// The command ends, since its step failed at a call that reads, or wanted for memory. Nothing of it is shown.
    Refused(FsErr),
    /// No command goes on.
    Halted(Halt),
}

/// Why no command goes on.
#[derive(Clone, Copy, Debug, PartialEq, Eq)]
pub enum Halt {
    /// A call that changes something failed.
    Failed,
    /// A call was refused for what stands at its path, which nothing that was done here explains: something else changed the disk.
    Strayed,
}
