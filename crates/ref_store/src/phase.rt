use ref_room::{Clearing, Way};
use staged_file::StagedFile;

/// What the next step does.
#[derive(Drop, Debug)]
pub(crate) enum Phase {
    /// Looks at the ref's value.
    Look,
    /// Makes room at the ref's path, where a folder stands.
    Clear(Clearing),
    /// Makes the folders on the way to the ref's path.
    Walk(Way),
    /// Puts the ref's file there.
    Put(StagedFile),
    /// Takes the ref's file away.
    Unlink,
    /// Syncs the folder that it was in.
    SyncFolder,
    /// Nothing: the change is done, and outlasts a crash.
    Ended,
}
