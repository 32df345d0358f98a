use obj_store::PutTask;
use ost_objects::Checked;
use ost_types::Csum;

/// What the next step does.
#[derive(Drop, Debug)]
pub(crate) enum Phase {
    /// Looks whether the items are a tree.
    Check,
    /// Makes the next object of the tree.
    Make,
    /// Begins to put it.
    Made(Checked),
    /// Puts it.
    Put(PutTask),
    /// Makes all objects of the tree outlast a crash.
    SyncObjects,
    /// Makes the commit.
    MakeCommit,
    /// Puts it.
    PutCommit(PutTask),
    /// Makes it outlast a crash.
    SyncCommit(Csum),
    /// Takes its mark away, where one stands.
    Unmark(Csum),
    /// Makes that outlast a crash.
    SyncState(Csum),
    /// Nothing.
    Ended(Csum),
}
