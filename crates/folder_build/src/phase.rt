use checkout::RemoveTask;

/// What the next step does.
#[derive(Drop, Debug)]
pub(crate) enum Phase {
    /// Removes what stands at the folder's path.
    Clear(RemoveTask),
    /// Makes the node of this number: a file without its bytes.
    Make(usize),
    /// Writes the bytes of the file of this number.
    Write(usize),
    /// Nothing.
    Ended,
}
