//! What is done before the first call.
use host_files::{Machine, Mark, NoStart, new_folder, start, sync};
use native_nodes::{Look, PLACE_TEXT};
use std::fs::File;

/// Locks the current folder, and syncs all below it unless the mark says that nothing is unsynced there. Gives the open
/// folder, which holds the lock, and whether there is a reserved place.
pub fn start_here<R: Machine>(rt: &R) -> Result<(R::File, Mark), NoStart> {
    make_place(rt)?;
    start(rt)
}

// Makes the reserved place, under the lock. In a folder without one, a start takes what has its name further down for what
// was left there, and removes it; here such nodes are anybody's.
fn make_place<R: Machine>(rt: &R) -> Result<(), NoStart> {
    let top = File::open(rt, ".")?;
    if !rt.take_lock(&top) {
        return Err(NoStart::Failed);
    }
    if Look::at(rt, PLACE_TEXT)? == Look::Absent {
        new_folder(rt, PLACE_TEXT)?;
        sync(rt, ".")?;
    }
    Ok(())
}
