//! Another name for a leaf.
use crate::Fault;
use crate::place::show_copy;
use std::fs;
use std::fs::File;
use std::io::ErrorKind;
use std::rt::Files;

/// Gives the leaf at a text another, where nothing stands. Where the host can't link the two, a copy of the bytes stands
/// in; any other error of the host is a fault.
pub fn link_or_copy<R: Files>(rt: &R, from: &str, to: &str) -> Result<(), Fault> {
    match fs::hard_link(rt, from, to) {
        Ok(()) => Ok(()),
        Err(e) if is_unable(e.kind()) => copy(rt, from, to),
        Err(_) => Err(Fault),
    }
}

// Whether a host that answers this to a link can't make it: across devices, too many links, not permitted, not supported.
fn is_unable(kind: ErrorKind) -> bool {
    matches!(
        kind,
        ErrorKind::CrossesDevices
            | ErrorKind::TooManyLinks
            | ErrorKind::PermissionDenied
            | ErrorKind::Unsupported
    )
}

fn copy<R: Files>(rt: &R, from: &str, to: &str) -> Result<(), Fault> {
    let mut file = File::open(rt, from)?;
    show_copy(rt, to, &mut file)
}
