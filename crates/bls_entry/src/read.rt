//! The entry of a text.
ghost use Rattle.bls_entry.specs.Reading.{Reads};

use crate::entry::BlsEntry;
use crate::fault::BlsFault;
use crate::found::Found;
use crate::split::split_line;
use std::alloc::Global;

/// The entry that the lines of the text say. Lines that are empty or begin with `#` say nothing, and neither do those with
/// keys other than the five; a title or a kernel that isn't said is empty, and a version that isn't said is 0.
pub fn read_entry(alloc: Global, bytes: &[u8]) -> Result<BlsEntry, BlsFault>
    ensures { Reads bytes.now result }
{
    let mut found = Found::nothing();
    let mut number = 0;
    let mut rest = bytes;
    while !rest.is_empty() {
        number += 1;
        let Some((line, behind)) = split_line(rest) else {
            return Err(BlsFault::BadLine(number));
        };
        if !found.take(line) {
            return Err(BlsFault::BadLine(number));
        }
        rest = behind;
    }
    found.into_entry(alloc)
}
