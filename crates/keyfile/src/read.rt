//! The keys of a keyfile.
ghost use Rattle.std.specs.Prelude.{Ok, Err, IfOk, MatchResult};
ghost use Rattle.keyfile.specs.Entries.{AreEntries};
ghost use Rattle.keyfile.specs.Reading.{Reads};

use crate::entry::KeyLine;
use crate::fault::KeyFault;
use crate::reader::Reader;
use crate::split::split_before;
use std::alloc::Global;

/// The keys of the text in their order, with their groups and values. Where a line may not stand there, the first such line
/// is told by its number, and what is wrong with it.
pub fn read_keyfile(alloc: Global, bytes: &[u8]) -> Result<Vec<KeyLine>, KeyFault>
    ensures exact { MatchResult result (λ entries. Reads bytes.now (Ok entries.items)) (λ fault. Reads bytes.now (Err fault)) }
    ensures entries { IfOk result (λ entries. AreEntries entries.items) }
{
    let mut reader = Reader::new(alloc);
    let mut number = 0;
    let mut rest = bytes;
    while !rest.is_empty() {
        number += 1;
        let Some((line, behind)) = split_before(rest, b'\n') else {
            return Err(KeyFault::BadLine(number));
        };
        reader.take(number, line)?;
        rest = behind;
    }
    Ok(reader.into_entries())
}
