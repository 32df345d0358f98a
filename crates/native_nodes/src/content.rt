//! The bytes of a regular file of the machine.
ghost use Rattle.std.specs.Prelude.{◌≡◌, ◌-◌, ◌<◌, Err, IfOk, IfErr, length, min};
ghost use Rattle.fs_trait.specs.Effect.{OfNone};
ghost use Rattle.fs_trait.specs.declared.types.FsErr.TheVariants as error;

use fs_trait::FsErr;
use host_files::Fault;
use ost_types::Bytes;
use std::alloc::Global;
use std::fs::{File, OpenFile};
use std::io;
use std::io::{Read, Seek, SeekFrom, Write};
use std::rt::Files;

/// No longer file is read whole: more than any content and its attributes have together.
pub const MOST_READ: u64 = 268_435_456 + 67_108_872;

/// The bytes of a file of so many, from one place on, at most so many. Where they are too many to be read at once, no
/// memory is taken for them.
pub fn read_content<R: Files>(
    rt: &R,
    alloc: Global,
    text: &str,
    len: u64,
    from: u64,
    max: u64,
) -> Result<Bytes, FsErr>
    ensures length { IfOk result (λ b. length b ≡ min max (len - from)) }
    ensures bounded { 335544328 < min max (len - from) → result ≡ Err error.Failed }
    ensures named { IfErr result OfNone }
{
    let count = max.min(len.saturating_sub(from));
    if count > MOST_READ {
        return Err(FsErr::Failed);
    }
    let mut bytes = Vec::from_elem(alloc, 0u8, count as usize)?;
    if count > 0 && fill(rt, text, from, &mut bytes).is_err() {
        return Err(FsErr::Failed);
    }
    Ok(Bytes::from_vec(bytes))
}

fn fill<R: Files>(rt: &R, text: &str, from: u64, into: &mut [u8]) -> io::Result<()> {
    let mut file = File::open(rt, text)?;
    if from > 0 {
        file.seek(SeekFrom::Start(from))?;
    }
    file.read_exact(into)
}

/// Adds bytes to a file of so many that is open at its end. Where they can't be written whole, it is cut back.
pub fn add_bytes<F: OpenFile + Write>(file: &mut F, len: u64, bytes: &[u8]) -> Result<(), Fault> {
    match file.write_all(bytes) {
        Ok(()) => Ok(()),
        Err(_) => {
            let _ = file.set_len(len);
            Err(Fault)
        }
    }
}
