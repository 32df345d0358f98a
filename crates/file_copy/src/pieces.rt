//! How long a file is, and the pieces in which it is read.
ghost use Rattle.std.specs.Prelude.{◌≡◌, ◌≤◌, ◌<◌, ◌+◌, Some, IfOk, IfErr, length};
ghost use Rattle.fs_trait.specs.View.{View};
ghost use Rattle.fs_trait.specs.Image.{reads};
ghost use Rattle.fs_trait.specs.Effect.{HasCause, IsQuiet, OfFinding, OfNone};
ghost use Rattle.file_copy.specs.Pieces.{HasSize, IsPiece, piece_end, size_of, size_told};

use fs_trait::{Fs, FsErr, Node};
use ost_types::{Bytes, FsPath};

/// The most bytes that are read at once: 1 MiB.
const PIECE: u64 = 1 << 20;

/// The number of a regular file's bytes; None where none is there.
pub(crate) fn find_size<F: Fs>(fs: &mut F, at: &FsPath) -> Result<Option<u64>, FsErr>
    ensures told { (v : View) → F.view fs.old ≡ Some v → IfOk result (λ o. o ≡ size_of (reads v.now at.now)) }
    ensures named { IfErr result OfNone }
    ensures quiet { IsQuiet (F.clock fs.old) (F.clock fs.new) (F.was fs.old) (F.was fs.new) (F.view fs.old) (F.view fs.new) }
    ensures keeps_room { F.spare fs.old ≤ F.spare fs.new }
    ensures cause { HasCause (F.faults fs.old) (F.faults fs.new) result }
{
    let node = fs.stat(at)?;
    Ok(size_told(&node))
}

fn size_told(node: &Option<Node>) -> Option<u64>
    ensures { result ≡ size_told node.now }
{
    match node {
        Some(Node::File { len, .. }) => Some(*len),
        _ => None,
    }
}

/// The same, with `Missing` where none is there.
pub(crate) fn file_size<F: Fs>(fs: &mut F, at: &FsPath) -> Result<u64, FsErr>
    ensures told { (v : View) → F.view fs.old ≡ Some v → HasSize v.now at.now result }
    ensures named { IfErr result OfFinding }
    ensures quiet { IsQuiet (F.clock fs.old) (F.clock fs.new) (F.was fs.old) (F.was fs.new) (F.view fs.old) (F.view fs.new) }
    ensures keeps_room { F.spare fs.old ≤ F.spare fs.new }
    ensures cause { HasCause (F.faults fs.old) (F.faults fs.new) result }
{
    find_size(fs, at)?.ok_or(FsErr::Missing)
}

/// Where the next piece of so many bytes ends.
pub(crate) fn piece_end(size: u64, at: u64) -> u64
    requires { at < size }
    ensures value { result ≡ piece_end size at }
    ensures grows { at < result }
    ensures within { result ≤ size }
    ensures small { result ≤ at + 1048576 }
{
    if PIECE < size - at { at + PIECE } else { size }
}

/// The bytes of a regular file from one place to another. `Missing` where it has none there; fewer where it ends before.
pub(crate) fn read_piece<F: Fs>(
    fs: &mut F,
    at: &FsPath,
    from: u64,
    end: u64,
) -> Result<Bytes, FsErr>
    requires some { from < end }
    requires small { end ≤ from + 1048576 }
    ensures told { (v : View) → F.view fs.old ≡ Some v → IsPiece v.now at.now from end result }
    ensures some { IfOk result (λ b. 0 < length b) }
    ensures within { IfOk result (λ b. from + length b ≤ end) }
    ensures named { IfErr result OfFinding }
    ensures quiet { IsQuiet (F.clock fs.old) (F.clock fs.new) (F.was fs.old) (F.was fs.new) (F.view fs.old) (F.view fs.new) }
    ensures keeps_room { F.spare fs.old ≤ F.spare fs.new }
    ensures cause { HasCause (F.faults fs.old) (F.faults fs.new) result }
{
    let most = (end - from) as u32;
    let mut piece = fs.read_part(at, from, most)?.into_vec();
    piece.truncate(most as usize);
    if piece.is_empty() {
        return Err(FsErr::Missing);
    }
    Ok(Bytes::from_vec(piece))
}
