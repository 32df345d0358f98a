//! How long a file's object is, and the pieces in which it is read.
ghost use Rattle.std.specs.Prelude.{◌≡◌, ◌≤◌, ◌<◌, Some, IfOk, IfErr, length};
ghost use Rattle.ost_types.specs.declared.object.Kind.TheVariants.{File};
ghost use Rattle.fs_trait.specs.View.{View};
ghost use Rattle.fs_trait.specs.Image.{reads};
ghost use Rattle.fs_trait.specs.Effect.{HasCause, IsQuiet, OfFinding, OfNone};
ghost use Rattle.repo_layout.specs.Paths.{object_path};
ghost use Rattle.file_copy.specs.Pieces.{IsPiece, piece_end, size_of, size_told};
ghost use Rattle.tree_kernel.specs.Sizes.{HasSize, IsInitramfs, IsRange, IsReadIn, IsContent, TellsLength};

use crate::paths::file_path;
use fs_trait::{Fs, FsErr, Node};
use ost_types::{Bytes, Csum};
use std::alloc::Global;

/// The most bytes that are read at once: 1 MiB.
const PIECE: u64 = 1 << 20;

/// The number of the bytes of a file's object; None where no regular file is there.
pub(crate) fn find_size<F: Fs>(alloc: Global, fs: &mut F, file: &Csum) -> Result<Option<u64>, FsErr>
    ensures told { (v : View) → F.view fs.old ≡ Some v → IfOk result (λ o. o ≡ size_of (reads v.now (object_path File file.now))) }
    ensures named { IfErr result OfNone }
    ensures quiet { IsQuiet (F.clock fs.old) (F.clock fs.new) (F.was fs.old) (F.was fs.new) (F.view fs.old) (F.view fs.new) }
    ensures room { F.spare fs.old ≤ F.spare fs.new }
    ensures cause { HasCause (F.faults fs.old) (F.faults fs.new) result }
{
    let at = file_path(alloc, file)?;
    let node = fs.stat(&at)?;
    Ok(size_told(&node))
}

fn size_told(node: &Option<Node>) -> Option<u64>
    ensures { result ≡ size_told node.now }
{
    match node {
        Some(Node::File { len, .. }) => Some(*len),
        _ => None,
    }
}

/// The same, with `Missing` where none is there.
pub(crate) fn file_size<F: Fs>(alloc: Global, fs: &mut F, file: &Csum) -> Result<u64, FsErr>
    ensures told { (v : View) → F.view fs.old ≡ Some v → TellsLength (IsContent v.now file.now) result }
    ensures named { IfErr result OfFinding }
    ensures quiet { IsQuiet (F.clock fs.old) (F.clock fs.new) (F.was fs.old) (F.was fs.new) (F.view fs.old) (F.view fs.new) }
    ensures room { F.spare fs.old ≤ F.spare fs.new }
    ensures cause { HasCause (F.faults fs.old) (F.faults fs.new) result }
{
    match find_size(alloc, fs, file)? {
        Some(size) => Ok(size),
        None => Err(FsErr::Missing),
    }
}

/// The same of a file that there may be; one that there isn't has no bytes.
pub(crate) fn initramfs_size<F: Fs>(
    alloc: Global,
    fs: &mut F,
    file: &Option<Csum>,
) -> Result<u64, FsErr>
    ensures told { (v : View) → F.view fs.old ≡ Some v → TellsLength (IsInitramfs v.now file.now) result }
    ensures size { IfOk result (HasSize file.now) }
    ensures named { IfErr result OfFinding }
    ensures quiet { IsQuiet (F.clock fs.old) (F.clock fs.new) (F.was fs.old) (F.was fs.new) (F.view fs.old) (F.view fs.new) }
    ensures room { F.spare fs.old ≤ F.spare fs.new }
    ensures cause { HasCause (F.faults fs.old) (F.faults fs.new) result }
{
    match file {
        None => Ok(0),
        Some(file) => file_size(alloc, fs, file),
    }
}

/// Where the next piece of so many bytes ends.
pub(crate) fn piece_end(size: u64, at: u64) -> u64
    requires { at < size }
    ensures value { result ≡ piece_end size at }
    ensures range { IsRange at result }
    ensures within { result ≤ size }
{
    if PIECE < size - at { at + PIECE } else { size }
}

/// The bytes of a file's object from one place to another. `Missing` where it has none there; fewer where it ends before.
pub(crate) fn read_piece<F: Fs>(
    alloc: Global,
    fs: &mut F,
    file: &Csum,
    from: u64,
    end: u64,
) -> Result<Bytes, FsErr>
    requires { IsRange from end }
    ensures told { (v : View) → F.view fs.old ≡ Some v → IsPiece v.now (object_path File file.now) from end result }
    ensures read { IfOk result (IsReadIn from end) }
    ensures named { IfErr result OfFinding }
    ensures quiet { IsQuiet (F.clock fs.old) (F.clock fs.new) (F.was fs.old) (F.was fs.new) (F.view fs.old) (F.view fs.new) }
    ensures room { F.spare fs.old ≤ F.spare fs.new }
    ensures cause { HasCause (F.faults fs.old) (F.faults fs.new) result }
{
    let at = file_path(alloc, file)?;
    let most = (end - from) as u32;
    let mut piece = fs.read_part(&at, from, most)?.into_vec();
    piece.truncate(most as usize);
    if piece.is_empty() {
        return Err(FsErr::Missing);
    }
    Ok(Bytes::from_vec(piece))
}
