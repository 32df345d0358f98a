//! What stands at a ref's path.
ghost use Rattle.std.specs.Prelude.{◌≡◌, ◌≤◌, ℕ, Some, IfErr};
ghost use Rattle.fs_trait.specs.View.{View};
ghost use Rattle.fs_trait.specs.Effect.{HasCause, IsQuiet, OfFinding};
ghost use Rattle.fs_trait.specs.declared.types.Value.TheVariants.{File};
ghost use Rattle.ref_store.specs.Lookup.{Gets, Looks, ref_of};

use fs_trait::{Fs, FsErr, Node};
use ost_types::{Csum, FsPath};
use repo_layout::{RefName, read_ref, ref_path};
use std::alloc::Global;

/// What a ref is.
#[derive(Clone, Copy, Debug, PartialEq, Eq)]
pub enum GetRef {
    /// Nothing stands at the ref's path.
    Absent,
    /// A ref file stands there, which names this commit.
    Names(Csum),
    /// Something else stands there: a folder, a link, or a file that is no ref file.
    Unreadable,
}

/// What stands at a path where a ref's file may stand.
#[derive(Clone, Copy, Debug, PartialEq, Eq)]
pub(crate) enum There {
    Nothing,
    Folder,
    /// A ref file, which names this commit.
    Commit(Csum),
    /// A leaf that is no ref file.
    OtherLeaf,
}

// 64 digits and a newline
const REF_FILE_LEN: u64 = 65;

/// Reads a ref. What stands at its path is looked at once, and read where it has the length of a ref file.
pub fn get<F: Fs>(alloc: Global, fs: &mut F, name: &RefName) -> Result<GetRef, FsErr>
    ensures told { (v : View) → F.view fs.old ≡ Some v → Gets v.now name.now result }
    ensures named { IfErr result OfFinding }
    ensures quiet { IsQuiet (F.clock fs.old) (F.clock fs.new) (F.was fs.old) (F.was fs.new) (F.view fs.old) (F.view fs.new) }
    ensures keeps_room { F.spare fs.old ≤ F.spare fs.new }
    ensures cause { HasCause (F.faults fs.old) (F.faults fs.new) result }
{
    let path = ref_path(alloc, name)?;
    let there = look(fs, &path)?;
    Ok(ref_of(there))
}

fn ref_of(there: There) -> GetRef
    ensures { result ≡ ref_of there }
{
    match there {
        There::Nothing => GetRef::Absent,
        There::Commit(commit) => GetRef::Names(commit),
        There::Folder | There::OtherLeaf => GetRef::Unreadable,
    }
}

/// Looks at what stands at the path, and reads it where it may be a ref file.
pub(crate) fn look<F: Fs>(fs: &mut F, at: &FsPath) -> Result<There, FsErr>
    ensures told { (v : View) → F.view fs.old ≡ Some v → Looks v.now at.now result }
    ensures named { IfErr result OfFinding }
    ensures quiet { IsQuiet (F.clock fs.old) (F.clock fs.new) (F.was fs.old) (F.was fs.new) (F.view fs.old) (F.view fs.new) }
    ensures keeps_room { F.spare fs.old ≤ F.spare fs.new }
    ensures cause { HasCause (F.faults fs.old) (F.faults fs.new) result }
{
    match fs.stat(at)? {
        None => Ok(There::Nothing),
        Some(Node::Folder(_)) => Ok(There::Folder),
        Some(Node::Link { .. }) => Ok(There::OtherLeaf),
        Some(Node::File { len, .. }) => {
            if len == REF_FILE_LEN {
                read_commit(fs, at)
            } else {
                Ok(There::OtherLeaf)
            }
        }
    }
}

fn read_commit<F: Fs>(fs: &mut F, at: &FsPath) -> Result<There, FsErr>
    ensures told { (v : View) (n : ℕ) → F.view fs.old ≡ Some v → v.now.at at.now ≡ File n → Looks v.now at.now result }
    ensures named { IfErr result OfFinding }
    ensures quiet { IsQuiet (F.clock fs.old) (F.clock fs.new) (F.was fs.old) (F.was fs.new) (F.view fs.old) (F.view fs.new) }
    ensures keeps_room { F.spare fs.old ≤ F.spare fs.new }
    ensures cause { HasCause (F.faults fs.old) (F.faults fs.new) result }
{
    let bytes = fs.read(at)?;
    match read_ref(bytes.as_slice()) {
        Some(commit) => Ok(There::Commit(commit)),
        None => Ok(There::OtherLeaf),
    }
}
