//! The refs of a disk.
ghost use Rattle.std.specs.Prelude.{◌≡◌, ◌≢◌, Some, OnOk, IfOk, IfErr, true};
ghost use Rattle.fs_trait.specs.View.{Disk, View};
ghost use Rattle.fs_trait.specs.Image.{is_folder};
ghost use Rattle.fs_trait.specs.Effect.{IsNode, IsQuiet, inode_of};
ghost use Rattle.repo_layout.specs.Refs.{ShowsCommit};
ghost use Rattle.sys_open.specs.declared.fault.OpenFault.TheVariants as fault;
ghost use Rattle.sys_open.specs.declared.fault.Why.TheVariants.{BadRef};
ghost use Rattle.ref_room.specs.declared.stands.Stands.TheVariants as stand;
ghost use Rattle.sys_open.specs.Faults.{HasReason};
ghost use Rattle.layout_rules.specs.Checks.{HoldsRefs, IsRefAt};
ghost use Rattle.sys_open.specs.Walk.{Finds, IsFileAt, Looked, Visited, Walked};
ghost use Rattle.sys_open.specs.Gathered.{AreOf, Grows, HasAllBelow, HasAt};

use crate::children::children;
use crate::fault::{OpenFault, Why, damaged, refused};
use crate::found::Found;
use fs_trait::{Fs, Node};
use ost_types::{Bytes, Csum, FsPath};
use ref_room::{Stands, ref_at};
use repo_layout::read_ref;
use std::alloc::Global;

// 64 digits and a newline
const REF_FILE_LEN: u64 = 65;

/// Looks at a path and all below it, and adds the refs that stand there. The least path is told at which something else
/// stands.
#[cycle(read)]
pub fn read_refs<F: Fs>(
    alloc: Global,
    fs: &mut F,
    at: &FsPath,
    found: &mut Found,
) -> Result<(), OpenFault>
    ensures told { (v : View) → F.view fs.old ≡ Some v → Walked (HoldsRefs v.now) BadRef at.now result }
    ensures right { (v : View) → F.view fs.old ≡ Some v → OnOk result (AreOf v.now found.old.refs → AreOf v.now found.new.refs) }
    ensures whole { (v : View) → F.view fs.old ≡ Some v → OnOk result (HasAllBelow v.now at.now found.new.refs) }
    ensures grows { OnOk result (Grows found.old.refs found.new.refs) }
    ensures quiet { IsQuiet (F.clock fs.old) (F.clock fs.new) (F.was fs.old) (F.was fs.new) (F.view fs.old) (F.view fs.new) }
    ensures reason { HasReason (F.faults fs.old) (F.faults fs.new) result }
{
    match visit(alloc, fs, at, found) {
        Ok(Stands::Folder) => read_folder(alloc, fs, at, found),
        Ok(Stands::Leaf) => Ok(()),
        Ok(Stands::Nothing) => Ok(()),
        Err(fault) => Err(fault),
    }
}

#[cycle(read)]
fn read_folder<F: Fs>(
    alloc: Global,
    fs: &mut F,
    at: &FsPath,
    found: &mut Found,
) -> Result<(), OpenFault>
    requires { (v : View) → F.view fs.old ≡ Some v → is_folder (v.now.at at.now) ≡ true }
    ensures told { (v : View) → F.view fs.old ≡ Some v → Walked (HoldsRefs v.now) BadRef at.now result }
    ensures right { (v : View) → F.view fs.old ≡ Some v → OnOk result (AreOf v.now found.old.refs → AreOf v.now found.new.refs) }
    ensures whole { (v : View) → F.view fs.old ≡ Some v → OnOk result (HasAllBelow v.now at.now found.new.refs) }
    ensures grows { OnOk result (Grows found.old.refs found.new.refs) }
    ensures quiet { IsQuiet (F.clock fs.old) (F.clock fs.new) (F.was fs.old) (F.was fs.new) (F.view fs.old) (F.view fs.new) }
    ensures reason { HasReason (F.faults fs.old) (F.faults fs.new) result }
{
    let inside = children(alloc, fs, at, Why::BadRef)?;
    for path in inside.as_slice() {
        read_refs(alloc, fs, path, found)?;
    }
    Ok(())
}

// looks at one path, and adds the ref that stands there
fn visit<F: Fs>(
    alloc: Global,
    fs: &mut F,
    at: &FsPath,
    found: &mut Found,
) -> Result<Stands, OpenFault>
    ensures told { (v : View) → F.view fs.old ≡ Some v → Visited v.now at.now result }
    ensures right { (v : View) → F.view fs.old ≡ Some v → OnOk result (AreOf v.now found.old.refs → AreOf v.now found.new.refs) }
    ensures whole { (v : View) → F.view fs.old ≡ Some v → IfOk result (λ stands. stands ≢ stand.Folder → HasAllBelow v.now at.now found.new.refs) }
    ensures grows { OnOk result (Grows found.old.refs found.new.refs) }
    ensures quiet { IsQuiet (F.clock fs.old) (F.clock fs.new) (F.was fs.old) (F.was fs.new) (F.view fs.old) (F.view fs.new) }
    ensures reason { HasReason (F.faults fs.old) (F.faults fs.new) result }
{
    match node_at(fs, at)? {
        None => Ok(Stands::Nothing),
        Some(Node::Folder(_)) => Ok(Stands::Folder),
        Some(Node::Link { .. }) => Err(damaged(at, Why::BadRef)),
        Some(Node::File { len, .. }) => {
            if len == REF_FILE_LEN {
                read_file(alloc, fs, at, found)
            } else {
                Err(damaged(at, Why::BadRef))
            }
        }
    }
}

/// What stands at the path.
pub fn node_at<F: Fs>(fs: &mut F, at: &FsPath) -> Result<Option<Node>, OpenFault>
    ensures told { (v : View) → F.view fs.old ≡ Some v → Finds (IsNode v.now (v.now.at at.now)) result }
    ensures quiet { IsQuiet (F.clock fs.old) (F.clock fs.new) (F.was fs.old) (F.was fs.new) (F.view fs.old) (F.view fs.new) }
    ensures reason { HasReason (F.faults fs.old) (F.faults fs.new) result }
{
    match fs.stat(at) {
        Ok(node) => Ok(node),
        Err(error) => Err(refused(at, error)),
    }
}

// reads a file that may be a ref's
fn read_file<F: Fs>(
    alloc: Global,
    fs: &mut F,
    at: &FsPath,
    found: &mut Found,
) -> Result<Stands, OpenFault>
    requires { (v : View) → F.view fs.old ≡ Some v → IsFileAt v.now at.now }
    ensures told { (v : View) → F.view fs.old ≡ Some v → Visited v.now at.now result }
    ensures right { (v : View) → F.view fs.old ≡ Some v → OnOk result (AreOf v.now found.old.refs → AreOf v.now found.new.refs) }
    ensures whole { (v : View) → F.view fs.old ≡ Some v → IfOk result (λ stands. stands ≢ stand.Folder → HasAllBelow v.now at.now found.new.refs) }
    ensures grows { OnOk result (Grows found.old.refs found.new.refs) }
    ensures quiet { IsQuiet (F.clock fs.old) (F.clock fs.new) (F.was fs.old) (F.was fs.new) (F.view fs.old) (F.view fs.new) }
    ensures reason { HasReason (F.faults fs.old) (F.faults fs.new) result }
{
    let bytes = bytes_at(fs, at)?;
    match read_ref(bytes.as_slice()) {
        Some(commit) => {
            enter(alloc, at, commit, found)?;
            Ok(Stands::Leaf)
        }
        None => Err(damaged(at, Why::BadRef)),
    }
}

/// The bytes of the regular file at the path.
pub fn bytes_at<F: Fs>(fs: &mut F, at: &FsPath) -> Result<Bytes, OpenFault>
    ensures told { (v : View) → F.view fs.old ≡ Some v → IsFileAt v.now at.now → Finds (λ b. b ≡ v.now.bytes (inode_of (v.now.at at.now))) result }
    ensures quiet { IsQuiet (F.clock fs.old) (F.clock fs.new) (F.was fs.old) (F.was fs.new) (F.view fs.old) (F.view fs.new) }
    ensures reason { HasReason (F.faults fs.old) (F.faults fs.new) result }
{
    match fs.read(at) {
        Ok(bytes) => Ok(bytes),
        Err(error) => Err(refused(at, error)),
    }
}

// the ref whose file stands at the path names this commit
fn enter(alloc: Global, at: &FsPath, commit: Csum, found: &mut Found) -> Result<(), OpenFault>
    ensures told { (d : Disk) → ShowsCommit d at.now commit → Looked (IsRefAt d at.now) BadRef at.now result }
    ensures right { (d : Disk) → ShowsCommit d at.now commit → OnOk result (AreOf d found.old.refs → AreOf d found.new.refs) }
    ensures there { OnOk result (HasAt at.now found.new.refs) }
    ensures grows { OnOk result (Grows found.old.refs found.new.refs) }
    ensures no_call { IfErr result (λ e. e ≢ fault.Disk) }
{
    match ref_at(alloc, at)? {
        Some(name) => {
            found.insert(name, commit)?;
            Ok(())
        }
        None => Err(damaged(at, Why::BadRef)),
    }
}
