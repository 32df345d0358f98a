//! What is wrong with a file at an object's path that is longer than an object of its kind may be. Its bytes are read in parts, and
//! are never in memory together.
ghost use Rattle.std.specs.Prelude.{◌≡◌, ◌≤◌, ◌<◌, ◌+◌, Some, None, Err, IfOk, IfErr, IfSome, OnOk};
ghost use Rattle.sha2.specs.Sha256.{sha256};
ghost use Rattle.fs_trait.specs.View.{View};
ghost use Rattle.fs_trait.specs.Effect.{HasCause, IsNode, IsQuiet, OfNone, inode_of};
ghost use Rattle.repo_model.specs.Objects.{path_of};
ghost use Rattle.obj_store.specs.Lookup.{HasCauseOf, OpensAt};
ghost use Rattle.obj_store.specs.Lengths.{FitsIn, HasLength, IsFileOf, IsTooLong, TellsLong};
ghost use Rattle.obj_store.specs.declared.fault.LoadFault.TheVariants.{Damaged};

use crate::LoadFault;
use fs_trait::{Fs, FsErr, Node};
use ost_forms::{OBJECT_LIMIT, ObjFault};
use ost_objects::CheckFault;
use ost_types::{Csum, FsPath, Kind, ObjName};
use sha2::{Digest, Sha256};

/// No more bytes of a file are read at once: 1 MiB.
const PART: u64 = 1_048_576;

/// Refuses such a file, and nothing else.
pub(crate) fn refuse_long<F: Fs>(
    fs: &mut F,
    name: &ObjName,
    at: &FsPath,
    node: &Node,
) -> Result<(), LoadFault>
    requires at { at.now ≡ path_of name.now }
    requires node { (v : View) → F.view fs.old ≡ Some v → IsNode v.now (v.now.at at.now) (Some node.now) }
    ensures fits { OnOk result (FitsIn name.now.kind node.now) }
    ensures told { (v : View) → F.view fs.old ≡ Some v → IfErr result (λ e. OpensAt v.now name.now (Err e)) }
    ensures quiet { IsQuiet (F.clock fs.old) (F.clock fs.new) (F.was fs.old) (F.was fs.new) (F.view fs.old) (F.view fs.new) }
    ensures keeps_room { F.spare fs.old ≤ F.spare fs.new }
    ensures cause { HasCauseOf (F.faults fs.old) (F.faults fs.new) result }
{
    match too_long(name.kind, node) {
        Some(len) => Err(LoadFault::Damaged(long_fault(fs, name, at, len)?)),
        None => Ok(()),
    }
}

/// The length of a file that is too long. A file's object has no such bound, but one of its content.
fn too_long(kind: Kind, node: &Node) -> Option<u64>
    ensures some { IfSome result (λ len. IsFileOf node.now len × IsTooLong kind len) }
    ensures none { result ≡ None → FitsIn kind node.now }
{
    match node {
        Node::File { len, .. } => {
            if kind != Kind::File && *len > OBJECT_LIMIT as u64 {
                Some(*len)
            } else {
                None
            }
        }
        Node::Folder(_) => None,
        Node::Link { .. } => None,
    }
}

fn long_fault<F: Fs>(fs: &mut F, name: &ObjName, at: &FsPath, len: u64) -> Result<CheckFault, FsErr>
    requires at { at.now ≡ path_of name.now }
    requires long { IsTooLong name.now.kind len }
    requires file { (v : View) → F.view fs.old ≡ Some v → HasLength v.now (v.now.at at.now) len }
    ensures told { (v : View) → F.view fs.old ≡ Some v → IfOk result (λ fault. TellsLong v.now name.now (Damaged fault)) }
    ensures fails { (v : View) → F.view fs.old ≡ Some v → IfErr result OfNone }
    ensures quiet { IsQuiet (F.clock fs.old) (F.clock fs.new) (F.was fs.old) (F.was fs.new) (F.view fs.old) (F.view fs.new) }
    ensures keeps_room { F.spare fs.old ≤ F.spare fs.new }
    ensures cause { HasCause (F.faults fs.old) (F.faults fs.new) result }
{
    let found = sum_of_parts(fs, at, len)?;
    if found == name.csum {
        Ok(CheckFault::Unreadable(ObjFault::TooLarge(len)))
    } else {
        Ok(CheckFault::WrongSum(found))
    }
}

/// The SHA-256 of the bytes of a file of this length.
fn sum_of_parts<F: Fs>(fs: &mut F, at: &FsPath, len: u64) -> Result<Csum, FsErr>
    requires { (v : View) → F.view fs.old ≡ Some v → HasLength v.now (v.now.at at.now) len }
    ensures told { (v : View) → F.view fs.old ≡ Some v → IfOk result (λ sum. sum ≡ sha256 (v.now.bytes (inode_of (v.now.at at.now)))) }
    ensures fails { (v : View) → F.view fs.old ≡ Some v → IfErr result OfNone }
    ensures quiet { IsQuiet (F.clock fs.old) (F.clock fs.new) (F.was fs.old) (F.was fs.new) (F.view fs.old) (F.view fs.new) }
    ensures keeps_room { F.spare fs.old ≤ F.spare fs.new }
    ensures cause { HasCause (F.faults fs.old) (F.faults fs.new) result }
{
    let mut hasher = Sha256::new();
    let mut from: u64 = 0;
    'parts: while from < len {
        let end = part_end(from, len);
        let part = fs.read_part(at, from, (end - from) as u32)?;
        hasher.update(part.as_slice());
        from = end;
    }
    Ok(Csum::from_bytes(hasher.finalize()))
}

fn part_end(from: u64, len: u64) -> u64
    requires { from < len }
    ensures grows { from < result }
    ensures within { result ≤ len }
    ensures small { result ≤ from + 1048576 }
{
    if len - from > PART { from + PART } else { len }
}
