//! What stands at an object's path.
ghost use Rattle.std.specs.Prelude.{◌≡◌, ◌≤◌, ◌<◌, ◌^◌, ℕ, Some, IfErr};
ghost use Rattle.ost_objects.specs.declared.fault.CheckFault.TheVariants as checks;
ghost use Rattle.ost_forms.specs.declared.body.Body.TheVariants.{Regular, Symlink};
ghost use Rattle.ost_forms.specs.declared.fault.ObjFault.TheVariants as reads;
ghost use Rattle.fs_trait.specs.View.{View};
ghost use Rattle.fs_trait.specs.Effect.{HasCause, IsNode, IsQuiet, OfNone};
ghost use Rattle.fs_trait.specs.Seen.{Symlink as SeenLink, shows};
ghost use Rattle.fs_trait.specs.declared.types.Value.TheVariants.{File};
ghost use Rattle.obj_store.specs.declared.fault.LoadFault.TheVariants as faults;
ghost use Rattle.obj_store.specs.Lengths.{FitsIn};
ghost use Rattle.obj_store.specs.Lookup.{Looks, Loads, ChecksAs, fault_of, Opens, OpensAt, IsRegular, Streams, HasCauseOf, IsFailed};

use crate::LoadFault;
use crate::too_long::refuse_long;
use fs_trait::{Fs, FsErr, Node};
use ost_forms::{Body, Content, ObjFault, write_content};
use ost_objects::{CheckFault, Checked, check};
use ost_types::{
    Bytes, FsPath, Kind, Limits, Meta, NoMemory, ObjName, Text, is_file_mode, is_link_mode,
};
use repo_layout::object_path;
use std::alloc::Global;

/// Whether something stands at the object's path.
pub fn has<F: Fs>(alloc: Global, fs: &mut F, name: &ObjName) -> Result<bool, FsErr>
    ensures told { (v : View) → F.view fs.old ≡ Some v → Looks v.now name.now result }
    ensures named { IfErr result OfNone }
    ensures quiet { IsQuiet (F.clock fs.old) (F.clock fs.new) (F.was fs.old) (F.was fs.new) (F.view fs.old) (F.view fs.new) }
    ensures keeps_room { F.spare fs.old ≤ F.spare fs.new }
    ensures cause { HasCause (F.faults fs.old) (F.faults fs.new) result }
{
    let path = object_path(alloc, name)?;
    let node = fs.stat(&path)?;
    Ok(node.is_some())
}

/// The object of this name, or None where nothing stands at its path. A file's object is its content stream; a folder, and a link
/// under the name of another object than a file, are read as no bytes.
pub fn load<F: Fs>(
    alloc: Global,
    fs: &mut F,
    name: &ObjName,
    limits: &Limits,
) -> Result<Option<Checked>, LoadFault>
    ensures told { (v : View) → F.view fs.old ≡ Some v → Loads v.now name.now limits.now.content result }
    ensures quiet { IsQuiet (F.clock fs.old) (F.clock fs.new) (F.was fs.old) (F.was fs.new) (F.view fs.old) (F.view fs.new) }
    ensures keeps_room { F.spare fs.old ≤ F.spare fs.new }
    ensures cause { HasCauseOf (F.faults fs.old) (F.faults fs.new) result }
{
    match open_object(alloc, fs, name)? {
        Some(bytes) => Ok(Some(checked(alloc, *name, bytes, limits)?)),
        None => Ok(None),
    }
}

/// The bytes of what stands at the object's path, as an object of its kind, or None where nothing stands there. They aren't looked
/// into, unless they are more than any object of the kind has: then they are read in parts, and what is wrong with them is told.
pub fn open_object<F: Fs>(
    alloc: Global,
    fs: &mut F,
    name: &ObjName,
) -> Result<Option<Bytes>, LoadFault>
    ensures told { (v : View) → F.view fs.old ≡ Some v → OpensAt v.now name.now result }
    ensures quiet { IsQuiet (F.clock fs.old) (F.clock fs.new) (F.was fs.old) (F.was fs.new) (F.view fs.old) (F.view fs.new) }
    ensures keeps_room { F.spare fs.old ≤ F.spare fs.new }
    ensures cause { HasCauseOf (F.faults fs.old) (F.faults fs.new) result }
{
    let path = object_path(alloc, name)?;
    let Some(node) = fs.stat(&path)? else {
        return Ok(None);
    };
    refuse_long(fs, name, &path, &node)?;
    Ok(Some(object_bytes(alloc, fs, name.kind, &path, node)?))
}

fn checked(
    alloc: Global,
    name: ObjName,
    bytes: Bytes,
    limits: &Limits,
) -> Result<Checked, LoadFault>
    ensures told { ChecksAs name limits.now.content bytes result }
    ensures failed { IsFailed result → ⊥ }
{
    match check(alloc, name, bytes, limits) {
        Ok(object) => Ok(object),
        Err(refused) => Err(fault_of(refused.1)),
    }
}

fn fault_of(fault: CheckFault) -> LoadFault
    ensures { result ≡ fault_of fault }
{
    match fault {
        CheckFault::NoMemory => LoadFault::NoMemory,
        fault => LoadFault::Damaged(fault),
    }
}

/// The bytes, as an object of the kind, of what stands at the path.
fn object_bytes<F: Fs>(
    alloc: Global,
    fs: &mut F,
    kind: Kind,
    at: &FsPath,
    node: Node,
) -> Result<Bytes, LoadFault>
    requires fits { FitsIn kind node }
    requires node { (v : View) → F.view fs.old ≡ Some v → IsNode v.now (v.now.at at.now) (Some node) }
    ensures told { (v : View) → F.view fs.old ≡ Some v → Opens kind (shows v.now at.now) result }
    ensures quiet { IsQuiet (F.clock fs.old) (F.clock fs.new) (F.was fs.old) (F.was fs.new) (F.view fs.old) (F.view fs.new) }
    ensures keeps_room { F.spare fs.old ≤ F.spare fs.new }
    ensures cause { HasCauseOf (F.faults fs.old) (F.faults fs.new) result }
{
    match node {
        Node::Folder(_) => Ok(Bytes::new(alloc)),
        Node::File { meta, .. } => file_bytes(alloc, fs, kind, at, meta),
        Node::Link { meta, target } => link_bytes(alloc, kind, meta, target),
    }
}

fn file_bytes<F: Fs>(
    alloc: Global,
    fs: &mut F,
    kind: Kind,
    at: &FsPath,
    meta: Meta,
) -> Result<Bytes, LoadFault>
    requires { (v : View) → F.view fs.old ≡ Some v → IsRegular v.now (v.now.at at.now) meta }
    ensures told { (v : View) → F.view fs.old ≡ Some v → Opens kind (shows v.now at.now) result }
    ensures quiet { IsQuiet (F.clock fs.old) (F.clock fs.new) (F.was fs.old) (F.was fs.new) (F.view fs.old) (F.view fs.new) }
    ensures keeps_room { F.spare fs.old ≤ F.spare fs.new }
    ensures cause { HasCauseOf (F.faults fs.old) (F.faults fs.new) result }
{
    let bytes = fs.read(at)?;
    if kind == Kind::File {
        file_stream(alloc, meta, bytes)
    } else {
        Ok(bytes)
    }
}

fn file_stream(alloc: Global, meta: Meta, bytes: Bytes) -> Result<Bytes, LoadFault>
    ensures form { Streams meta (Regular bytes) result }
    ensures failed { IsFailed result → ⊥ }
{
    if !is_file_mode(meta.mode) {
        return Err(bad_mode(&meta));
    }
    let content = Content {
        meta,
        body: Body::Regular(bytes),
    };
    Ok(write_content(alloc, &content)?)
}

fn link_bytes(alloc: Global, kind: Kind, meta: Meta, target: Text) -> Result<Bytes, LoadFault>
    ensures opens { Opens kind (SeenLink meta target) result }
    ensures failed { IsFailed result → ⊥ }
{
    if kind == Kind::File {
        link_stream(alloc, meta, target)
    } else {
        Ok(Bytes::new(alloc))
    }
}

fn link_stream(alloc: Global, meta: Meta, target: Text) -> Result<Bytes, LoadFault>
    ensures form { Streams meta (Symlink target) result }
    ensures failed { IsFailed result → ⊥ }
{
    if target.as_slice().is_empty() {
        // its stream is that of a file without bytes
        return file_stream(alloc, meta, Bytes::new(alloc));
    }
    if !is_link_mode(meta.mode) {
        return Err(bad_mode(&meta));
    }
    let content = Content {
        meta,
        body: Body::Symlink(target),
    };
    Ok(write_content(alloc, &content)?)
}

/// The mode is none of such a file; the numbers of attributes have 32 bits.
fn bad_mode(meta: &Meta) -> LoadFault
    ensures fault { result ≡ faults.Damaged (checks.Unreadable reads.BadMode) }
    ensures uid { meta.now.uid < 2 ^ 32 }
    ensures gid { meta.now.gid < 2 ^ 32 }
    ensures mode { meta.now.mode < 2 ^ 32 }
{
    let _uid = meta.uid;
    let _gid = meta.gid;
    let _mode = meta.mode;
    LoadFault::Damaged(CheckFault::Unreadable(ObjFault::BadMode))
}
