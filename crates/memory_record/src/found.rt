ghost use Rattle.std.specs.Prelude.{◌≡◌, IfOk, MatchOption, false, option_copied};
ghost use Rattle.ost_types.specs.Path.{Path, AreNames};
ghost use Rattle.ost_types.specs.Flat.{flat};
ghost use Rattle.fs_trait.specs.Effect.{one_inode, inode_of, if_there, unless_file, unless_leaf, if_folder, no_way};
ghost use Rattle.fs_trait.specs.Image.{is_folder};
ghost use Rattle.fs_trait.specs.declared.types.Value as shown;
ghost use Rattle.fs_trait.specs.declared.types.Value.TheVariants.{Absent};
ghost use Rattle.memory_table.specs.Ties.{present};
ghost use Rattle.memory_record.specs.Changes.{view_of, root_meta};
ghost use Rattle.memory_record.specs.Seen.{IsSeen, value_of};
ghost use Rattle.memory_record.specs.Answer.{IsAnswer};

use crate::change::Change;
use fs_trait::{FsErr, Value};
use ost_types::{Meta, NoMemory, Text, TryCopy, Xattrs};
use std::alloc::Global;

/// What stands at a path.
#[derive(Drop)]
pub enum Found<'a> {
    Absent,
    /// The root folder, as it is from the first.
    Root,
    Folder(&'a Meta),
    Link(&'a Meta, &'a Text),
    File(u64),
}

/// The root folder's attributes.
pub fn root_meta(alloc: Global) -> Meta
    ensures { result ≡ root_meta }
{
    Meta {
        uid: 0,
        gid: 0,
        mode: 0o040755,
        xattrs: Xattrs::new(alloc),
    }
}

impl<'a> Found<'a> {
    pub fn of(value: &'a Value) -> Found<'a>
        ensures { value_of result ≡ value.now }
    {
        match value {
            Value::Absent => Found::Absent,
            Value::Folder(meta) => Found::Folder(meta),
            Value::Link(meta, target) => Found::Link(meta, target),
            Value::File(inode) => Found::File(*inode),
        }
    }

    /// What a table has.
    pub fn or_absent(value: Option<&'a Value>) -> Found<'a>
        ensures shows { (x : shown.Value) → option_copied value.entry ≡ present x → value_of result ≡ x }
        ensures value { MatchOption value.entry (value_of result ≡ Absent) (λ x. value_of result ≡ x.now) }
    {
        match value {
            Some(value) => Found::of(value),
            None => Found::Absent,
        }
    }

    /// Whether both are files of one inode.
    pub fn is_one_with(&self, other: &Found) -> bool
        ensures { result ≡ one_inode (value_of self.now) (value_of other.now) }
    {
        match (self, other) {
            (Found::File(a), Found::File(b)) => *a == *b,
            _ => false,
        }
    }

    pub fn is_folder(&self) -> bool
        ensures { result ≡ is_folder (value_of self.now) }
    {
        match self {
            Found::Root => true,
            Found::Folder(_) => true,
            Found::Absent => false,
            Found::Link(_, _) => false,
            Found::File(_) => false,
        }
    }

    pub fn copy(&self, alloc: Global) -> Result<Value, NoMemory>
        ensures { IfOk result (λ x. x ≡ value_of self.now) }
    {
        Ok(match self {
            Found::Absent => Value::Absent,
            Found::Root => Value::Folder(root_meta(alloc)),
            Found::Folder(meta) => Value::Folder(meta.copy()?),
            Found::Link(meta, target) => Value::Link(meta.copy()?, target.copy()?),
            Found::File(inode) => Value::File(*inode),
        })
    }

    /// Refused where something is there.
    pub fn vacant(&self) -> Result<(), FsErr>
        ensures { IsAnswer false (if_there (value_of self.now)) (λ _. Unit {0}) result }
    {
        match self {
            Found::Absent => Ok(()),
            Found::Root => Err(FsErr::Exists),
            Found::Folder(_) => Err(FsErr::Exists),
            Found::Link(_, _) => Err(FsErr::Exists),
            Found::File(_) => Err(FsErr::Exists),
        }
    }

    /// The inode, refused where no regular file is there.
    pub fn file(&self) -> Result<u64, FsErr>
        ensures { IsAnswer false (unless_file (value_of self.now)) (λ n. n ≡ inode_of (value_of self.now)) result }
    {
        match self {
            Found::File(inode) => Ok(*inode),
            Found::Absent => Err(FsErr::Missing),
            Found::Root => Err(FsErr::Missing),
            Found::Folder(_) => Err(FsErr::Missing),
            Found::Link(_, _) => Err(FsErr::Missing),
        }
    }

    /// Refused where no leaf is there.
    pub fn leaf(&self) -> Result<(), FsErr>
        ensures { IsAnswer false (unless_leaf (value_of self.now)) (λ _. Unit {0}) result }
    {
        match self {
            Found::File(_) => Ok(()),
            Found::Link(_, _) => Ok(()),
            Found::Absent => Err(FsErr::Missing),
            Found::Root => Err(FsErr::Missing),
            Found::Folder(_) => Err(FsErr::Missing),
        }
    }

    /// Refused where a folder is there.
    pub fn no_folder(&self) -> Result<(), FsErr>
        ensures { IsAnswer false (if_folder (value_of self.now)) (λ _. Unit {0}) result }
    {
        match self {
            Found::Root => Err(FsErr::Exists),
            Found::Folder(_) => Err(FsErr::Exists),
            Found::File(_) => Ok(()),
            Found::Link(_, _) => Ok(()),
            Found::Absent => Ok(()),
        }
    }

    /// Refused where no folder is there.
    pub fn folder(&self) -> Result<(), FsErr>
        ensures { IsAnswer false (no_way (value_of self.now)) (λ _. Unit {0}) result }
    {
        match self {
            Found::Root => Ok(()),
            Found::Folder(_) => Ok(()),
            Found::Absent => Err(FsErr::Missing),
            Found::File(_) => Err(FsErr::NotFolder),
            Found::Link(_, _) => Err(FsErr::NotFolder),
        }
    }
}

/// What a change says of a path: the value that it gave it, or the path at which that stood before.
#[derive(Drop)]
pub enum Seen<'a> {
    Value(Found<'a>),
    At(&'a [u8]),
}

/// What stands at a path after these changes.
pub fn value_at<'a>(changes: &'a [Change], path: &'a [u8]) -> Found<'a>
    ensures { (p : Path) → AreNames p → path.now ≡ flat p → value_of result ≡ (view_of changes.now).now.at p }
{
    let mut at = path;
    let mut i = changes.len();
    while i > 0 {
        i -= 1;
        match look(&changes[i], at) {
            Seen::Value(value) => return value,
            Seen::At(before) => at = before,
        }
    }
    if at.is_empty() {
        Found::Root
    } else {
        Found::Absent
    }
}

fn look<'a>(change: &'a Change, at: &'a [u8]) -> Seen<'a>
    ensures { (p : Path) → AreNames p → at.now ≡ flat p → IsSeen change.now p result }
{
    match change {
        Change::Nothing => Seen::At(at),
        Change::Name(named, value) => {
            if named.text() == at {
                Seen::Value(Found::of(value))
            } else {
                Seen::At(at)
            }
        }
        Change::Create(named, _, inode) => {
            if named.text() == at {
                Seen::Value(Found::File(*inode))
            } else {
                Seen::At(at)
            }
        }
        Change::Move(from, to) => {
            if from.text() == at {
                Seen::Value(Found::Absent)
            } else if to.text() == at {
                Seen::At(from.text())
            } else {
                Seen::At(at)
            }
        }
        Change::Extend(_, _) => Seen::At(at),
        Change::SyncFile(_) => Seen::At(at),
        Change::SyncFolder(_) => Seen::At(at),
        Change::SyncAll => Seen::At(at),
        Change::Crash(_) => Seen::At(at),
    }
}
