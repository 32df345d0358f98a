ghost use Rattle.std.specs.Prelude.{◌≡◌, ◌≢◌, ◌≤◌, ◌<◌, ℕ, [], List, Option, Some, None, OnOk, IfErr, true, false};
ghost use Rattle.ost_types.specs.Mode.{IsFolderMode, IsFileMode, IsLinkMode};
ghost use Rattle.fs_trait.specs.Count.{last};
ghost use Rattle.fs_trait.specs.View.{View, named, created, moved, extended, file_synced, folder_synced, all_synced};
ghost use Rattle.fs_trait.specs.Image.{IsTree, Told};
ghost use Rattle.fs_trait.specs.Effect.{no_new, no_file, no_leaf, no_move, no_folder, no_link, inode_of, part, one_inode, OfPlacing, OfFinding, OfEmptying, OfNone, IsNode, IsListing, Changed, Created, Removed, Answered, Elapses, Ticks, IsQuiet, HasCause, IsCounted, TakesRoom};
ghost use Rattle.fs_trait.specs.declared.types.Value.TheVariants.{Absent, Folder, Link};
ghost use Rattle.fs_trait.specs.declared.types.FsErr.TheVariants.{NoMemory};

use crate::{FsErr, Node};
use ost_types::{Bytes, FsPath, Meta, Names, Text};

/// A file system, as far as this project needs one.
///
/// What it holds is its view, which it may tell or not; every clause on what a call does or answers stands
/// where the view is told. A changing call takes effect at once for reads, and is sure to outlast a crash
/// only once the folder, or the file, was synced.
///
/// A path is walked from the root. The first folder on the way that is absent gives `Missing`, and the first
/// leaf in a folder's place `NotFolder`; links are never followed. Then each call has its own reasons to
/// refuse at the last name. Of two paths the first is walked first. A refused call changes nothing. A call
/// that answers `Failed` left the view as it was before the call or as it is after it; one that answers
/// `NoMemory` changed nothing.
pub trait Fs: Drop {
    /// What the file system holds, where it is told.
    ghost view: { Self → Option View };

    /// How many changing calls there were.
    ghost clock: { Self → ℕ };

    /// What was the view at some moment since the clock had a value.
    ghost was: { Self → ℕ → View → Type 0 };

    /// How many calls failed.
    ghost faults: { Self → ℕ };

    /// For how many changing calls there is room.
    ghost spare: { Self → ℕ };

    /// Makes a folder. Refused with `Exists` where something is there.
    fn mkdir(&mut self, at: &FsPath, meta: &Meta) -> Result<(), FsErr>
        requires { IsFolderMode meta.now.mode }
        ensures effect { (v : View) → view self.old ≡ Some v → Changed (no_new at.now v.now) v (named at.now (Folder meta.now) v) result (view self.new) }
        ensures named { IfErr result OfPlacing }
        ensures time { Elapses (clock self.old) (clock self.new) (was self.old) (was self.new) (view self.new) }
        ensures ticks { Ticks (clock self.old) (clock self.new) result }
        ensures stops { clock self.old ≡ last → view self.new ≡ view self.old }
        ensures cause { HasCause (faults self.old) (faults self.new) result }
        ensures counts { IsCounted (faults self.old) (faults self.new) result }
        ensures room { TakesRoom false (spare self.old) (spare self.new) result };

    /// Makes an empty regular file. Refused with `Exists` where something is there.
    fn create(&mut self, at: &FsPath, meta: &Meta) -> Result<(), FsErr>
        requires { IsFileMode meta.now.mode }
        ensures effect { (v : View) → view self.old ≡ Some v → Created at.now meta.now v result (view self.new) }
        ensures named { IfErr result OfPlacing }
        ensures time { Elapses (clock self.old) (clock self.new) (was self.old) (was self.new) (view self.new) }
        ensures ticks { Ticks (clock self.old) (clock self.new) result }
        ensures stops { clock self.old ≡ last → view self.new ≡ view self.old }
        ensures cause { HasCause (faults self.old) (faults self.new) result }
        ensures counts { IsCounted (faults self.old) (faults self.new) result }
        ensures room { TakesRoom false (spare self.old) (spare self.new) result };

    /// Adds bytes at the end of a regular file, which then isn't synced. Refused with `Missing` where no regular file is there.
    fn append(&mut self, at: &FsPath, bytes: &[u8]) -> Result<(), FsErr>
        ensures effect { (v : View) → view self.old ≡ Some v → Changed (no_file at.now v.now) v (extended (inode_of (v.now.at at.now)) bytes.now v) result (view self.new) }
        ensures named { IfErr result OfFinding }
        ensures time { Elapses (clock self.old) (clock self.new) (was self.old) (was self.new) (view self.new) }
        ensures ticks { Ticks (clock self.old) (clock self.new) result }
        ensures stops { clock self.old ≡ last → view self.new ≡ view self.old }
        ensures cause { HasCause (faults self.old) (faults self.new) result }
        ensures counts { IsCounted (faults self.old) (faults self.new) result }
        ensures room { TakesRoom false (spare self.old) (spare self.new) result };

    /// Makes a symbolic link. Refused with `Exists` where something is there.
    fn symlink(&mut self, at: &FsPath, target: &Text, meta: &Meta) -> Result<(), FsErr>
        requires mode { IsLinkMode meta.now.mode }
        requires target { target.now ≢ [] }
        ensures effect { (v : View) → view self.old ≡ Some v → Changed (no_new at.now v.now) v (named at.now (Link meta.now target.now) v) result (view self.new) }
        ensures named { IfErr result OfPlacing }
        ensures time { Elapses (clock self.old) (clock self.new) (was self.old) (was self.new) (view self.new) }
        ensures ticks { Ticks (clock self.old) (clock self.new) result }
        ensures stops { clock self.old ≡ last → view self.new ≡ view self.old }
        ensures cause { HasCause (faults self.old) (faults self.new) result }
        ensures counts { IsCounted (faults self.old) (faults self.new) result }
        ensures room { TakesRoom false (spare self.old) (spare self.new) result };

    /// Gives the leaf at `from` the name `to` too: the same inode, or a link equal to it.
    /// Refused with `Missing` where no leaf is at `from`, and with `Exists` where something is at `to`.
    fn link(&mut self, from: &FsPath, to: &FsPath) -> Result<(), FsErr>
        ensures effect { (v : View) → view self.old ≡ Some v → Changed (no_link from.now to.now v.now) v (named to.now (v.now.at from.now) v) result (view self.new) }
        ensures named { IfErr result OfPlacing }
        ensures time { Elapses (clock self.old) (clock self.new) (was self.old) (was self.new) (view self.new) }
        ensures ticks { Ticks (clock self.old) (clock self.new) result }
        ensures stops { clock self.old ≡ last → view self.new ≡ view self.old }
        ensures cause { HasCause (faults self.old) (faults self.new) result }
        ensures counts { IsCounted (faults self.old) (faults self.new) result }
        ensures room { TakesRoom false (spare self.old) (spare self.new) result };

    /// Takes a leaf's name away. Refused with `Missing` where no leaf is there.
    fn unlink(&mut self, at: &FsPath) -> Result<(), FsErr>
        ensures effect { (v : View) → view self.old ≡ Some v → Changed (no_leaf at.now v.now) v (named at.now Absent v) result (view self.new) }
        ensures named { IfErr result OfFinding }
        ensures time { Elapses (clock self.old) (clock self.new) (was self.old) (was self.new) (view self.new) }
        ensures ticks { Ticks (clock self.old) (clock self.new) result }
        ensures stops { clock self.old ≡ last → view self.new ≡ view self.old }
        ensures cause { HasCause (faults self.old) (faults self.new) result }
        ensures counts { IsCounted (faults self.old) (faults self.new) result }
        ensures room { TakesRoom true (spare self.old) (spare self.new) result };

    /// Removes an empty folder. Refused with `Missing` where nothing is there, with `NotFolder` at a leaf,
    /// and with `NotEmpty` where the folder has names and at the root.
    fn rmdir(&mut self, at: &FsPath) -> Result<(), FsErr>
        ensures effect { (v : View) → view self.old ≡ Some v → Removed at.now v result (view self.new) }
        ensures named { IfErr result OfEmptying }
        ensures time { Elapses (clock self.old) (clock self.new) (was self.old) (was self.new) (view self.new) }
        ensures ticks { Ticks (clock self.old) (clock self.new) result }
        ensures stops { clock self.old ≡ last → view self.new ≡ view self.old }
        ensures cause { HasCause (faults self.old) (faults self.new) result }
        ensures counts { IsCounted (faults self.old) (faults self.new) result }
        ensures room { TakesRoom true (spare self.old) (spare self.new) result };

    /// Gives the leaf at `from` the name `to` in its place, in one step; a leaf that was at `to` loses that name.
    /// Refused with `Missing` where no leaf is at `from`, and with `Exists` where a folder is at `to`.
    fn rename(&mut self, from: &FsPath, to: &FsPath) -> Result<(), FsErr>
        requires { (v : View) → view self.old ≡ Some v → one_inode (v.now.at from.now) (v.now.at to.now) ≡ false }
        ensures effect { (v : View) → view self.old ≡ Some v → Changed (no_move from.now to.now v.now) v (moved from.now to.now v) result (view self.new) }
        ensures named { IfErr result OfPlacing }
        ensures time { Elapses (clock self.old) (clock self.new) (was self.old) (was self.new) (view self.new) }
        ensures ticks { Ticks (clock self.old) (clock self.new) result }
        ensures stops { clock self.old ≡ last → view self.new ≡ view self.old }
        ensures cause { HasCause (faults self.old) (faults self.new) result }
        ensures counts { IsCounted (faults self.old) (faults self.new) result }
        ensures room { TakesRoom true (spare self.old) (spare self.new) result };

    /// Makes the bytes of a regular file outlast a crash. Refused with `Missing` where no regular file is there.
    fn sync_file(&mut self, at: &FsPath) -> Result<(), FsErr>
        ensures effect { (v : View) → view self.old ≡ Some v → Changed (no_file at.now v.now) v (file_synced (inode_of (v.now.at at.now)) v) result (view self.new) }
        ensures named { IfErr result OfFinding }
        ensures time { Elapses (clock self.old) (clock self.new) (was self.old) (was self.new) (view self.new) }
        ensures ticks { Ticks (clock self.old) (clock self.new) result }
        ensures stops { clock self.old ≡ last → view self.new ≡ view self.old }
        ensures cause { HasCause (faults self.old) (faults self.new) result }
        ensures counts { IsCounted (faults self.old) (faults self.new) result }
        ensures room { TakesRoom true (spare self.old) (spare self.new) result };

    /// Makes the names directly in a folder outlast a crash. Refused with `Missing` where nothing is there,
    /// and with `NotFolder` at a leaf.
    fn sync_dir(&mut self, at: &FsPath) -> Result<(), FsErr>
        ensures effect { (v : View) → view self.old ≡ Some v → Changed (no_folder at.now v.now) v (folder_synced at.now v) result (view self.new) }
        ensures named { IfErr result OfFinding }
        ensures time { Elapses (clock self.old) (clock self.new) (was self.old) (was self.new) (view self.new) }
        ensures ticks { Ticks (clock self.old) (clock self.new) result }
        ensures stops { clock self.old ≡ last → view self.new ≡ view self.old }
        ensures cause { HasCause (faults self.old) (faults self.new) result }
        ensures counts { IsCounted (faults self.old) (faults self.new) result }
        ensures room { TakesRoom true (spare self.old) (spare self.new) result };

    /// Makes everything outlast a crash.
    fn sync_all(&mut self) -> Result<(), FsErr>
        ensures effect { (v : View) → view self.old ≡ Some v → Changed None v (all_synced v) result (view self.new) }
        ensures named { IfErr result OfNone }
        ensures time { Elapses (clock self.old) (clock self.new) (was self.old) (was self.new) (view self.new) }
        ensures ticks { Ticks (clock self.old) (clock self.new) result }
        ensures stops { clock self.old ≡ last → view self.new ≡ view self.old }
        ensures cause { HasCause (faults self.old) (faults self.new) result }
        ensures counts { IsCounted (faults self.old) (faults self.new) result }
        ensures room { TakesRoom true (spare self.old) (spare self.new) result };

    /// Makes room for so many changing calls. A call takes the room of at most one, and a `rename`, an `unlink`,
    /// an `rmdir` or a sync that has room doesn't want for memory.
    fn reserve(&mut self, calls: u64) -> Result<(), FsErr>
        ensures ok { OnOk result (calls ≤ spare self.new) }
        ensures keeps_room { spare self.old ≤ spare self.new }
        ensures err { IfErr result (λ e. e ≡ NoMemory) }
        ensures faults { faults self.new ≡ faults self.old }
        ensures quiet { IsQuiet (clock self.old) (clock self.new) (was self.old) (was self.new) (view self.old) (view self.new) };

    /// What stands at a path: None where any part of the path is absent or a leaf stands in a folder's place.
    fn stat(&mut self, at: &FsPath) -> Result<Option<Node>, FsErr>
        ensures answer { (v : View) → view self.old ≡ Some v → Answered None (IsNode v.now (v.now.at at.now)) result }
        ensures named { IfErr result OfNone }
        ensures quiet { IsQuiet (clock self.old) (clock self.new) (was self.old) (was self.new) (view self.old) (view self.new) }
        ensures keeps_room { spare self.old ≤ spare self.new }
        ensures cause { HasCause (faults self.old) (faults self.new) result }
        ensures counts { IsCounted (faults self.old) (faults self.new) result };

    /// The bytes of a regular file. Refused with `Missing` where none is there.
    fn read(&mut self, at: &FsPath) -> Result<Bytes, FsErr>
        ensures answer { (v : View) → view self.old ≡ Some v → Answered (no_file at.now v.now) (λ b. b ≡ v.now.bytes (inode_of (v.now.at at.now))) result }
        ensures named { IfErr result OfFinding }
        ensures quiet { IsQuiet (clock self.old) (clock self.new) (was self.old) (was self.new) (view self.old) (view self.new) }
        ensures keeps_room { spare self.old ≤ spare self.new }
        ensures cause { HasCause (faults self.old) (faults self.new) result }
        ensures counts { IsCounted (faults self.old) (faults self.new) result };

    /// The bytes of a regular file from one place on, at most so many. Refused as `read` is.
    fn read_part(&mut self, at: &FsPath, from: u64, max: u32) -> Result<Bytes, FsErr>
        requires { 1 ≤ max }
        ensures answer { (v : View) → view self.old ≡ Some v → Answered (no_file at.now v.now) (λ b. b ≡ part from max (v.now.bytes (inode_of (v.now.at at.now)))) result }
        ensures named { IfErr result OfFinding }
        ensures quiet { IsQuiet (clock self.old) (clock self.new) (was self.old) (was self.new) (view self.old) (view self.new) }
        ensures keeps_room { spare self.old ≤ spare self.new }
        ensures cause { HasCause (faults self.old) (faults self.new) result }
        ensures counts { IsCounted (faults self.old) (faults self.new) result };

    /// The names directly in a folder, ascending. Refused as `sync_dir` is.
    fn list(&mut self, at: &FsPath) -> Result<Names, FsErr>
        ensures answer { (v : View) → view self.old ≡ Some v → Answered (no_folder at.now v.now) (IsListing v.now at.now) result }
        ensures named { IfErr result OfFinding }
        ensures quiet { IsQuiet (clock self.old) (clock self.new) (was self.old) (was self.new) (view self.old) (view self.new) }
        ensures keeps_room { spare self.old ≤ spare self.new }
        ensures cause { HasCause (faults self.old) (faults self.new) result }
        ensures counts { IsCounted (faults self.old) (faults self.new) result };

    /// Whether both paths are regular files of one inode.
    fn same(&mut self, a: &FsPath, b: &FsPath) -> Result<bool, FsErr>
        ensures answer { (v : View) → view self.old ≡ Some v → Answered None (λ x. x ≡ one_inode (v.now.at a.now) (v.now.at b.now)) result }
        ensures named { IfErr result OfNone }
        ensures quiet { IsQuiet (clock self.old) (clock self.new) (was self.old) (was self.new) (view self.old) (view self.new) }
        ensures keeps_room { spare self.old ≤ spare self.new }
        ensures cause { HasCause (faults self.old) (faults self.new) result }
        ensures counts { IsCounted (faults self.old) (faults self.new) result };

    /// The number of changing calls so far. Refused and failed ones count too, but not one that wanted for memory.
    fn clock(&self) -> u64
        ensures { result ≡ clock self.now };

    /// The number of failed calls so far, which stops at its last value.
    fn faults(&self) -> u64
        ensures { result ≡ faults self.now };

    /// This moment is one of those since an earlier one.
    ghost counts_now: { (fs : Self) (t : ℕ) (v : View) → t ≤ clock fs → view fs ≡ Some v → was fs t v };

    /// Since this moment there is no other.
    ghost only_now: { (fs : Self) (t : ℕ) (v : View) → clock fs ≤ t → was fs t v → view fs ≡ Some v };

    /// No view is one since a moment that is still to come.
    ghost bound: { (fs : Self) (t : ℕ) (v : View) → was fs t v → t ≤ clock fs };

    /// A view that is told is a tree.
    ghost tree: { (fs : Self) (v : View) → view fs ≡ Some v → IsTree v.now };

    /// A file system tells its view always or never.
    ghost told: { (fs gs : Self) (v : View) → view fs ≡ Some v → Told (view gs) (λ w. Unit {0}) };
}
