ghost use Rattle.std.specs.Prelude.{◌≡◌, ◌≢◌, ◌≤◌, ◌<◌, [], Some, None, OnOk, IfErr, true, false};
ghost use Rattle.ost_types.specs.Mode.{IsFolderMode, IsFileMode, IsLinkMode};
ghost use Rattle.fs_trait.specs.Count.{last};
ghost use Rattle.fs_trait.specs.View.{View, named, created, moved, extended, file_synced, folder_synced, all_synced};
ghost use Rattle.fs_trait.specs.Effect.{no_new, no_file, no_leaf, no_move, no_folder, no_link, inode_of, part, one_inode, OfPlacing, OfFinding, OfEmptying, OfNone, IsNode, IsListing, Changed, Created, Removed, Answered, Elapses, Ticks, IsQuiet, HasCause, IsCounted, TakesRoom};
ghost use Rattle.fs_trait.specs.declared.types.Value.TheVariants.{Absent, Folder, Link};
ghost use Rattle.fs_trait.specs.declared.types.FsErr.TheVariants.{NoMemory};
ghost use Rattle.fs_watch.specs.Refused.{Remembers, about};

use crate::Watch;
use crate::note::{note, note_either};
use fs_trait::{Fs, FsErr, Node};
use ost_types::{Bytes, FsPath, Meta, Names, Text};

/// A file system that remembers what path the last call was about that it refused.
#[derive(Drop)]
pub struct Watched<F: Fs> {
    fs: F,
    refused: Option<FsPath>,
}

impl<F: Fs> Watched<F> {
    pub fn new(fs: F) -> Watched<F>
        ensures fs { result.fs ≡ fs }
        ensures refused { result.refused ≡ None }
    {
        Watched { fs, refused: None }
    }

    pub fn into_inner(self) -> F
        ensures { result ≡ self.fs }
    {
        self.fs
    }
}

impl<F: Fs> Watch for Watched<F> {
    ghost refused = { λ s. s.refused };

    fn refused(&self) -> &Option<FsPath> {
        &self.refused
    }
}

impl<F: Fs> Fs for Watched<F> {
    ghost view = { λ s. F.view s.fs };

    ghost clock = { λ s. F.clock s.fs };

    ghost was = { λ s. F.was s.fs };

    ghost faults = { λ s. F.faults s.fs };

    ghost spare = { λ s. F.spare s.fs };

    fn mkdir(&mut self, at: &FsPath, meta: &Meta) -> Result<(), FsErr>
        requires { IsFolderMode meta.now.mode }
        ensures effect { (v : View) → F.view self.old.fs ≡ Some v → Changed (no_new at.now v.now) v (named at.now (Folder meta.now) v) result (F.view self.new.fs) }
        ensures named { IfErr result OfPlacing }
        ensures time { Elapses (F.clock self.old.fs) (F.clock self.new.fs) (F.was self.old.fs) (F.was self.new.fs) (F.view self.new.fs) }
        ensures ticks { Ticks (F.clock self.old.fs) (F.clock self.new.fs) result }
        ensures stops { F.clock self.old.fs ≡ last → F.view self.new.fs ≡ F.view self.old.fs }
        ensures cause { HasCause (F.faults self.old.fs) (F.faults self.new.fs) result }
        ensures counts { IsCounted (F.faults self.old.fs) (F.faults self.new.fs) result }
        ensures room { TakesRoom false (F.spare self.old.fs) (F.spare self.new.fs) result }
        ensures notes { Remembers at.now result self.old.refused self.new.refused }
    {
        let answer = self.fs.mkdir(at, meta);
        note(&mut self.refused, at, answer)
    }

    fn create(&mut self, at: &FsPath, meta: &Meta) -> Result<(), FsErr>
        requires { IsFileMode meta.now.mode }
        ensures effect { (v : View) → F.view self.old.fs ≡ Some v → Created at.now meta.now v result (F.view self.new.fs) }
        ensures named { IfErr result OfPlacing }
        ensures time { Elapses (F.clock self.old.fs) (F.clock self.new.fs) (F.was self.old.fs) (F.was self.new.fs) (F.view self.new.fs) }
        ensures ticks { Ticks (F.clock self.old.fs) (F.clock self.new.fs) result }
        ensures stops { F.clock self.old.fs ≡ last → F.view self.new.fs ≡ F.view self.old.fs }
        ensures cause { HasCause (F.faults self.old.fs) (F.faults self.new.fs) result }
        ensures counts { IsCounted (F.faults self.old.fs) (F.faults self.new.fs) result }
        ensures room { TakesRoom false (F.spare self.old.fs) (F.spare self.new.fs) result }
        ensures notes { Remembers at.now result self.old.refused self.new.refused }
    {
        let answer = self.fs.create(at, meta);
        note(&mut self.refused, at, answer)
    }

    fn append(&mut self, at: &FsPath, bytes: &[u8]) -> Result<(), FsErr>
        ensures effect { (v : View) → F.view self.old.fs ≡ Some v → Changed (no_file at.now v.now) v (extended (inode_of (v.now.at at.now)) bytes.now v) result (F.view self.new.fs) }
        ensures named { IfErr result OfFinding }
        ensures time { Elapses (F.clock self.old.fs) (F.clock self.new.fs) (F.was self.old.fs) (F.was self.new.fs) (F.view self.new.fs) }
        ensures ticks { Ticks (F.clock self.old.fs) (F.clock self.new.fs) result }
        ensures stops { F.clock self.old.fs ≡ last → F.view self.new.fs ≡ F.view self.old.fs }
        ensures cause { HasCause (F.faults self.old.fs) (F.faults self.new.fs) result }
        ensures counts { IsCounted (F.faults self.old.fs) (F.faults self.new.fs) result }
        ensures room { TakesRoom false (F.spare self.old.fs) (F.spare self.new.fs) result }
        ensures notes { Remembers at.now result self.old.refused self.new.refused }
    {
        let answer = self.fs.append(at, bytes);
        note(&mut self.refused, at, answer)
    }

    fn symlink(&mut self, at: &FsPath, target: &Text, meta: &Meta) -> Result<(), FsErr>
        requires mode { IsLinkMode meta.now.mode }
        requires target { target.now ≢ [] }
        ensures effect { (v : View) → F.view self.old.fs ≡ Some v → Changed (no_new at.now v.now) v (named at.now (Link meta.now target.now) v) result (F.view self.new.fs) }
        ensures named { IfErr result OfPlacing }
        ensures time { Elapses (F.clock self.old.fs) (F.clock self.new.fs) (F.was self.old.fs) (F.was self.new.fs) (F.view self.new.fs) }
        ensures ticks { Ticks (F.clock self.old.fs) (F.clock self.new.fs) result }
        ensures stops { F.clock self.old.fs ≡ last → F.view self.new.fs ≡ F.view self.old.fs }
        ensures cause { HasCause (F.faults self.old.fs) (F.faults self.new.fs) result }
        ensures counts { IsCounted (F.faults self.old.fs) (F.faults self.new.fs) result }
        ensures room { TakesRoom false (F.spare self.old.fs) (F.spare self.new.fs) result }
        ensures notes { Remembers at.now result self.old.refused self.new.refused }
    {
        let answer = self.fs.symlink(at, target, meta);
        note(&mut self.refused, at, answer)
    }

    fn link(&mut self, from: &FsPath, to: &FsPath) -> Result<(), FsErr>
        ensures effect { (v : View) → F.view self.old.fs ≡ Some v → Changed (no_link from.now to.now v.now) v (named to.now (v.now.at from.now) v) result (F.view self.new.fs) }
        ensures named { IfErr result OfPlacing }
        ensures time { Elapses (F.clock self.old.fs) (F.clock self.new.fs) (F.was self.old.fs) (F.was self.new.fs) (F.view self.new.fs) }
        ensures ticks { Ticks (F.clock self.old.fs) (F.clock self.new.fs) result }
        ensures stops { F.clock self.old.fs ≡ last → F.view self.new.fs ≡ F.view self.old.fs }
        ensures cause { HasCause (F.faults self.old.fs) (F.faults self.new.fs) result }
        ensures counts { IsCounted (F.faults self.old.fs) (F.faults self.new.fs) result }
        ensures room { TakesRoom false (F.spare self.old.fs) (F.spare self.new.fs) result }
        ensures notes { Remembers (about from.now to.now result) result self.old.refused self.new.refused }
    {
        let answer = self.fs.link(from, to);
        note_either(&mut self.refused, from, to, answer)
    }

    fn unlink(&mut self, at: &FsPath) -> Result<(), FsErr>
        ensures effect { (v : View) → F.view self.old.fs ≡ Some v → Changed (no_leaf at.now v.now) v (named at.now Absent v) result (F.view self.new.fs) }
        ensures named { IfErr result OfFinding }
        ensures time { Elapses (F.clock self.old.fs) (F.clock self.new.fs) (F.was self.old.fs) (F.was self.new.fs) (F.view self.new.fs) }
        ensures ticks { Ticks (F.clock self.old.fs) (F.clock self.new.fs) result }
        ensures stops { F.clock self.old.fs ≡ last → F.view self.new.fs ≡ F.view self.old.fs }
        ensures cause { HasCause (F.faults self.old.fs) (F.faults self.new.fs) result }
        ensures counts { IsCounted (F.faults self.old.fs) (F.faults self.new.fs) result }
        ensures room { TakesRoom true (F.spare self.old.fs) (F.spare self.new.fs) result }
        ensures notes { Remembers at.now result self.old.refused self.new.refused }
    {
        let answer = self.fs.unlink(at);
        note(&mut self.refused, at, answer)
    }

    fn rmdir(&mut self, at: &FsPath) -> Result<(), FsErr>
        ensures effect { (v : View) → F.view self.old.fs ≡ Some v → Removed at.now v result (F.view self.new.fs) }
        ensures named { IfErr result OfEmptying }
        ensures time { Elapses (F.clock self.old.fs) (F.clock self.new.fs) (F.was self.old.fs) (F.was self.new.fs) (F.view self.new.fs) }
        ensures ticks { Ticks (F.clock self.old.fs) (F.clock self.new.fs) result }
        ensures stops { F.clock self.old.fs ≡ last → F.view self.new.fs ≡ F.view self.old.fs }
        ensures cause { HasCause (F.faults self.old.fs) (F.faults self.new.fs) result }
        ensures counts { IsCounted (F.faults self.old.fs) (F.faults self.new.fs) result }
        ensures room { TakesRoom true (F.spare self.old.fs) (F.spare self.new.fs) result }
        ensures notes { Remembers at.now result self.old.refused self.new.refused }
    {
        let answer = self.fs.rmdir(at);
        note(&mut self.refused, at, answer)
    }

    fn rename(&mut self, from: &FsPath, to: &FsPath) -> Result<(), FsErr>
        requires { (v : View) → F.view self.old.fs ≡ Some v → one_inode (v.now.at from.now) (v.now.at to.now) ≡ false }
        ensures effect { (v : View) → F.view self.old.fs ≡ Some v → Changed (no_move from.now to.now v.now) v (moved from.now to.now v) result (F.view self.new.fs) }
        ensures named { IfErr result OfPlacing }
        ensures time { Elapses (F.clock self.old.fs) (F.clock self.new.fs) (F.was self.old.fs) (F.was self.new.fs) (F.view self.new.fs) }
        ensures ticks { Ticks (F.clock self.old.fs) (F.clock self.new.fs) result }
        ensures stops { F.clock self.old.fs ≡ last → F.view self.new.fs ≡ F.view self.old.fs }
        ensures cause { HasCause (F.faults self.old.fs) (F.faults self.new.fs) result }
        ensures counts { IsCounted (F.faults self.old.fs) (F.faults self.new.fs) result }
        ensures room { TakesRoom true (F.spare self.old.fs) (F.spare self.new.fs) result }
        ensures notes { Remembers (about from.now to.now result) result self.old.refused self.new.refused }
    {
        let answer = self.fs.rename(from, to);
        note_either(&mut self.refused, from, to, answer)
    }

    fn sync_file(&mut self, at: &FsPath) -> Result<(), FsErr>
        ensures effect { (v : View) → F.view self.old.fs ≡ Some v → Changed (no_file at.now v.now) v (file_synced (inode_of (v.now.at at.now)) v) result (F.view self.new.fs) }
        ensures named { IfErr result OfFinding }
        ensures time { Elapses (F.clock self.old.fs) (F.clock self.new.fs) (F.was self.old.fs) (F.was self.new.fs) (F.view self.new.fs) }
        ensures ticks { Ticks (F.clock self.old.fs) (F.clock self.new.fs) result }
        ensures stops { F.clock self.old.fs ≡ last → F.view self.new.fs ≡ F.view self.old.fs }
        ensures cause { HasCause (F.faults self.old.fs) (F.faults self.new.fs) result }
        ensures counts { IsCounted (F.faults self.old.fs) (F.faults self.new.fs) result }
        ensures room { TakesRoom true (F.spare self.old.fs) (F.spare self.new.fs) result }
        ensures notes { Remembers at.now result self.old.refused self.new.refused }
    {
        let answer = self.fs.sync_file(at);
        note(&mut self.refused, at, answer)
    }

    fn sync_dir(&mut self, at: &FsPath) -> Result<(), FsErr>
        ensures effect { (v : View) → F.view self.old.fs ≡ Some v → Changed (no_folder at.now v.now) v (folder_synced at.now v) result (F.view self.new.fs) }
        ensures named { IfErr result OfFinding }
        ensures time { Elapses (F.clock self.old.fs) (F.clock self.new.fs) (F.was self.old.fs) (F.was self.new.fs) (F.view self.new.fs) }
        ensures ticks { Ticks (F.clock self.old.fs) (F.clock self.new.fs) result }
        ensures stops { F.clock self.old.fs ≡ last → F.view self.new.fs ≡ F.view self.old.fs }
        ensures cause { HasCause (F.faults self.old.fs) (F.faults self.new.fs) result }
        ensures counts { IsCounted (F.faults self.old.fs) (F.faults self.new.fs) result }
        ensures room { TakesRoom true (F.spare self.old.fs) (F.spare self.new.fs) result }
        ensures notes { Remembers at.now result self.old.refused self.new.refused }
    {
        let answer = self.fs.sync_dir(at);
        note(&mut self.refused, at, answer)
    }

    fn sync_all(&mut self) -> Result<(), FsErr>
        ensures effect { (v : View) → F.view self.old.fs ≡ Some v → Changed None v (all_synced v) result (F.view self.new.fs) }
        ensures named { IfErr result OfNone }
        ensures time { Elapses (F.clock self.old.fs) (F.clock self.new.fs) (F.was self.old.fs) (F.was self.new.fs) (F.view self.new.fs) }
        ensures ticks { Ticks (F.clock self.old.fs) (F.clock self.new.fs) result }
        ensures stops { F.clock self.old.fs ≡ last → F.view self.new.fs ≡ F.view self.old.fs }
        ensures cause { HasCause (F.faults self.old.fs) (F.faults self.new.fs) result }
        ensures counts { IsCounted (F.faults self.old.fs) (F.faults self.new.fs) result }
        ensures room { TakesRoom true (F.spare self.old.fs) (F.spare self.new.fs) result }
        ensures notes { self.new.refused ≡ self.old.refused }
    {
        self.fs.sync_all()
    }

    fn reserve(&mut self, calls: u64) -> Result<(), FsErr>
        ensures ok { OnOk result (calls ≤ F.spare self.new.fs) }
        ensures keeps_room { F.spare self.old.fs ≤ F.spare self.new.fs }
        ensures err { IfErr result (λ e. e ≡ NoMemory) }
        ensures faults { F.faults self.new.fs ≡ F.faults self.old.fs }
        ensures quiet { IsQuiet (F.clock self.old.fs) (F.clock self.new.fs) (F.was self.old.fs) (F.was self.new.fs) (F.view self.old.fs) (F.view self.new.fs) }
        ensures notes { self.new.refused ≡ self.old.refused }
    {
        self.fs.reserve(calls)
    }

    fn stat(&mut self, at: &FsPath) -> Result<Option<Node>, FsErr>
        ensures answer { (v : View) → F.view self.old.fs ≡ Some v → Answered None (IsNode v.now (v.now.at at.now)) result }
        ensures named { IfErr result OfNone }
        ensures quiet { IsQuiet (F.clock self.old.fs) (F.clock self.new.fs) (F.was self.old.fs) (F.was self.new.fs) (F.view self.old.fs) (F.view self.new.fs) }
        ensures keeps_room { F.spare self.old.fs ≤ F.spare self.new.fs }
        ensures cause { HasCause (F.faults self.old.fs) (F.faults self.new.fs) result }
        ensures counts { IsCounted (F.faults self.old.fs) (F.faults self.new.fs) result }
        ensures notes { self.new.refused ≡ self.old.refused }
    {
        self.fs.stat(at)
    }

    fn read(&mut self, at: &FsPath) -> Result<Bytes, FsErr>
        ensures answer { (v : View) → F.view self.old.fs ≡ Some v → Answered (no_file at.now v.now) (λ b. b ≡ v.now.bytes (inode_of (v.now.at at.now))) result }
        ensures named { IfErr result OfFinding }
        ensures quiet { IsQuiet (F.clock self.old.fs) (F.clock self.new.fs) (F.was self.old.fs) (F.was self.new.fs) (F.view self.old.fs) (F.view self.new.fs) }
        ensures keeps_room { F.spare self.old.fs ≤ F.spare self.new.fs }
        ensures cause { HasCause (F.faults self.old.fs) (F.faults self.new.fs) result }
        ensures counts { IsCounted (F.faults self.old.fs) (F.faults self.new.fs) result }
        ensures notes { Remembers at.now result self.old.refused self.new.refused }
    {
        let answer = self.fs.read(at);
        note(&mut self.refused, at, answer)
    }

    fn read_part(&mut self, at: &FsPath, from: u64, max: u32) -> Result<Bytes, FsErr>
        requires { 1 ≤ max }
        ensures answer { (v : View) → F.view self.old.fs ≡ Some v → Answered (no_file at.now v.now) (λ b. b ≡ part from max (v.now.bytes (inode_of (v.now.at at.now)))) result }
        ensures named { IfErr result OfFinding }
        ensures quiet { IsQuiet (F.clock self.old.fs) (F.clock self.new.fs) (F.was self.old.fs) (F.was self.new.fs) (F.view self.old.fs) (F.view self.new.fs) }
        ensures keeps_room { F.spare self.old.fs ≤ F.spare self.new.fs }
        ensures cause { HasCause (F.faults self.old.fs) (F.faults self.new.fs) result }
        ensures counts { IsCounted (F.faults self.old.fs) (F.faults self.new.fs) result }
        ensures notes { Remembers at.now result self.old.refused self.new.refused }
    {
        let answer = self.fs.read_part(at, from, max);
        note(&mut self.refused, at, answer)
    }

    fn list(&mut self, at: &FsPath) -> Result<Names, FsErr>
        ensures answer { (v : View) → F.view self.old.fs ≡ Some v → Answered (no_folder at.now v.now) (IsListing v.now at.now) result }
        ensures named { IfErr result OfFinding }
        ensures quiet { IsQuiet (F.clock self.old.fs) (F.clock self.new.fs) (F.was self.old.fs) (F.was self.new.fs) (F.view self.old.fs) (F.view self.new.fs) }
        ensures keeps_room { F.spare self.old.fs ≤ F.spare self.new.fs }
        ensures cause { HasCause (F.faults self.old.fs) (F.faults self.new.fs) result }
        ensures counts { IsCounted (F.faults self.old.fs) (F.faults self.new.fs) result }
        ensures notes { Remembers at.now result self.old.refused self.new.refused }
    {
        let answer = self.fs.list(at);
        note(&mut self.refused, at, answer)
    }

    fn same(&mut self, a: &FsPath, b: &FsPath) -> Result<bool, FsErr>
        ensures answer { (v : View) → F.view self.old.fs ≡ Some v → Answered None (λ x. x ≡ one_inode (v.now.at a.now) (v.now.at b.now)) result }
        ensures named { IfErr result OfNone }
        ensures quiet { IsQuiet (F.clock self.old.fs) (F.clock self.new.fs) (F.was self.old.fs) (F.was self.new.fs) (F.view self.old.fs) (F.view self.new.fs) }
        ensures keeps_room { F.spare self.old.fs ≤ F.spare self.new.fs }
        ensures cause { HasCause (F.faults self.old.fs) (F.faults self.new.fs) result }
        ensures counts { IsCounted (F.faults self.old.fs) (F.faults self.new.fs) result }
        ensures notes { self.new.refused ≡ self.old.refused }
    {
        self.fs.same(a, b)
    }

    fn clock(&self) -> u64 {
        self.fs.clock()
    }

    fn faults(&self) -> u64 {
        self.fs.faults()
    }

    ghost counts_now = { λ s t v le is. F.counts_now s.fs t v le is };

    ghost only_now = { λ s t v le was. F.only_now s.fs t v le was };

    ghost bound = { λ s t v was. F.bound s.fs t v was };

    ghost tree = { λ s v is. F.tree s.fs v is };

    ghost told = { λ s r v is. F.told s.fs r.fs v is };
}
