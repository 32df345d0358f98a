//! `cat` goes down the path, and reads the file that stands there.
ghost use Rattle.std.specs.Prelude.{◌≡◌, ◌<◌, ◌≤◌, ℕ, length, Some, None, IfOk, IfErr, OnErr};
ghost use Rattle.fs_trait.specs.View.{View};
ghost use Rattle.fs_trait.specs.Effect.{HasCause, IsQuiet, OfNone};
ghost use Rattle.repo_model.specs.Objects.{Stores};
ghost use Rattle.read_command.specs.declared.answer.ReadAnswer.TheVariants as answer;
ghost use Rattle.read_command.specs.declared.cat.Place.TheVariants as place;
ghost use Rattle.read_command.specs.CatSteps.{CatKnows, CatTells, Enters, IsCatStepped, TellsBody, cat_left};

use crate::ReadAnswer;
use crate::answer::lacking_of;
use crate::body::look_at_body;
use crate::entry::{Entry, entry_of};
use fs_trait::{Fs, FsErr};
use ost_forms::{Body, DirTree};
use ost_types::{Csum, FsPath, Kind, Limits, NoMemory, TryCopy};
use std::alloc::Global;
use tree_read::{Looked, look_at_attributes, look_at_commit, look_at_entries};

/// How far it has come.
#[derive(Clone, Copy, Debug)]
pub enum Place {
    /// The commit is to be read.
    Commit,
    /// The folder at as many names of the path is.
    Folder {
        tree: Csum,
        meta: Csum,
        depth: usize,
    },
    /// The file at the path is.
    File(Csum),
}

#[derive(Drop, Debug)]
pub struct Cat {
    alloc: Global,
    limits: Limits,
    commit: Csum,
    path: FsPath,
    place: Place,
}

impl Cat {
    pub(crate) fn new(alloc: Global, limits: Limits, commit: Csum, path: FsPath) -> Cat
        ensures { result ≡ record { alloc = alloc; limits = limits; commit = commit; path = path; place = place.Commit } }
    {
        Cat {
            alloc,
            limits,
            commit,
            path,
            place: Place::Commit,
        }
    }

    /// At most so many steps go on.
    pub(crate) fn left(&self) -> u128
        ensures { result ≡ cat_left self.now.place (length self.now.path) }
    {
        let names = self.path.names().len() as u128;
        match self.place {
            Place::Commit => names + 3,
            Place::Folder { depth, .. } => names.saturating_sub(depth as u128) + 2,
            Place::File(_) => 1,
        }
    }

    /// Reads the next object. None where it goes on.
    pub(crate) fn step<F: Fs>(&mut self, fs: &mut F) -> Result<Option<ReadAnswer>, FsErr>
        ensures told { (v : View) → F.view fs.old ≡ Some v → CatKnows (Stores v.now) self.old → IfOk result (CatTells v.now self.old self.new) }
        ensures stepped { IfOk result (IsCatStepped self.old self.new) }
        ensures stays { OnErr result (self.new ≡ self.old) }
        ensures named { (v : View) → F.view fs.old ≡ Some v → IfErr result OfNone }
        ensures quiet { IsQuiet (F.clock fs.old) (F.clock fs.new) (F.was fs.old) (F.was fs.new) (F.view fs.old) (F.view fs.new) }
        ensures keeps_room { F.spare fs.old ≤ F.spare fs.new }
        ensures cause { HasCause (F.faults fs.old) (F.faults fs.new) result }
    {
        let place = self.place;
        match place {
            Place::Commit => self.read_commit(fs),
            Place::Folder { tree, meta, depth } => self.read_folder(fs, tree, meta, depth),
            Place::File(file) => self.read_file(fs, file),
        }
    }

    fn read_commit<F: Fs>(&mut self, fs: &mut F) -> Result<Option<ReadAnswer>, FsErr>
        requires { self.old.place ≡ place.Commit }
        ensures told { (v : View) → F.view fs.old ≡ Some v → CatKnows (Stores v.now) self.old → IfOk result (CatTells v.now self.old self.new) }
        ensures stepped { IfOk result (IsCatStepped self.old self.new) }
        ensures stays { OnErr result (self.new ≡ self.old) }
        ensures named { (v : View) → F.view fs.old ≡ Some v → IfErr result OfNone }
        ensures quiet { IsQuiet (F.clock fs.old) (F.clock fs.new) (F.was fs.old) (F.was fs.new) (F.view fs.old) (F.view fs.new) }
        ensures keeps_room { F.spare fs.old ≤ F.spare fs.new }
        ensures cause { HasCause (F.faults fs.old) (F.faults fs.new) result }
    {
        match look_at_commit(self.alloc, fs, &self.commit, &self.limits)? {
            Looked::Here(commit) => {
                self.place = Place::Folder {
                    tree: commit.tree,
                    meta: commit.meta,
                    depth: 0,
                };
                Ok(None)
            }
            Looked::Absent => Ok(lacking_of(self.alloc, self.commit, Kind::Commit)?),
            Looked::Damaged => Ok(lacking_of(self.alloc, self.commit, Kind::Commit)?),
        }
    }

    fn read_folder<F: Fs>(
        &mut self,
        fs: &mut F,
        tree: Csum,
        meta: Csum,
        depth: usize,
    ) -> Result<Option<ReadAnswer>, FsErr>
        requires { self.old.place ≡ place.Folder tree meta depth }
        ensures told { (v : View) → F.view fs.old ≡ Some v → CatKnows (Stores v.now) self.old → IfOk result (CatTells v.now self.old self.new) }
        ensures stepped { IfOk result (IsCatStepped self.old self.new) }
        ensures stays { OnErr result (self.new ≡ self.old) }
        ensures named { (v : View) → F.view fs.old ≡ Some v → IfErr result OfNone }
        ensures quiet { IsQuiet (F.clock fs.old) (F.clock fs.new) (F.was fs.old) (F.was fs.new) (F.view fs.old) (F.view fs.new) }
        ensures keeps_room { F.spare fs.old ≤ F.spare fs.new }
        ensures cause { HasCause (F.faults fs.old) (F.faults fs.new) result }
    {
        if depth < self.path.names().len() {
            self.read_entries(fs, tree, meta, depth)
        } else {
            self.read_attributes(fs, tree, meta, depth)
        }
    }

    fn read_entries<F: Fs>(
        &mut self,
        fs: &mut F,
        tree: Csum,
        _meta: Csum,
        depth: usize,
    ) -> Result<Option<ReadAnswer>, FsErr>
        requires place { self.old.place ≡ place.Folder tree _meta depth }
        requires deep { depth < length self.old.path }
        ensures told { (v : View) → F.view fs.old ≡ Some v → CatKnows (Stores v.now) self.old → IfOk result (CatTells v.now self.old self.new) }
        ensures stepped { IfOk result (IsCatStepped self.old self.new) }
        ensures stays { OnErr result (self.new ≡ self.old) }
        ensures named { (v : View) → F.view fs.old ≡ Some v → IfErr result OfNone }
        ensures quiet { IsQuiet (F.clock fs.old) (F.clock fs.new) (F.was fs.old) (F.was fs.new) (F.view fs.old) (F.view fs.new) }
        ensures keeps_room { F.spare fs.old ≤ F.spare fs.new }
        ensures cause { HasCause (F.faults fs.old) (F.faults fs.new) result }
    {
        match look_at_entries(self.alloc, fs, &tree, &self.limits)? {
            Looked::Here(entries) => Ok(self.enter(&entries, depth)?),
            Looked::Absent => Ok(lacking_of(self.alloc, tree, Kind::DirTree)?),
            Looked::Damaged => Ok(lacking_of(self.alloc, tree, Kind::DirTree)?),
        }
    }

    /// Goes on by the next name of the path.
    fn enter(&mut self, entries: &DirTree, depth: usize) -> Result<Option<ReadAnswer>, NoMemory>
        requires { depth < length self.old.path }
        ensures enters { IfOk result (Enters (record { files = entries.now.files; folders = entries.now.folders }) depth self.old self.new) }
        ensures stays { OnErr result (self.new ≡ self.old) }
    {
        let names = self.path.names();
        let is_last = depth + 1 == names.len();
        let entry = entry_of(entries, &names[depth]);
        match entry {
            Entry::Folder { tree, meta } => {
                self.place = Place::Folder {
                    tree,
                    meta,
                    depth: depth + 1,
                };
                Ok(None)
            }
            Entry::File(file) if is_last => {
                self.place = Place::File(file);
                Ok(None)
            }
            Entry::File(_) => self.nowhere(),
            Entry::Nothing => self.nowhere(),
        }
    }

    fn nowhere(&self) -> Result<Option<ReadAnswer>, NoMemory>
        ensures { IfOk result (λ a. a ≡ Some (answer.NoPath self.now.path)) }
    {
        Ok(Some(ReadAnswer::NoPath(self.path.copy()?)))
    }

    fn read_attributes<F: Fs>(
        &mut self,
        fs: &mut F,
        _tree: Csum,
        meta: Csum,
        _depth: usize,
    ) -> Result<Option<ReadAnswer>, FsErr>
        requires place { self.old.place ≡ place.Folder _tree meta _depth }
        requires deep { length self.old.path ≤ _depth }
        ensures told { (v : View) → F.view fs.old ≡ Some v → CatKnows (Stores v.now) self.old → IfOk result (CatTells v.now self.old self.new) }
        ensures stepped { IfOk result (IsCatStepped self.old self.new) }
        ensures stays { OnErr result (self.new ≡ self.old) }
        ensures named { (v : View) → F.view fs.old ≡ Some v → IfErr result OfNone }
        ensures quiet { IsQuiet (F.clock fs.old) (F.clock fs.new) (F.was fs.old) (F.was fs.new) (F.view fs.old) (F.view fs.new) }
        ensures keeps_room { F.spare fs.old ≤ F.spare fs.new }
        ensures cause { HasCause (F.faults fs.old) (F.faults fs.new) result }
    {
        match look_at_attributes(self.alloc, fs, &meta, &self.limits)? {
            Looked::Here(meta) => {
                drop(meta);
                Ok(Some(self.no_file()?))
            }
            Looked::Absent => Ok(lacking_of(self.alloc, meta, Kind::DirMeta)?),
            Looked::Damaged => Ok(lacking_of(self.alloc, meta, Kind::DirMeta)?),
        }
    }

    fn read_file<F: Fs>(&mut self, fs: &mut F, file: Csum) -> Result<Option<ReadAnswer>, FsErr>
        requires { self.old.place ≡ place.File file }
        ensures told { (v : View) → F.view fs.old ≡ Some v → CatKnows (Stores v.now) self.old → IfOk result (CatTells v.now self.old self.new) }
        ensures stepped { IfOk result (IsCatStepped self.old self.new) }
        ensures stays { OnErr result (self.new ≡ self.old) }
        ensures named { (v : View) → F.view fs.old ≡ Some v → IfErr result OfNone }
        ensures quiet { IsQuiet (F.clock fs.old) (F.clock fs.new) (F.was fs.old) (F.was fs.new) (F.view fs.old) (F.view fs.new) }
        ensures keeps_room { F.spare fs.old ≤ F.spare fs.new }
        ensures cause { HasCause (F.faults fs.old) (F.faults fs.new) result }
    {
        match look_at_body(self.alloc, fs, &file, &self.limits)? {
            Looked::Here(body) => Ok(Some(self.told_of(body)?)),
            Looked::Absent => Ok(lacking_of(self.alloc, file, Kind::File)?),
            Looked::Damaged => Ok(lacking_of(self.alloc, file, Kind::File)?),
        }
    }

    /// What is told of a leaf.
    fn told_of(&self, body: Body) -> Result<ReadAnswer, NoMemory>
        ensures { IfOk result (TellsBody self.now.path body) }
    {
        match body {
            Body::Regular(bytes) => Ok(ReadAnswer::Content(bytes)),
            Body::Symlink(_) => self.no_file(),
        }
    }

    fn no_file(&self) -> Result<ReadAnswer, NoMemory>
        ensures { IfOk result (λ a. a ≡ answer.NotFile self.now.path) }
    {
        Ok(ReadAnswer::NotFile(self.path.copy()?))
    }
}
