//! The current folder of the machine: what each call does there. Nothing is counted here.
ghost use Rattle.std.specs.Prelude.{◌≡◌, ◌≢◌, ◌⊎◌, ◌≤◌, ◌<◌, ◌-◌, [], length, min, vec_len, Err, IsTrue, IsFalse, IsErr, IsNone, OnOk, OnErr, IfOk, IfErr};
ghost use Rattle.std.specs.Cmp.Lexicographic.{slice_cmp};
ghost use Rattle.std.specs.List.Sorted.{IsStrictlySortedBy};
ghost use Rattle.std.specs.Ordering.{nat_cmp};
ghost use Rattle.std.specs.BTreeSet.{contains_text};
ghost use Rattle.fs_trait.specs.Effect.{OfPlacing, OfFinding, OfEmptying, OfNone};
ghost use Rattle.fs_trait.specs.declared.types.FsErr.TheVariants as error;
ghost use Rattle.ost_types.specs.Mode.{IsFolderMode, IsFileMode, IsLinkMode};
ghost use Rattle.ost_types.specs.Path.{Name, Path, under};
ghost use Rattle.host_files.specs.Changed.{IsSeenTo, KeepsNotes, NotesFolder};
ghost use Rattle.host_files.specs.HostPath.{host_text};
ghost use Rattle.host_files.specs.Refusal.{answered};
ghost use Rattle.host_files.specs.Reserved.{IsInPlace};
ghost use Rattle.host_files.specs.declared.refusal.Refusal.TheVariants.{Failed};
ghost use Rattle.native_nodes.specs.Attributes.{IsGivable};
ghost use Rattle.fs_native.specs.Young.{IsSettled};

use crate::{Young, start_here, walk};
use fs_trait::{FsErr, Node};
use host_files::{
    Changed, Fault, HostPath, Known, Machine, Mark, NoStart, PLACE, Refusal, Syncer, extend_leaf,
    rename, spell_parent, sync,
};
use native_nodes::{
    Attributes, LINK_MODE, Leaf, Look, Standing, read_content, restore, show_folder, spell_young,
};
use ost_types::{Bytes, FsPath, Meta, Name, Names, NoMemory, Text};
use std::alloc::Global;
use std::fs::OpenFile;
use std::io::ErrorKind;
use std::{fs, io};

/// The current folder, with room for the texts of paths.
pub struct CurrentFolder<R: Machine, S: Syncer> {
    rt: R,
    // The folder itself, whose lock is held while it is open. None where there was no start: each call fails then.
    top: Option<R::File>,
    mark: Mark,
    path: HostPath,
    other: HostPath,
    parent: HostPath,
    known: Known,
    young: Young<R::File>,
    syncer: S,
    changed: Changed,
}

impl<R: Machine, S: Syncer> Drop for CurrentFolder<R, S> {
    fn drop(mut self) {
        self.end();
        let CurrentFolder {
            rt: _,
            top: _,
            mark: _,
            path: _,
            other: _,
            parent: _,
            known: _,
            young: _,
            syncer: _,
            changed: _,
        } = self;
    }
}

impl<R: Machine, S: Syncer> CurrentFolder<R, S> {
    pub fn new(rt: R, syncer: S) -> Result<CurrentFolder<R, S>, NoMemory> {
        match start_here(&rt) {
            Ok((top, mark)) => CurrentFolder::begun(rt, syncer, Some(top), mark),
            Err(NoStart::Failed) => CurrentFolder::shut(rt, syncer),
            Err(NoStart::NoMemory) => Err(NoMemory),
        }
    }

    /// The folder without a start.
    pub fn shut(rt: R, syncer: S) -> Result<CurrentFolder<R, S>, NoMemory> {
        CurrentFolder::begun(rt, syncer, None, Mark::Open)
    }

    fn begun(
        rt: R,
        syncer: S,
        top: Option<R::File>,
        mark: Mark,
    ) -> Result<CurrentFolder<R, S>, NoMemory> {
        let alloc = rt.alloc();
        Ok(CurrentFolder {
            rt,
            top,
            mark,
            path: HostPath::new(alloc)?,
            other: HostPath::new(alloc)?,
            parent: HostPath::new(alloc)?,
            known: Known::new(alloc),
            young: Young::new(alloc)?,
            syncer,
            changed: Changed::new(alloc),
        })
    }

    pub fn mkdir(&mut self, at: &FsPath, meta: &Meta) -> Result<(), FsErr>
        requires { IsFolderMode meta.now.mode }
        ensures reserved { IsInPlace at.now → result ≡ Err error.Failed }
        ensures givable { OnOk result (IsGivable meta.now) }
        ensures named { IfErr result OfPlacing }
        ensures notes { NotesFolder at.now result self.new.changed }
        ensures keeps { KeepsNotes self.old.changed self.new.changed }
    {
        self.walk_to_nothing(at)?;
        let attributes = to_give(meta)?;
        self.keep_parent(at)?;
        Ok(show_folder(&self.rt, self.path.as_str(), attributes)?)
    }

    pub fn create(&mut self, at: &FsPath, meta: &Meta) -> Result<(), FsErr>
        requires { IsFileMode meta.now.mode }
        ensures reserved { IsInPlace at.now → result ≡ Err error.Failed }
        ensures givable { OnOk result (IsGivable meta.now) }
        ensures named { IfErr result OfPlacing }
        ensures notes { NotesFolder at.now result self.new.changed }
        ensures keeps { KeepsNotes self.old.changed self.new.changed }
    {
        self.walk_to_nothing(at)?;
        let attributes = to_give(meta)?;
        self.keep_parent(at)?;
        self.make_room()?;
        Ok(
            self.young
                .add_file(&self.rt, self.path.as_str(), attributes)?,
        )
    }

    pub fn append(&mut self, at: &FsPath, bytes: &[u8]) -> Result<(), Refusal>
        ensures reserved { IsInPlace at.now → result ≡ Err Failed }
        ensures named { IfErr (answered result) OfFinding }
        ensures keeps { KeepsNotes self.old.changed self.new.changed }
    {
        match self.walk(at)? {
            Standing::Young(number) if self.young.is_file(number) => {
                self.young.append(&self.rt, number, bytes)?;
                self.settle_if_heavy()?;
                Ok(())
            }
            Standing::Leaf(leaf) if !leaf.is_link => {
                self.begin()?;
                self.extend(leaf.attributes, bytes)?;
                Ok(())
            }
            _ => Err(Refusal::Missing),
        }
    }

    pub fn symlink(&mut self, at: &FsPath, target: &Text, meta: &Meta) -> Result<(), FsErr>
        requires mode { IsLinkMode meta.now.mode }
        requires target { target.now ≢ [] }
        ensures reserved { IsInPlace at.now → result ≡ Err error.Failed }
        ensures givable { OnOk result (IsGivable meta.now) }
        ensures permissions { OnOk result (meta.now.mode ≡ 41471) }
        ensures named { IfErr result OfPlacing }
        ensures notes { NotesFolder at.now result self.new.changed }
        ensures keeps { KeepsNotes self.old.changed self.new.changed }
    {
        self.walk_to_nothing(at)?;
        let attributes = to_give(meta)?;
        if attributes.mode != LINK_MODE {
            return Err(FsErr::Failed);
        }
        self.keep_parent(at)?;
        self.make_room()?;
        Ok(
            self.young
                .add_link(&self.rt, self.path.as_str(), target.as_str(), attributes)?,
        )
    }

    pub fn link(&mut self, from: &FsPath, to: &FsPath) -> Result<(), Refusal>
        ensures reserved { IsInPlace from.now → result ≡ Err Failed }
        ensures reserved_target { IsInPlace to.now → IsErr result }
        ensures named { IfErr (answered result) OfPlacing }
        ensures notes { NotesFolder to.now result self.new.changed }
        ensures keeps { KeepsNotes self.old.changed self.new.changed }
    {
        let number = match self.walk(from)? {
            Standing::Young(number) => Some(number),
            Standing::Leaf(_) => None,
            _ => return Err(Refusal::Missing),
        };
        let Standing::Absent = self.walk_other(to)? else {
            return Err(Refusal::Exists);
        };
        if let Some(number) = number {
            if self.link_young(number, to) {
                return Ok(());
            }
            self.settle()?;
        }
        self.begin()?;
        let linked = fs::hard_link(&self.rt, self.path.as_str(), self.other.as_str());
        self.note_parent(to);
        linked?;
        Ok(())
    }

    pub fn unlink(&mut self, at: &FsPath) -> Result<(), Refusal>
        ensures reserved { IsInPlace at.now → result ≡ Err Failed }
        ensures named { IfErr (answered result) OfFinding }
        ensures notes { NotesFolder at.now result self.new.changed }
        ensures keeps { KeepsNotes self.old.changed self.new.changed }
    {
        match self.walk(at)? {
            Standing::Young(_) => self.young.take(&self.rt, self.path.as_str())?,
            Standing::Leaf(_) => {
                self.begin()?;
                fs::remove_file(&self.rt, self.path.as_str())?;
            }
            _ => return Err(Refusal::Missing),
        }
        self.note_parent(at);
        Ok(())
    }

    pub fn rmdir(&mut self, at: &FsPath) -> Result<(), Refusal>
        ensures reserved { IsInPlace at.now → result ≡ Err Failed }
        ensures root { at.now ≡ [] → IsErr result }
        ensures named { IfErr (answered result) OfEmptying }
        ensures notes { NotesFolder at.now result self.new.changed }
    {
        self.walk_to_folder(at)?;
        if at.names().is_empty() {
            return Err(Refusal::NotEmpty);
        }
        self.settle()?;
        self.begin()?;
        self.known.forget(self.path.as_str());
        self.remove_folder()?;
        self.changed.forget(self.path.as_str());
        self.note_parent(at);
        Ok(())
    }

    pub fn rename(&mut self, from: &FsPath, to: &FsPath) -> Result<(), Refusal>
        ensures reserved { IsInPlace from.now → result ≡ Err Failed }
        ensures reserved_target { IsInPlace to.now → IsErr result }
        ensures named { IfErr (answered result) OfPlacing }
        ensures notes { NotesFolder from.now result self.new.changed }
        ensures notes_target { NotesFolder to.now result self.new.changed }
        ensures keeps { KeepsNotes self.old.changed self.new.changed }
    {
        match self.walk(from)? {
            Standing::Young(_) | Standing::Leaf(_) => {}
            _ => return Err(Refusal::Missing),
        }
        if let Standing::Folder = self.walk_other(to)? {
            return Err(Refusal::Exists);
        }
        self.settle()?;
        self.begin()?;
        rename(&self.rt, self.path.as_str(), self.other.as_str())?;
        self.note_parent(from);
        self.note_parent(to);
        Ok(())
    }

    pub fn sync_file(&mut self, at: &FsPath) -> Result<(), Refusal>
        ensures reserved { IsInPlace at.now → result ≡ Err Failed }
        ensures named { IfErr (answered result) OfFinding }
        ensures lost { IsTrue self.old.changed.is_lost → IsErr result }
    {
        let standing = self.walk(at)?;
        let is_young = match standing {
            Standing::Young(number) => self.young.is_file(number),
            _ => false,
        };
        if !is_young && !is_file(standing) {
            return Err(Refusal::Missing);
        }
        if self.changed.is_lost() {
            return Err(Refusal::Failed);
        }
        if !is_young {
            self.sync_path()?;
        }
        Ok(())
    }

    pub fn sync_dir(&mut self, at: &FsPath) -> Result<(), Refusal>
        ensures reserved { IsInPlace at.now → result ≡ Err Failed }
        ensures named { IfErr (answered result) OfFinding }
        ensures ok { OnOk result (IsFalse (contains_text self.new.changed.texts (host_text at.now))) }
        ensures settled { OnOk result (IsSettled self.new.young) }
        ensures lost { IsTrue self.old.changed.is_lost → IsErr result }
    {
        self.walk_to_folder(at)?;
        self.settle()?;
        self.changed.sync_one(&self.rt, self.path.as_str())?;
        Ok(())
    }

    pub fn sync_all(&mut self) -> Result<(), Fault>
        ensures ok { OnOk result (self.new.changed.texts.keys ≡ []) }
        ensures lost { IsTrue self.old.changed.is_lost → IsErr result }
        ensures settled { OnOk result (IsSettled self.new.young) }
        ensures err { OnErr result (IsTrue self.new.changed.is_lost ⊎ IsNone self.old.top) }
    {
        if self.top.is_none() {
            return Err(Fault);
        }
        self.settle()?;
        self.changed.sync_all(&self.rt)
    }

    pub fn stat(&mut self, at: &FsPath) -> Result<Option<Node>, FsErr>
        ensures reserved { IsInPlace at.now → result ≡ Err error.Failed }
        ensures named { IfErr result OfNone }
    {
        match self.locate(at) {
            Ok(Standing::Folder) => Ok(Some(self.folder_node()?)),
            Ok(Standing::Leaf(leaf)) => Ok(Some(self.leaf_node(leaf)?)),
            Ok(_) | Err(Refusal::Missing | Refusal::NotFolder) => Ok(None),
            Err(_) => Err(FsErr::Failed),
        }
    }

    pub fn read(&mut self, at: &FsPath) -> Result<Bytes, FsErr>
        ensures reserved { IsInPlace at.now → result ≡ Err error.Failed }
        ensures named { IfErr result OfFinding }
    {
        let leaf = self.find_file(at)?;
        self.content(leaf, 0, leaf.len)
    }

    pub fn read_part(&mut self, at: &FsPath, from: u64, max: u32) -> Result<Bytes, FsErr>
        ensures reserved { IsInPlace at.now → result ≡ Err error.Failed }
        ensures most { IfOk result (λ b. length b ≤ max) }
        ensures named { IfErr result OfFinding }
    {
        let leaf = self.find_file(at)?;
        self.content(leaf, from, u64::from(max))
    }

    pub fn list(&mut self, at: &FsPath) -> Result<Names, FsErr>
        ensures reserved { IsInPlace at.now → result ≡ Err error.Failed }
        ensures ascending { IfOk result (IsStrictlySortedBy (slice_cmp nat_cmp)) }
        ensures named { IfErr result OfFinding }
    {
        self.walk_to_folder(at)?;
        self.settle()?;
        names_in(&self.rt, self.path.as_str(), at.names().is_empty())
    }

    pub fn same(&mut self, a: &FsPath, b: &FsPath) -> Result<bool, FsErr>
        ensures reserved { IsInPlace a.now → result ≡ Err error.Failed }
        ensures reserved_other { IsInPlace b.now → IsErr result }
        ensures named { IfErr result OfNone }
    {
        let one = self.leaf_at(a)?;
        let two = self.leaf_at(b)?;
        match (one, two) {
            (Some(one), Some(two)) => Ok(one.is_one_file(two)),
            _ => Ok(false),
        }
    }

    // What stands at a path, whose text is spelled.
    fn walk(&mut self, at: &FsPath) -> Result<Standing, Refusal>
        ensures reserved { IsInPlace at.now → result ≡ Err Failed }
        ensures spelled { OnOk result (self.new.path ≡ host_text at.now) }
        ensures short { OnOk result (length self.new.path ≤ 2049) }
        ensures changed { self.new.changed ≡ self.old.changed }
        ensures placing { IfErr (answered result) OfPlacing }
        ensures finding { IfErr (answered result) OfFinding }
        ensures emptying { IfErr (answered result) OfEmptying }
    {
        if self.top.is_none() {
            return Err(Refusal::Failed);
        }
        walk(&self.rt, &mut self.known, &self.young, at, &mut self.path)
    }

    // What stands at a path, whose text is spelled as the other.
    fn walk_other(&mut self, at: &FsPath) -> Result<Standing, Refusal>
        ensures reserved { IsInPlace at.now → result ≡ Err Failed }
        ensures path { self.new.path ≡ self.old.path }
        ensures changed { self.new.changed ≡ self.old.changed }
        ensures placing { IfErr (answered result) OfPlacing }
    {
        if self.top.is_none() {
            return Err(Refusal::Failed);
        }
        walk(&self.rt, &mut self.known, &self.young, at, &mut self.other)
    }

    fn walk_to_nothing(&mut self, at: &FsPath) -> Result<(), Refusal>
        ensures reserved { IsInPlace at.now → result ≡ Err Failed }
        ensures named { IfErr (answered result) OfPlacing }
        ensures changed { self.new.changed ≡ self.old.changed }
    {
        match self.walk(at)? {
            Standing::Absent => Ok(()),
            _ => Err(Refusal::Exists),
        }
    }

    fn walk_to_folder(&mut self, at: &FsPath) -> Result<(), Refusal>
        ensures reserved { IsInPlace at.now → result ≡ Err Failed }
        ensures finding { IfErr (answered result) OfFinding }
        ensures emptying { IfErr (answered result) OfEmptying }
        ensures spelled { OnOk result (self.new.path ≡ host_text at.now) }
        ensures changed { self.new.changed ≡ self.old.changed }
    {
        self.walk(at)?.as_folder()
    }

    // What stands at a path. A young leaf is found as it is to be, and the text is then that of the reserved place where it lies.
    fn locate(&mut self, at: &FsPath) -> Result<Standing, Refusal>
        ensures reserved { IsInPlace at.now → result ≡ Err Failed }
        ensures finding { IfErr (answered result) OfFinding }
        ensures changed { self.new.changed ≡ self.old.changed }
    {
        match self.walk(at)? {
            Standing::Young(number) => Ok(Standing::Leaf(self.young_leaf(number)?)),
            standing => Ok(standing),
        }
    }

    fn young_leaf(&mut self, number: u32) -> Result<Leaf, Fault>
        ensures changed { self.new.changed ≡ self.old.changed }
    {
        let Some(attributes) = self.young.attributes(number) else {
            return Err(Fault);
        };
        spell_young(number, &mut self.path);
        match Look::at(&self.rt, self.path.as_str())? {
            Look::Leaf(leaf) => Ok(Leaf { attributes, ..leaf }),
            _ => Err(Fault),
        }
    }

    // The regular file at a path, whose text is spelled.
    fn find_file(&mut self, at: &FsPath) -> Result<Leaf, Refusal>
        ensures reserved { IsInPlace at.now → result ≡ Err Failed }
        ensures named { IfErr (answered result) OfFinding }
        ensures changed { self.new.changed ≡ self.old.changed }
    {
        match self.locate(at)? {
            Standing::Leaf(leaf) if !leaf.is_link => Ok(leaf),
            _ => Err(Refusal::Missing),
        }
    }

    // The leaf at a path, if one is there.
    fn leaf_at(&mut self, at: &FsPath) -> Result<Option<Leaf>, Fault>
        ensures reserved { IsInPlace at.now → IsErr result }
        ensures changed { self.new.changed ≡ self.old.changed }
    {
        match self.locate(at) {
            Ok(Standing::Leaf(leaf)) => Ok(Some(leaf)),
            Ok(_) | Err(Refusal::Missing | Refusal::NotFolder) => Ok(None),
            Err(_) => Err(Fault),
        }
    }

    // The part of a file, whose text is spelled, from one place on.
    fn content(&self, leaf: Leaf, from: u64, max: u64) -> Result<Bytes, FsErr>
        ensures length { IfOk result (λ b. length b ≡ min max (leaf.len - from)) }
        ensures named { IfErr result OfNone }
    {
        let text = self.path.as_str();
        read_content(&self.rt, self.rt.alloc(), text, leaf.len, from, max)
    }

    // What `stat` tells of the folder whose text is spelled.
    fn folder_node(&self) -> Result<Node, FsErr>
        ensures { IfErr result OfNone }
    {
        match Look::at(&self.rt, self.path.as_str())? {
            Look::Folder(attributes) => Ok(Node::Folder(attributes.into_meta(self.rt.alloc()))),
            _ => Err(FsErr::Failed),
        }
    }

    // What `stat` tells of a leaf, whose text is spelled.
    fn leaf_node(&self, leaf: Leaf) -> Result<Node, FsErr>
        ensures { IfErr result OfNone }
    {
        let meta = leaf.attributes.into_meta(self.rt.alloc());
        if leaf.is_link {
            let target = target_at(&self.rt, self.path.as_str())?;
            Ok(Node::Link { meta, target })
        } else {
            Ok(Node::File {
                meta,
                len: leaf.len,
            })
        }
    }

    // Before a change of the machine: the mark is taken away.
    fn begin(&mut self) -> Result<(), Fault>
        ensures path { self.new.path ≡ self.old.path }
        ensures changed { self.new.changed ≡ self.old.changed }
    {
        self.mark.open(&self.rt)
    }

    // Gives a young leaf the path whose text is spelled as the other. False where there is no memory for it.
    fn link_young(&mut self, number: u32, to: &FsPath) -> bool
        ensures ok { (p : Path) (x : Name) → to.now ≡ under p x → IsTrue result → IsSeenTo (host_text p) self.new.changed }
        ensures path { self.new.path ≡ self.old.path }
        ensures keeps { KeepsNotes self.old.changed self.new.changed }
    {
        spell_parent(to, &mut self.parent);
        self.changed.keep(self.parent.as_str()).is_ok()
            && self.young.link(number, self.other.as_str()).is_ok()
    }

    // Sees to it that a leaf can be added to the young ones.
    fn make_room(&mut self) -> Result<(), Fault>
        ensures room { OnOk result (vec_len self.new.young.leaves < 1024) }
        ensures path { self.new.path ≡ self.old.path }
        ensures same { OnOk result (self.new.changed ≡ self.old.changed) }
        ensures keeps { KeepsNotes self.old.changed self.new.changed }
    {
        if self.young.is_full() {
            self.settle()?;
        }
        Ok(())
    }

    fn settle_if_heavy(&mut self) -> Result<(), Fault>
        ensures same { OnOk result (self.new.changed ≡ self.old.changed) }
        ensures keeps { KeepsNotes self.old.changed self.new.changed }
    {
        if self.young.is_heavy() {
            self.settle()?;
        }
        Ok(())
    }

    // Syncs the young leaves and gives them their names. After a sync that failed none is given any more.
    fn settle(&mut self) -> Result<(), Fault>
        ensures ok { OnOk result (IsSettled self.new.young) }
        ensures err { OnErr result (IsTrue self.new.changed.is_lost) }
        ensures lost { IsTrue self.old.changed.is_lost → IsErr result }
        ensures path { self.new.path ≡ self.old.path }
        ensures same { OnOk result (self.new.changed ≡ self.old.changed) }
        ensures keeps { KeepsNotes self.old.changed self.new.changed }
    {
        if self.changed.is_lost() {
            return Err(Fault);
        }
        let settled = self.young.settle(&self.rt, &self.syncer);
        if settled.is_err() {
            self.changed.lose();
        }
        settled
    }

    // Adds bytes to the file whose text is spelled, and waits for them.
    fn extend(&mut self, attributes: Attributes, bytes: &[u8]) -> Result<(), Fault>
        ensures keeps { KeepsNotes self.old.changed self.new.changed }
    {
        let file = extend_leaf(&self.rt, self.path.as_str(), bytes)?;
        let restored = restore(&file, attributes);
        if file.sync_all().is_err() {
            self.changed.lose();
            return Err(Fault);
        }
        restored
    }

    fn sync_path(&mut self) -> Result<(), Fault>
        ensures keeps { KeepsNotes self.old.changed self.new.changed }
    {
        let synced = sync(&self.rt, self.path.as_str());
        if synced.is_err() {
            self.changed.lose();
        }
        synced
    }

    // Removes the folder whose text is spelled.
    fn remove_folder(&self) -> Result<(), Refusal>
        ensures { IfErr (answered result) OfEmptying }
    {
        match fs::remove_dir(&self.rt, self.path.as_str()) {
            Ok(()) => Ok(()),
            Err(e) if e.kind() == ErrorKind::DirectoryNotEmpty => Err(Refusal::NotEmpty),
            Err(_) => Err(Refusal::Failed),
        }
    }

    // Begins a change of the names in the folder that the last name of a path stands in.
    fn keep_parent(&mut self, at: &FsPath) -> Result<(), FsErr>
        ensures notes { NotesFolder at.now result self.new.changed }
        ensures path { self.new.path ≡ self.old.path }
        ensures named { IfErr result OfNone }
        ensures keeps { KeepsNotes self.old.changed self.new.changed }
    {
        self.begin()?;
        spell_parent(at, &mut self.parent);
        self.changed.keep(self.parent.as_str())?;
        Ok(())
    }

    // Notes that names changed in the folder that the last name of a path stands in.
    fn note_parent(&mut self, at: &FsPath)
        ensures notes { (p : Path) (x : Name) → at.now ≡ under p x → IsSeenTo (host_text p) self.new.changed }
        ensures path { self.new.path ≡ self.old.path }
        ensures keeps { KeepsNotes self.old.changed self.new.changed }
    {
        spell_parent(at, &mut self.parent);
        self.changed.note(&self.rt, self.parent.as_str());
    }

    // Leaves nothing young or unsynced, and the mark that says so.
    fn end(&mut self) {
        if self.sync_all().is_ok() {
            let _ = self.mark.close(&self.rt);
        }
    }
}

// What the machine is given for these attributes.
fn to_give(meta: &Meta) -> Result<Attributes, FsErr>
    ensures givable { OnOk result (IsGivable meta.now) }
    ensures mode { IfOk result (λ a. a.mode ≡ meta.now.mode) }
    ensures named { IfErr result OfNone }
{
    match Attributes::to_give(meta) {
        Some(attributes) => Ok(attributes),
        None => Err(FsErr::Failed),
    }
}

fn is_file(standing: Standing) -> bool {
    match standing {
        Standing::Leaf(leaf) => !leaf.is_link,
        _ => false,
    }
}

// Where the link at a text leads.
fn target_at<R: Machine>(rt: &R, text: &str) -> Result<Text, FsErr>
    ensures { IfErr result OfNone }
{
    let target = match fs::read_link(rt, text) {
        Ok(target) => target.into_string(),
        Err(e) => return Err(read_error(&e)),
    };
    match Text::parse(rt.alloc(), target.as_bytes())? {
        Some(target) => Ok(target),
        None => Err(FsErr::Failed),
    }
}

fn read_error(error: &io::Error) -> FsErr
    ensures { OfNone result }
{
    match error.kind() {
        ErrorKind::OutOfMemory => FsErr::NoMemory,
        _ => FsErr::Failed,
    }
}

// The names of a folder, each once, ascending by their bytes. At the top the reserved place stands for no node.
fn names_in<R: Machine>(rt: &R, text: &str, is_top: bool) -> Result<Names, FsErr>
    ensures ascending { IfOk result (IsStrictlySortedBy (slice_cmp nat_cmp)) }
    ensures named { IfErr result OfFinding }
{
    let alloc = rt.alloc();
    let mut names = Vec::new(alloc);
    for entry in fs::read_dir(rt, text).map_err(Fault::from)? {
        let entry = entry.map_err(Fault::from)?;
        if is_top && entry.file_name() == PLACE {
            continue;
        }
        let Some(name) = Name::parse(alloc, entry.file_name().as_bytes())? else {
            return Err(FsErr::Failed);
        };
        names.push(name)?;
    }
    Ok(ascending(names))
}

fn ascending(names: Vec<Name>) -> Names
    ensures { IsStrictlySortedBy (slice_cmp nat_cmp) result }
{
    let mut names = names;
    names.sort_unstable();
    names.dedup();
    Names::from_vec(names)
}
