//! The current folder of the machine: what each call does there. Nothing is counted here.
ghost use Rattle.std.specs.Prelude.{◌≡◌, ◌≢◌, ◌⊎◌, ◌≤◌, ◌<◌, [], length, vec_len, Err, IsTrue, IsFalse, IsErr, IsNone, OnOk, OnErr, IfOk, IfErr};
ghost use Rattle.std.specs.Cmp.Lexicographic.{slice_cmp};
ghost use Rattle.std.specs.List.Sorted.{IsStrictlySortedBy};
ghost use Rattle.std.specs.Ordering.{nat_cmp};
ghost use Rattle.fs_trait.specs.Effect.{OfPlacing, OfFinding, OfEmptying, OfNone};
ghost use Rattle.host_files.specs.Refusal.{answered};
ghost use Rattle.host_files.specs.Reserved.{HasReserved};
ghost use Rattle.host_files.specs.declared.refusal.Refusal.TheVariants.{Failed};
ghost use Rattle.fs_trait.specs.declared.types.FsErr.TheVariants as error;
ghost use Rattle.ost_types.specs.Mode.{IsFolderMode, IsFileMode, IsLinkMode};
ghost use Rattle.ost_types.specs.Path.{Name, Path, under};
ghost use Rattle.host_files.specs.HostPath.{host_text};
ghost use Rattle.host_files.specs.Changed.{IsNoted, IsSeenTo, KeepsNotes, NotesFolder};
ghost use Rattle.host_files.specs.Young.{IsSettled};
ghost use Rattle.std.specs.BTreeSet.{contains_text};

use fs_trait::{FsErr, Node};
use host_files::{
    ATTRIBUTES, Changed, Fault, FileHeader, HostKind, HostPath, Known, Leaf, Machine, Mark,
    NoStart, Opened, PLACE, Recent, Refusal, Standing, Syncer, Young, attributes_bytes,
    extend_leaf, file_front, has_reserved, is_plain, link_front, link_or_copy, new_folder,
    open_leaf, plain_attributes, read_attributes, rename, show_folder, spell, spell_parent, start,
    sync, walk, withdraw,
};
use ost_forms::{OBJECT_LIMIT, ObjFault};
use ost_types::{Bytes, FsPath, Meta, Name, Names, NoMemory, Text};
use std::alloc::Global;
use std::fs;
use std::fs::{File, OpenFile};
use std::io::{ErrorKind, Read};
use std::rt::Files;

/// The current folder, with room for the texts of paths.
pub struct CurrentFolder<R: Machine, S: Syncer> {
    rt: R,
    // The folder itself, whose lock is held while it is open. None where there was no start: each call fails then.
    top: Option<R::File>,
    mark: Mark,
    path: HostPath,
    other: HostPath,
    parent: HostPath,
    known: Known,
    young: Young<R::File>,
    syncer: S,
    changed: Changed,
    recent: Recent<R::File>,
}

impl<R: Machine, S: Syncer> Drop for CurrentFolder<R, S> {
    fn drop(mut self) {
        self.end();
        let CurrentFolder {
            rt: _,
            top: _,
            mark: _,
            path: _,
            other: _,
            parent: _,
            known: _,
            young: _,
            syncer: _,
            changed: _,
            recent: _,
        } = self;
    }
}

impl<R: Machine, S: Syncer> CurrentFolder<R, S> {
    pub fn new(rt: R, syncer: S) -> Result<CurrentFolder<R, S>, NoMemory> {
        let (top, mark) = match start(&rt) {
            Ok((top, mark)) => (Some(top), mark),
            Err(NoStart::Failed) => (None, Mark::Open),
            Err(NoStart::NoMemory) => return Err(NoMemory),
        };
        let alloc = rt.alloc();
        Ok(CurrentFolder {
            rt,
            top,
            mark,
            path: HostPath::new(alloc)?,
            other: HostPath::new(alloc)?,
            parent: HostPath::new(alloc)?,
            known: Known::new(alloc),
            young: Young::new(alloc)?,
            syncer,
            changed: Changed::new(alloc),
            recent: Recent::new(alloc)?,
        })
    }

    pub fn mkdir(&mut self, at: &FsPath, meta: &Meta) -> Result<(), FsErr>
        requires { IsFolderMode meta.now.mode }
        ensures reserved { HasReserved at.now → result ≡ Err error.Failed }
        ensures named { IfErr result OfPlacing }
        ensures notes { NotesFolder at.now result self.new.changed }
        ensures keeps { KeepsNotes self.old.changed self.new.changed }
    {
        self.walk_to_nothing(at)?;
        if is_plain(meta) {
            self.keep_parent(at)?;
            new_folder(&self.rt, self.path.as_str()).map_err(Fault::from)?;
        } else {
            let attributes = attributes_bytes(self.rt.alloc(), meta)?;
            if attributes.as_slice().len() > OBJECT_LIMIT {
                return Err(FsErr::Failed);
            }
            self.keep_parent(at)?;
            show_folder(&self.rt, self.path.as_str(), attributes.as_slice())?;
        }
        Ok(())
    }

    pub fn create(&mut self, at: &FsPath, meta: &Meta) -> Result<(), FsErr>
        requires { IsFileMode meta.now.mode }
        ensures reserved { HasReserved at.now → result ≡ Err error.Failed }
        ensures named { IfErr result OfPlacing }
        ensures notes { NotesFolder at.now result self.new.changed }
        ensures keeps { KeepsNotes self.old.changed self.new.changed }
    {
        self.walk_to_nothing(at)?;
        if meta.xattrs.as_slice().is_empty() {
            let header = FileHeader {
                uid: meta.uid,
                gid: meta.gid,
                mode: meta.mode,
            };
            self.add_young(at, &header.to_bytes(), false)
        } else {
            let front = file_front(self.rt.alloc(), meta)?;
            self.add_young(at, front.as_slice(), false)
        }
    }

    pub fn append(&mut self, at: &FsPath, bytes: &[u8]) -> Result<(), Refusal>
        ensures reserved { HasReserved at.now → result ≡ Err Failed }
        ensures named { IfErr (answered result) OfFinding }
        ensures keeps { KeepsNotes self.old.changed self.new.changed }
    {
        match self.walk(at)? {
            Standing::Young(number) if !self.young.is_link(number) => {
                self.recent.close();
                self.young.append(&self.rt, number, bytes)?;
                self.settle_if_heavy()?;
                Ok(())
            }
            Standing::Leaf(leaf) if !leaf.is_link => {
                self.begin()?;
                self.extend(bytes)?;
                Ok(())
            }
            _ => Err(Refusal::Missing),
        }
    }

    pub fn symlink(&mut self, at: &FsPath, target: &Text, meta: &Meta) -> Result<(), FsErr>
        requires mode { IsLinkMode meta.now.mode }
        requires target { target.now ≢ [] }
        ensures reserved { HasReserved at.now → result ≡ Err error.Failed }
        ensures named { IfErr result OfPlacing }
        ensures notes { NotesFolder at.now result self.new.changed }
        ensures keeps { KeepsNotes self.old.changed self.new.changed }
    {
        self.walk_to_nothing(at)?;
        let front = link_front(self.rt.alloc(), meta, target)?;
        self.add_young(at, front.as_slice(), true)
    }

    pub fn link(&mut self, from: &FsPath, to: &FsPath) -> Result<(), Refusal>
        ensures reserved { HasReserved from.now → result ≡ Err Failed }
        ensures reserved_target { HasReserved to.now → IsErr result }
        ensures named { IfErr (answered result) OfPlacing }
        ensures notes { NotesFolder to.now result self.new.changed }
        ensures keeps { KeepsNotes self.old.changed self.new.changed }
    {
        let number = match self.walk(from)? {
            Standing::Young(number) => Some(number),
            Standing::Leaf(_) => None,
            _ => return Err(Refusal::Missing),
        };
        let Standing::Absent = self.walk_other(to)? else {
            return Err(Refusal::Exists);
        };
        if let Some(number) = number {
            if self.link_young(number, to) {
                return Ok(());
            }
            self.settle()?;
        }
        self.begin()?;
        let linked = link_or_copy(&self.rt, self.path.as_str(), self.other.as_str());
        self.note_parent(to);
        linked?;
        Ok(())
    }

    pub fn unlink(&mut self, at: &FsPath) -> Result<(), Refusal>
        ensures reserved { HasReserved at.now → result ≡ Err Failed }
        ensures named { IfErr (answered result) OfFinding }
        ensures notes { NotesFolder at.now result self.new.changed }
        ensures keeps { KeepsNotes self.old.changed self.new.changed }
    {
        match self.walk(at)? {
            Standing::Young(_) => {
                self.recent.close();
                self.young.take(&self.rt, self.path.as_str())?;
            }
            Standing::Leaf(_) => {
                self.begin()?;
                fs::remove_file(&self.rt, self.path.as_str())?;
            }
            _ => return Err(Refusal::Missing),
        }
        self.note_parent(at);
        Ok(())
    }

    pub fn rmdir(&mut self, at: &FsPath) -> Result<(), Refusal>
        ensures reserved { HasReserved at.now → result ≡ Err Failed }
        ensures root { at.now ≡ [] → IsErr result }
        ensures named { IfErr (answered result) OfEmptying }
        ensures notes { NotesFolder at.now result self.new.changed }
    {
        self.walk_to_folder(at)?;
        self.settle()?;
        if at.names().is_empty() || has_names(&self.rt, self.path.as_str())? {
            return Err(Refusal::NotEmpty);
        }
        self.begin()?;
        self.known.forget(self.path.as_str());
        let removed = self.remove_folder(at);
        if removed.is_ok() {
            self.changed.forget(self.path.as_str());
        }
        self.note_parent(at);
        removed?;
        Ok(())
    }

    pub fn rename(&mut self, from: &FsPath, to: &FsPath) -> Result<(), Refusal>
        ensures reserved { HasReserved from.now → result ≡ Err Failed }
        ensures reserved_target { HasReserved to.now → IsErr result }
        ensures named { IfErr (answered result) OfPlacing }
        ensures notes { NotesFolder from.now result self.new.changed }
        ensures notes_target { NotesFolder to.now result self.new.changed }
        ensures keeps { KeepsNotes self.old.changed self.new.changed }
    {
        match self.walk(from)? {
            Standing::Young(_) | Standing::Leaf(_) => {}
            _ => return Err(Refusal::Missing),
        }
        if let Standing::Folder = self.walk_other(to)? {
            return Err(Refusal::Exists);
        }
        self.settle()?;
        self.begin()?;
        rename(&self.rt, self.path.as_str(), self.other.as_str())?;
        self.note_parent(from);
        self.note_parent(to);
        Ok(())
    }

    pub fn sync_file(&mut self, at: &FsPath) -> Result<(), Refusal>
        ensures reserved { HasReserved at.now → result ≡ Err Failed }
        ensures named { IfErr (answered result) OfFinding }
        ensures lost { IsTrue self.old.changed.is_lost → IsErr result }
    {
        match self.walk(at)? {
            Standing::Young(number) if !self.young.is_link(number) && !self.changed.is_lost() => {
                Ok(())
            }
            Standing::Leaf(leaf) if !leaf.is_link && !self.changed.is_lost() => {
                self.sync_path()?;
                Ok(())
            }
            Standing::Young(number) if !self.young.is_link(number) => Err(Refusal::Failed),
            Standing::Leaf(leaf) if !leaf.is_link => Err(Refusal::Failed),
            _ => Err(Refusal::Missing),
        }
    }

    pub fn sync_dir(&mut self, at: &FsPath) -> Result<(), Refusal>
        ensures reserved { HasReserved at.now → result ≡ Err Failed }
        ensures named { IfErr (answered result) OfFinding }
        ensures ok { OnOk result (IsFalse (contains_text self.new.changed.texts (host_text at.now))) }
        ensures settled { OnOk result (IsSettled self.new.young) }
        ensures lost { IsTrue self.old.changed.is_lost → IsErr result }
    {
        self.walk_to_folder(at)?;
        self.settle()?;
        self.changed.sync_one(&self.rt, self.path.as_str())?;
        Ok(())
    }

    pub fn sync_all(&mut self) -> Result<(), Fault>
        ensures ok { OnOk result (self.new.changed.texts.keys ≡ []) }
        ensures lost { IsTrue self.old.changed.is_lost → IsErr result }
        ensures settled { OnOk result (IsSettled self.new.young) }
        ensures err { OnErr result (IsTrue self.new.changed.is_lost ⊎ IsNone self.old.top) }
    {
        if self.top.is_none() {
            return Err(Fault);
        }
        self.settle()?;
        self.changed.sync_all(&self.rt)
    }

    pub fn stat(&mut self, at: &FsPath) -> Result<Option<Node>, FsErr>
        ensures reserved { HasReserved at.now → result ≡ Err error.Failed }
        ensures named { IfErr result OfNone }
    {
        self.recent.close();
        match self.walk_to_leaf(at) {
            Ok(Standing::Folder) => {
                self.path.push(ATTRIBUTES);
                let meta = folder_attributes(&self.rt, self.rt.alloc(), self.path.as_str())?;
                Ok(Some(Node::Folder(meta)))
            }
            Ok(Standing::Leaf(leaf)) => {
                let (node, opened) = leaf.into_node();
                let Some(node) = node else {
                    return Err(FsErr::NoMemory);
                };
                if let Node::File { .. } = &node {
                    self.recent.keep(self.path.as_str(), opened);
                }
                Ok(Some(node))
            }
            Ok(_) | Err(Refusal::Missing | Refusal::NotFolder) => Ok(None),
            Err(_) => Err(FsErr::Failed),
        }
    }

    pub fn read(&mut self, at: &FsPath) -> Result<Bytes, FsErr>
        ensures reserved { HasReserved at.now → result ≡ Err error.Failed }
        ensures named { IfErr result OfFinding }
    {
        let mut opened = self.open_file(at)?;
        opened.whole_content(self.rt.alloc())
    }

    pub fn read_part(&mut self, at: &FsPath, from: u64, max: u32) -> Result<Bytes, FsErr>
        ensures reserved { HasReserved at.now → result ≡ Err error.Failed }
        ensures most { IfOk result (λ b. length b ≤ max) }
        ensures named { IfErr result OfFinding }
    {
        let mut opened = self.open_file(at)?;
        let part = opened.content(self.rt.alloc(), from, u64::from(max));
        self.recent.keep(self.path.as_str(), opened);
        part
    }

    pub fn list(&mut self, at: &FsPath) -> Result<Names, FsErr>
        ensures reserved { HasReserved at.now → result ≡ Err error.Failed }
        ensures ascending { IfOk result (IsStrictlySortedBy (slice_cmp nat_cmp)) }
        ensures named { IfErr result OfFinding }
    {
        self.walk_to_folder(at)?;
        self.settle()?;
        names_in(&self.rt, self.path.as_str(), at.names().is_empty())
    }

    pub fn same(&mut self, a: &FsPath, b: &FsPath) -> Result<bool, FsErr>
        ensures reserved { HasReserved a.now → result ≡ Err error.Failed }
        ensures reserved_other { HasReserved b.now → IsErr result }
        ensures named { IfErr result OfNone }
    {
        let one = self.file_at(a)?;
        let two = self.file_at(b)?;
        match (one, two) {
            (Some(one), Some(two)) => Ok(one.is_equal(two)?),
            _ => Ok(false),
        }
    }

    // What stands at a path, whose text is spelled.
    fn walk(&mut self, at: &FsPath) -> Result<Standing<R::File>, Refusal>
        ensures reserved { HasReserved at.now → result ≡ Err Failed }
        ensures spelled { OnOk result (self.new.path ≡ host_text at.now) }
        ensures short { OnOk result (length self.new.path ≤ 2049) }
        ensures changed { self.new.changed ≡ self.old.changed }
        ensures placing { IfErr (answered result) OfPlacing }
        ensures finding { IfErr (answered result) OfFinding }
        ensures emptying { IfErr (answered result) OfEmptying }
    {
        if self.top.is_none() {
            return Err(Refusal::Failed);
        }
        let alloc = self.rt.alloc();
        walk(
            &self.rt,
            alloc,
            &mut self.known,
            &self.young,
            at,
            &mut self.path,
        )
    }

    // What stands at a path, whose text is spelled as the other.
    fn walk_other(&mut self, at: &FsPath) -> Result<Standing<R::File>, Refusal>
        ensures reserved { HasReserved at.now → result ≡ Err Failed }
        ensures path { self.new.path ≡ self.old.path }
        ensures changed { self.new.changed ≡ self.old.changed }
        ensures placing { IfErr (answered result) OfPlacing }
    {
        if self.top.is_none() {
            return Err(Refusal::Failed);
        }
        let alloc = self.rt.alloc();
        walk(
            &self.rt,
            alloc,
            &mut self.known,
            &self.young,
            at,
            &mut self.other,
        )
    }

    // What stands at a path; a young leaf is opened.
    fn walk_to_leaf(&mut self, at: &FsPath) -> Result<Standing<R::File>, Refusal>
        ensures reserved { HasReserved at.now → result ≡ Err Failed }
        ensures spelled { OnOk result (self.new.path ≡ host_text at.now) }
        ensures short { OnOk result (length self.new.path ≤ 2049) }
        ensures changed { self.new.changed ≡ self.old.changed }
        ensures placing { IfErr (answered result) OfPlacing }
        ensures finding { IfErr (answered result) OfFinding }
        ensures emptying { IfErr (answered result) OfEmptying }
    {
        match self.walk(at)? {
            Standing::Young(number) => Ok(Standing::Leaf(self.open_young(number)?)),
            standing => Ok(standing),
        }
    }

    fn open_young(&mut self, number: u32) -> Result<Leaf<R::File>, Fault>
        ensures path { self.new.path ≡ self.old.path }
        ensures changed { self.new.changed ≡ self.old.changed }
    {
        let alloc = self.rt.alloc();
        let text = self.young.text_of(number);
        match HostKind::of(&self.rt, text)? {
            HostKind::File(size) => open_leaf(&self.rt, alloc, text, size),
            _ => Err(Fault),
        }
    }

    fn walk_to_nothing(&mut self, at: &FsPath) -> Result<(), Refusal>
        ensures reserved { HasReserved at.now → result ≡ Err Failed }
        ensures named { IfErr (answered result) OfPlacing }
        ensures changed { self.new.changed ≡ self.old.changed }
    {
        match self.walk(at)? {
            Standing::Absent => Ok(()),
            _ => Err(Refusal::Exists),
        }
    }

    fn walk_to_folder(&mut self, at: &FsPath) -> Result<(), Refusal>
        ensures reserved { HasReserved at.now → result ≡ Err Failed }
        ensures short { OnOk result (length self.new.path ≤ 2049) }
        ensures finding { IfErr (answered result) OfFinding }
        ensures emptying { IfErr (answered result) OfEmptying }
        ensures spelled { OnOk result (self.new.path ≡ host_text at.now) }
        ensures changed { self.new.changed ≡ self.old.changed }
    {
        match self.walk(at)? {
            Standing::Folder => Ok(()),
            Standing::Absent => Err(Refusal::Missing),
            Standing::Young(_) | Standing::Leaf(_) => Err(Refusal::NotFolder),
        }
    }

    // The regular file at a path, whose text is spelled, open. The one that was looked at last is open already.
    fn open_file(&mut self, at: &FsPath) -> Result<Opened<R::File>, FsErr>
        ensures reserved { HasReserved at.now → result ≡ Err error.Failed }
        ensures named { IfErr result OfFinding }
        ensures short { OnOk result (length self.new.path ≤ 2049) }
        ensures changed { self.new.changed ≡ self.old.changed }
    {
        if has_reserved(at) {
            return Err(FsErr::Failed);
        }
        spell(at, &mut self.path);
        if let Some(opened) = self.recent.take(self.path.as_str()) {
            return Ok(opened);
        }
        match self.walk_to_leaf(at)? {
            Standing::Leaf(leaf) if !leaf.is_link => leaf.into_read(),
            _ => Err(FsErr::Missing),
        }
    }

    // The regular file at a path, if one is there.
    fn file_at(&mut self, at: &FsPath) -> Result<Option<Leaf<R::File>>, FsErr>
        ensures reserved { HasReserved at.now → result ≡ Err error.Failed }
        ensures named { IfErr result OfNone }
        ensures changed { self.new.changed ≡ self.old.changed }
    {
        match self.walk_to_leaf(at) {
            Ok(Standing::Leaf(leaf)) if !leaf.is_read() => Err(FsErr::NoMemory),
            Ok(Standing::Leaf(leaf)) if !leaf.is_link => Ok(Some(leaf)),
            Ok(_) | Err(Refusal::Missing | Refusal::NotFolder) => Ok(None),
            Err(_) => Err(FsErr::Failed),
        }
    }

    // Before a change of the host: the mark is taken away.
    fn begin(&mut self) -> Result<(), Fault>
        ensures path { self.new.path ≡ self.old.path }
        ensures changed { self.new.changed ≡ self.old.changed }
    {
        self.recent.close();
        self.mark.open(&self.rt)
    }

    // Makes a leaf of these bytes at a path, whose text is spelled, young.
    fn add_young(&mut self, at: &FsPath, front: &[u8], is_link: bool) -> Result<(), FsErr>
        ensures notes { NotesFolder at.now result self.new.changed }
        ensures named { IfErr result OfNone }
        ensures keeps { KeepsNotes self.old.changed self.new.changed }
    {
        if front.len().saturating_sub(8) > OBJECT_LIMIT {
            return Err(FsErr::Failed);
        }
        self.keep_parent(at)?;
        self.make_room()?;
        self.young
            .add(&self.rt, self.path.as_str(), front, is_link)?;
        Ok(self.settle_if_heavy()?)
    }

    // Gives a young leaf the path whose text is spelled as the other. False where there is no memory for it.
    fn link_young(&mut self, number: u32, to: &FsPath) -> bool
        ensures ok { (p : Path) (x : Name) → to.now ≡ under p x → IsTrue result → IsSeenTo (host_text p) self.new.changed }
        ensures path { self.new.path ≡ self.old.path }
        ensures keeps { KeepsNotes self.old.changed self.new.changed }
    {
        self.recent.close();
        spell_parent(to, &mut self.parent);
        self.changed.keep(self.parent.as_str()).is_ok()
            && self.young.link(number, self.other.as_str()).is_ok()
    }

    // Sees to it that a file can be added to the young ones.
    fn make_room(&mut self) -> Result<(), Fault>
        ensures room { OnOk result (vec_len self.new.young.files < 1024) }
        ensures path { self.new.path ≡ self.old.path }
        ensures same { OnOk result (self.new.changed ≡ self.old.changed) }
        ensures keeps { KeepsNotes self.old.changed self.new.changed }
    {
        if self.young.is_full() {
            self.settle()?;
        }
        Ok(())
    }

    fn settle_if_heavy(&mut self) -> Result<(), Fault>
        ensures same { OnOk result (self.new.changed ≡ self.old.changed) }
        ensures keeps { KeepsNotes self.old.changed self.new.changed }
    {
        if self.young.is_heavy() {
            self.settle()?;
        }
        Ok(())
    }

    // Syncs the young leaves and gives them their names. After a sync that failed none is given any more.
    fn settle(&mut self) -> Result<(), Fault>
        ensures ok { OnOk result (IsSettled self.new.young) }
        ensures err { OnErr result (IsTrue self.new.changed.is_lost) }
        ensures lost { IsTrue self.old.changed.is_lost → IsErr result }
        ensures path { self.new.path ≡ self.old.path }
        ensures same { OnOk result (self.new.changed ≡ self.old.changed) }
        ensures keeps { KeepsNotes self.old.changed self.new.changed }
    {
        if self.changed.is_lost() {
            return Err(Fault);
        }
        self.recent.close();
        let settled = self.young.settle(&self.rt, &self.syncer);
        if settled.is_err() {
            self.changed.lose();
        }
        settled
    }

    // Adds bytes to the host file whose text is spelled, and waits for them.
    fn extend(&mut self, bytes: &[u8]) -> Result<(), Fault>
        ensures keeps { KeepsNotes self.old.changed self.new.changed }
    {
        let file = extend_leaf(&self.rt, self.path.as_str(), bytes)?;
        if file.sync_all().is_err() {
            self.changed.lose();
            return Err(Fault);
        }
        Ok(())
    }

    fn sync_path(&mut self) -> Result<(), Fault>
        ensures keeps { KeepsNotes self.old.changed self.new.changed }
    {
        let synced = sync(&self.rt, self.path.as_str());
        if synced.is_err() {
            self.changed.lose();
        }
        synced
    }

    // Removes the folder at a path, whose text is spelled, with what it has of reserved names.
    fn remove_folder(&mut self, at: &FsPath) -> Result<(), Fault>
        requires { length self.old.path ≤ 2049 }
        ensures path { self.new.path ≡ self.old.path }
        ensures changed { self.new.changed ≡ self.old.changed }
    {
        match fs::remove_dir(&self.rt, self.path.as_str()) {
            Ok(()) => Ok(()),
            Err(e) if e.kind() == ErrorKind::DirectoryNotEmpty => self.withdraw(at),
            Err(_) => Err(Fault),
        }
    }

    // A folder is out of sight before its attributes are removed.
    fn withdraw(&mut self, at: &FsPath) -> Result<(), Fault>
        requires { length self.old.path ≤ 2049 }
        ensures path { self.new.path ≡ self.old.path }
        ensures changed { self.new.changed ≡ self.old.changed }
    {
        self.other.set(self.path.as_str());
        self.other.push(ATTRIBUTES);
        if HostKind::of(&self.rt, self.other.as_str())? == HostKind::Folder {
            return Err(Fault);
        }
        sync(&self.rt, self.path.as_str())?;
        spell_parent(at, &mut self.parent);
        withdraw(&self.rt, self.path.as_str(), self.parent.as_str())
    }

    // Begins a change of the names in the folder that the last name of a path stands in.
    fn keep_parent(&mut self, at: &FsPath) -> Result<(), FsErr>
        ensures notes { NotesFolder at.now result self.new.changed }
        ensures path { self.new.path ≡ self.old.path }
        ensures named { IfErr result OfNone }
        ensures keeps { KeepsNotes self.old.changed self.new.changed }
    {
        self.begin()?;
        spell_parent(at, &mut self.parent);
        self.changed.keep(self.parent.as_str())?;
        Ok(())
    }

    // Notes that names changed in the folder that the last name of a path stands in.
    fn note_parent(&mut self, at: &FsPath)
        ensures notes { (p : Path) (x : Name) → at.now ≡ under p x → IsSeenTo (host_text p) self.new.changed }
        ensures path { self.new.path ≡ self.old.path }
        ensures keeps { KeepsNotes self.old.changed self.new.changed }
    {
        spell_parent(at, &mut self.parent);
        self.changed.note(&self.rt, self.parent.as_str());
    }

    // Leaves nothing young or unsynced, and the mark that says so.
    fn end(&mut self) {
        if self.sync_all().is_ok() {
            let _ = self.mark.close(&self.rt);
        }
    }
}

// The attributes of a folder, by the text of the file that is to hold them.
fn folder_attributes<R: Files>(rt: &R, alloc: Global, text: &str) -> Result<Meta, FsErr>
    ensures { IfErr result OfNone }
{
    match HostKind::of(rt, text)? {
        HostKind::Absent => Ok(plain_attributes(alloc)),
        HostKind::File(_) => stored_attributes(rt, alloc, text),
        HostKind::Folder => Err(FsErr::Failed),
    }
}

fn stored_attributes<R: Files>(rt: &R, alloc: Global, text: &str) -> Result<Meta, FsErr>
    ensures { IfErr result OfNone }
{
    let mut file = File::open(rt, text).map_err(Fault::from)?;
    let len = file.metadata().map_err(Fault::from)?.len();
    if len > OBJECT_LIMIT as u64 {
        return Err(FsErr::Failed);
    }
    let mut bytes = Vec::from_elem(alloc, 0u8, len as usize)?;
    file.read_exact(&mut bytes).map_err(Fault::from)?;
    match read_attributes(alloc, &bytes) {
        Ok(meta) => Ok(meta),
        Err(ObjFault::NoMemory) => Err(FsErr::NoMemory),
        Err(_) => Err(FsErr::Failed),
    }
}

fn has_names<R: Machine>(rt: &R, text: &str) -> Result<bool, Fault> {
    for entry in fs::read_dir(rt, text)? {
        if entry?.file_name() != ATTRIBUTES {
            return Ok(true);
        }
    }
    Ok(false)
}

// Whether a host name of a folder stands for no node.
fn is_hidden(name: &str, is_top: bool) -> bool {
    name == ATTRIBUTES || (is_top && name == PLACE)
}

// The names of a folder, each once, ascending by their bytes.
fn names_in<R: Machine>(rt: &R, text: &str, is_top: bool) -> Result<Names, FsErr>
    ensures ascending { IfOk result (IsStrictlySortedBy (slice_cmp nat_cmp)) }
    ensures named { IfErr result OfFinding }
{
    let alloc = rt.alloc();
    let mut names = Vec::new(alloc);
    for entry in fs::read_dir(rt, text).map_err(Fault::from)? {
        let entry = entry.map_err(Fault::from)?;
        if is_hidden(entry.file_name(), is_top) {
            continue;
        }
        let Some(name) = Name::parse(alloc, entry.file_name().as_bytes())? else {
            return Err(FsErr::Failed);
        };
        names.push(name)?;
    }
    Ok(ascending(names))
}

fn ascending(names: Vec<Name>) -> Names
    ensures { IsStrictlySortedBy (slice_cmp nat_cmp) result }
{
    let mut names = names;
    names.sort_unstable();
    names.dedup();
    Names::from_vec(names)
}
