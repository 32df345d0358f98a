//! The values that each name may have after a crash: a guess by the rule that a name keeps its older values until its folder is synced.
use crate::call::{Call, Kind, path};
use crate::stop::Stop;
use crate::tree::{Seen, Tree, read_node};
use fs_memory::MemFs;
use std::alloc::Global;
use std::collections::BTreeMap;

// What a name leads to: nothing, or the node of this number.
type Value = Option<usize>;

#[derive(Drop)]
struct Values {
    // The oldest first, and the last one is the one now.
    all: Vec<Value>,
}

#[derive(Drop)]
struct Entry {
    seen: Seen,
    is_synced: bool,
}

/// The names that a file system had.
#[derive(Drop)]
pub struct NameValues {
    alloc: Global,
    names: BTreeMap<String, Values>,
    nodes: Vec<Entry>,
}

/// The text of the folder that a path's last name stands in.
pub fn folder_of(text: &str) -> &str {
    match text.rsplit_once('/') {
        Some((folder, _)) => folder,
        None => "",
    }
}

fn is_folder_in(tree: &Tree, text: &str) -> bool {
    text.is_empty() || tree.get(text).is_some_and(Seen::is_folder)
}

impl NameValues {
    pub fn new(alloc: Global) -> NameValues {
        NameValues {
            alloc,
            names: BTreeMap::new(alloc),
            nodes: Vec::new(alloc),
        }
    }

    pub fn copy(&self) -> Result<NameValues, Stop> {
        let mut names = BTreeMap::new(self.alloc);
        for (text, values) in &self.names {
            let text = String::from_str(self.alloc, text.as_str())?;
            names.insert(text, values.copy(self.alloc)?)?;
        }
        let nodes = self.copied_nodes()?;
        Ok(NameValues {
            alloc: self.alloc,
            names,
            nodes,
        })
    }

    fn copied_nodes(&self) -> Result<Vec<Entry>, Stop> {
        let mut nodes = Vec::new(self.alloc);
        for entry in &self.nodes {
            nodes.push(entry.copy()?)?;
        }
        Ok(nodes)
    }

    fn now(&self, text: &str) -> Value {
        match self.names.get(text) {
            Some(values) => values.all.last().copied().flatten(),
            None => None,
        }
    }

    // The name has this value from now on.
    fn name(&mut self, text: &str, value: Value) -> Result<(), Stop> {
        if let Some(values) = self.names.get_mut(text) {
            values.all.push(value)?;
            return Ok(());
        }
        self.name_first(text, value)
    }

    fn name_first(&mut self, text: &str, value: Value) -> Result<(), Stop> {
        let values = Values {
            all: vec![in self.alloc; None, value]?,
        };
        self.names
            .insert(String::from_str(self.alloc, text)?, values)?;
        Ok(())
    }

    // What stands there now.
    fn seen(&self, text: &str, mem: &mut MemFs) -> Result<Seen, Stop> {
        let at = path(self.alloc, text)?;
        read_node(self.alloc, mem, &at, text)
    }

    fn add(&mut self, text: &str, mem: &mut MemFs) -> Result<(), Stop> {
        let seen = self.seen(text, mem)?;
        let is_synced = !matches!(seen, Seen::File(_, _));
        let number = self.nodes.len();
        self.nodes.push(Entry { seen, is_synced })?;
        self.name(text, Some(number))
    }

    fn entry(&mut self, text: &str) -> Option<&mut Entry> {
        match self.now(text) {
            Some(number) => self.nodes.get_mut(number),
            None => None,
        }
    }

    fn grow(&mut self, text: &str, mem: &mut MemFs) -> Result<(), Stop> {
        let seen = self.seen(text, mem)?;
        if let Some(entry) = self.entry(text) {
            let grown = Entry {
                seen,
                is_synced: false,
            };
            drop(std::mem::replace(entry, grown));
        }
        Ok(())
    }

    fn rename(&mut self, from: &str, to: &str) -> Result<(), Stop> {
        self.name(to, self.now(from))?;
        self.name(from, None)
    }

    /// After a call that was made.
    pub fn note(&mut self, call: &Call, mem: &mut MemFs) -> Result<(), Stop> {
        let (at, second) = (call.at.as_str(), call.second.as_str());
        match call.kind {
            Kind::Append => self.grow(at, mem),
            Kind::Link => self.name(second, self.now(at)),
            Kind::Rename => self.rename(at, second),
            Kind::Unlink | Kind::Rmdir => self.name(at, None),
            Kind::SyncFile | Kind::SyncDir | Kind::SyncAll => {
                self.note_sync(call.kind, at);
                Ok(())
            }
            _ => self.add(at, mem),
        }
    }

    fn note_sync(&mut self, kind: Kind, at: &str) {
        match kind {
            Kind::SyncFile => self.sync_file(at),
            Kind::SyncDir => self.sync_folder(at),
            _ => self.sync_all(),
        }
    }

    fn sync_file(&mut self, at: &str) {
        if let Some(entry) = self.entry(at) {
            entry.is_synced = true;
        }
    }

    fn sync_folder(&mut self, at: &str) {
        let folder = if at == "/" { "" } else { at };
        for (text, values) in &mut self.names {
            if folder_of(text.as_str()) == folder {
                values.keep_last();
            }
        }
    }

    fn sync_all(&mut self) {
        for (_, values) in &mut self.names {
            values.keep_last();
        }
        self.sync_nodes();
    }

    fn sync_nodes(&mut self) {
        for entry in &mut self.nodes {
            entry.is_synced = true;
        }
    }

    // Whether a value may be what stands there.
    fn fits(&self, value: Value, seen: Option<&Seen>) -> bool {
        match (value, seen) {
            (None, None) => true,
            (Some(number), Some(seen)) => match self.nodes.get(number) {
                Some(entry) => entry.fits(seen),
                None => false,
            },
            _ => false,
        }
    }

    fn place_of(&self, values: &Values, seen: Option<&Seen>) -> Option<usize> {
        values.all.iter().position(|value| self.fits(*value, seen))
    }

    /// For each name with more than one value, ascending, the place of the one that the tree shows. None where it shows another.
    pub fn picks(&self, tree: &Tree) -> Result<Option<Vec<u32>>, Stop> {
        let mut picks = Vec::new(self.alloc);
        for (text, values) in &self.names {
            if values.all.len() < 2 {
                continue;
            }
            match self.pick(tree, text.as_str(), values) {
                Some(place) => picks.push(u32::try_from(place).unwrap_or(0))?,
                None => return Ok(None),
            }
        }
        Ok(Some(picks))
    }

    fn pick(&self, tree: &Tree, text: &str, values: &Values) -> Option<usize> {
        if is_folder_in(tree, folder_of(text)) {
            self.place_of(values, tree.get(text))
        } else {
            Some(0)
        }
    }

    /// Whether the file at a path may have any bytes.
    pub fn is_loose(&self, text: &str) -> bool {
        match self.names.get(text) {
            Some(values) => values.all.iter().any(|value| self.is_unsynced(*value)),
            None => false,
        }
    }

    fn is_unsynced(&self, value: Value) -> bool {
        match value {
            Some(number) => self.nodes.get(number).is_some_and(|entry| !entry.is_synced),
            None => false,
        }
    }

    /// The names after a crash that left this tree.
    pub fn left(&self, tree: &Tree) -> Result<NameValues, Stop> {
        let mut left = NameValues::new(self.alloc);
        for (text, values) in &self.names {
            let seen = tree.get(text.as_str());
            if let Some(place) = self.place_of(values, seen) {
                let value = if seen.is_some() {
                    values.all.get(place).copied().flatten()
                } else {
                    None
                };
                left.keep(text.as_str(), value)?;
            }
        }
        left.nodes = self.copied_nodes()?;
        left.sync_nodes();
        Ok(left)
    }

    // The name has this value alone.
    fn keep(&mut self, text: &str, value: Value) -> Result<(), Stop> {
        let values = Values {
            all: vec![in self.alloc; value]?,
        };
        self.names
            .insert(String::from_str(self.alloc, text)?, values)?;
        Ok(())
    }
}

impl Values {
    fn copy(&self, alloc: Global) -> Result<Values, Stop> {
        Ok(Values {
            all: Vec::from_slice(alloc, &self.all)?,
        })
    }

    fn keep_last(&mut self) {
        if let Some(last) = self.all.pop() {
            self.all.clear();
            let _ = self.all.push(last);
        }
    }
}

impl Entry {
    fn copy(&self) -> Result<Entry, Stop> {
        Ok(Entry {
            seen: self.seen.copy()?,
            is_synced: self.is_synced,
        })
    }

    // Whether it may be what was seen.
    fn fits(&self, seen: &Seen) -> bool {
        self.seen.is_like(seen) && (!self.is_synced || self.seen.bytes() == seen.bytes())
    }
}
