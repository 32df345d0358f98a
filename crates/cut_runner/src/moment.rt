//! What a crash may leave at a moment, by the images of the file system in memory.
use crate::names::NameValues;
use crate::stop::Stop;
use crate::tree::{Seen, Tree, read_tree};
use fs_memory::{Choice, MemFs};
use std::alloc::Global;
use std::collections::BTreeMap;

/// A moment of the file system in memory, with a guess of each name's values then.
#[derive(Drop)]
pub struct Moment {
    alloc: Global,
    clock: u64,
    names: NameValues,
    // The image that was asked for last.
    picks: Vec<u32>,
    tree: Option<Tree>,
}

impl Moment {
    pub fn new(alloc: Global, clock: u64, names: NameValues) -> Moment {
        Moment {
            alloc,
            clock,
            names,
            picks: Vec::new(alloc),
            tree: None,
        }
    }

    pub fn names(&self) -> &NameValues {
        &self.names
    }

    /// Whether a crash at this moment may leave this tree.
    pub fn may_leave(&mut self, mem: &MemFs, tree: &Tree) -> Result<bool, Stop> {
        let Some(picks) = self.names.picks(tree)? else {
            return Ok(false);
        };
        if self.tree.is_none() || self.picks != picks {
            self.ask(mem, picks)?;
        }
        match &self.tree {
            Some(image) => Ok(self.is_same(image, tree)),
            None => Ok(false),
        }
    }

    fn ask(&mut self, mem: &MemFs, picks: Vec<u32>) -> Result<(), Stop> {
        let mut image = self.image(mem, &picks)?;
        let tree = read_tree(self.alloc, &mut image)?;
        drop(self.tree.replace(tree));
        drop(std::mem::replace(&mut self.picks, picks));
        Ok(())
    }

    fn image(&self, mem: &MemFs, picks: &[u32]) -> Result<MemFs, Stop> {
        if self.clock > mem.moments() {
            return Err(Stop::Wrong(String::from_str(self.alloc, "the clock")?));
        }
        let choice = Choice {
            picks: Vec::from_slice(self.alloc, picks)?,
            fill: 0,
        };
        Ok(mem.image(self.clock, &choice)?)
    }

    // Whether two trees are the same, but for the bytes of files that aren't synced.
    fn is_same(&self, image: &Tree, tree: &Tree) -> bool {
        image.len() == tree.len()
            && tree.iter().all(|(text, seen)| match image.get(text.as_str()) {
                Some(other) => self.is_same_at(text.as_str(), seen, other),
                None => false,
            })
    }

    fn is_same_at(&self, text: &str, seen: &Seen, other: &Seen) -> bool {
        seen.is_like(other) && (seen.bytes() == other.bytes() || self.names.is_loose(text))
    }

    /// The image that is this tree, byte for byte. None where there's none.
    pub fn image_of(&self, mem: &MemFs, tree: &Tree) -> Result<Option<MemFs>, Stop> {
        let Some(picks) = self.names.picks(tree)? else {
            return Ok(None);
        };
        let mut image = self.image(mem, &picks)?;
        let found = read_tree(self.alloc, &mut image)?;
        Ok(if is_equal(&found, tree) {
            Some(image)
        } else {
            None
        })
    }
}

fn is_equal(image: &Tree, tree: &Tree) -> bool {
    image.len() == tree.len()
        && tree.iter().all(|(text, seen)| match image.get(text.as_str()) {
            Some(other) => seen.is_like(other) && seen.bytes() == other.bytes(),
            None => false,
        })
}
