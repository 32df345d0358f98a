ghost use Rattle.std.specs.Prelude.{◌≡◌, ◌++◌, ◌∷◌, ◌↔◌, [], length, IfOk, OnOk, OnErr, IsTrue};
ghost use Rattle.std.specs.Option.{option_copied};

use crate::{FsPath, NoMemory, NodeName, TryCopy};
use std::alloc::Global;
use std::marker::Model;

/// A map from paths to the names of nodes, in the order of the paths. It grows at its end.
#[derive(Drop, Debug)]
pub struct PathMap {
    entries: Vec<(FsPath, NodeName)>,
}

impl Model for PathMap {
    ghost use Rattle.ost_types.specs.PathMap.{Nodes, IsPathMap};

    ghost Value = { Nodes };

    ghost view = { λ m. m.entries.items };

    ghost invariant = { λ m. IsPathMap m.entries.items };
}

impl PathMap {
    ghost use Rattle.ost_types.specs.PathMap.{IsAscending, IsNode, IsPathMap, paths_of, node_at};

    pub fn new(alloc: Global) -> PathMap
        ensures { result ≡ [] }
    {
        PathMap {
            entries: Vec::new(alloc),
        }
    }

    pub fn len(&self) -> usize
        ensures { result ≡ length self.now }
    {
        self.entries.len()
    }

    /// The pairs, in the order of their paths.
    pub fn as_slice(&self) -> &[(FsPath, NodeName)]
        ensures value { result.now ≡ self.now }
        ensures map { IsPathMap result.now }
    {
        &self.entries
    }

    /// Whether the path comes after each path of the map, so that it may be pushed.
    pub fn fits(&self, path: &FsPath) -> bool
        ensures { IsTrue result ↔ IsAscending (paths_of self.now ++ path.now ∷ []) }
    {
        match self.entries.last() {
            Some((last, _)) => last.cmp(path).is_lt(),
            None => true,
        }
    }

    pub fn push(&mut self, path: FsPath, node: NodeName) -> Result<(), NoMemory>
        requires fits { IsAscending (paths_of self.old ++ path ∷ []) }
        requires node { IsNode node }
        ensures ok { OnOk result (self.new ≡ self.old ++ (path, node) ∷ []) }
        ensures err { OnErr result (self.new ≡ self.old) }
    {
        self.entries.push((path, node))?;
        Ok(())
    }

    pub fn get(&self, path: &FsPath) -> Option<&NodeName>
        ensures { option_copied result ≡ node_at self.now path.now }
    {
        match self.entries.binary_search_by(|entry| entry.0.cmp(path)) {
            Ok(at) => Some(&self.entries[at].1),
            Err(_) => None,
        }
    }
}

impl TryCopy for PathMap {
    fn copy(&self) -> Result<PathMap, NoMemory> {
        let mut entries = Vec::with_capacity(*self.entries.allocator(), self.entries.len())?;
        for (path, node) in self.entries.as_slice() {
            entries.push((path.copy()?, node.copy()?))?;
        }
        Ok(PathMap { entries })
    }
}
