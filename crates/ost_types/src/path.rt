ghost use Rattle.std.specs.Prelude.{◌≡◌, ◌++◌, ◌∷◌, ◌↔◌, List, [], ℕ, length, IfOk, IsTrue, nat_eq};
ghost use Rattle.std.specs.Cmp as Cmp;
ghost use Rattle.std.specs.Cmp.Lexicographic.{pointwise, slice_cmp, lists_ties, texts_ties};
ghost use Rattle.std.specs.Cmp.Rules.{comparing};
ghost use Rattle.std.specs.Ordering.{nat_cmp, as_partial_cmp};
ghost use Rattle.std.proofs.Common.{rules};
ghost use Rattle.std.proofs.lemmas.Cmp.{nat_list_cmp_total, nat_list_eq_equiv, lists_total, lists_equiv};
ghost use Rattle.ost_types.specs.Path.{IsPath, under};

mod parse;
mod split;
mod text;

use crate::{Name, NoMemory, TryCopy, copy_all};
pub use parse::PathFault;
use std::alloc::Global;
use std::cmp::Ordering;
use std::marker::Model;

/// A path from the root of a file system, as the list of its names; the root is the empty list.
///
/// It has at most 80 names, and its text at most 2,048 bytes. Paths that come from outside are held to
/// 64 names and 1,024 bytes, so there is room to put one below a folder of the program's own.
#[derive(Drop, Debug)]
pub struct FsPath {
    names: Vec<Name>,
}

impl Model for FsPath {
    ghost use Rattle.std.specs.Prelude.{List, ℕ};
    ghost use Rattle.ost_types.specs.Path.{IsPath};

    ghost Value = { List (List ℕ) };

    ghost view = { λ a. a.names.items };

    ghost invariant = { λ a. IsPath a.names.items };
}

impl FsPath {
    pub fn root(alloc: Global) -> FsPath
        ensures { result ≡ [] }
    {
        FsPath {
            names: Vec::new(alloc),
        }
    }

    pub fn names(&self) -> &[Name]
        ensures value { result.now ≡ self.now }
        ensures path { IsPath result.now }
    {
        &self.names
    }

    /// The path that goes on from this one by the names of the other.
    pub fn join(&self, rest: &FsPath) -> Result<FsPath, NoMemory>
        requires { IsPath (self.now ++ rest.now) }
        ensures { IfOk result (λ p. p ≡ self.now ++ rest.now) }
    {
        let mut names = copy_all(*self.names.allocator(), &self.names)?;
        for name in rest.names.as_slice() {
            names.push(name.copy()?)?;
        }
        Ok(FsPath { names })
    }

    /// The path of a name in the folder at this path.
    pub fn child(&self, name: &Name) -> Result<FsPath, NoMemory>
        requires { IsPath (under self.now name.now) }
        ensures { IfOk result (λ p. p ≡ under self.now name.now) }
    {
        let mut names = copy_all(*self.names.allocator(), &self.names)?;
        names.push(name.copy()?)?;
        Ok(FsPath { names })
    }
}

impl TryCopy for FsPath {
    fn copy(&self) -> Result<FsPath, NoMemory> {
        Ok(FsPath {
            names: copy_all(*self.names.allocator(), &self.names)?,
        })
    }
}

impl PartialEq for FsPath {
    ghost eq = { pointwise (pointwise nat_eq) };

    ghost laws = { Cmp.partial_equiv_from_equiv (lists_equiv nat_list_eq_equiv) };

    fn eq(&self, other: &Self) -> bool {
        self.names.as_slice() == other.names.as_slice()
    }
}

impl Eq for FsPath {
    ghost laws = { lists_equiv nat_list_eq_equiv };
}

impl PartialOrd for FsPath {
    ghost partial_cmp = { as_partial_cmp (slice_cmp (slice_cmp nat_cmp)) };

    ghost laws = { Cmp.po (lists_total nat_list_cmp_total) (lists_ties (slice_cmp nat_cmp) texts_ties) };

    fn partial_cmp(&self, other: &Self) -> Option<Ordering> {
        Some(self.cmp(other))
    }
}

impl Ord for FsPath {
    ghost cmp = { slice_cmp (slice_cmp nat_cmp) };

    ghost total = { lists_total nat_list_cmp_total };

    ghost matches_partial_cmp = { Prim.search (comparing, rules) };

    ghost matches_eq = { lists_ties (slice_cmp nat_cmp) texts_ties };

    fn cmp(&self, other: &Self) -> Ordering {
        self.names.as_slice().cmp(other.names.as_slice())
    }
}
