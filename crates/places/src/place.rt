ghost use Rattle.std.specs.Prelude.{◌≡◌, ◌≤◌, List, ℕ, [], IfOk, IsOk, nat_eq};
ghost use Rattle.std.specs.Vec.{vec_capacity};
ghost use Rattle.std.specs.Cmp as Cmp;
ghost use Rattle.std.specs.Cmp.Lexicographic.{pointwise, slice_cmp, lists_ties, texts_ties};
ghost use Rattle.std.specs.Cmp.Rules.{comparing};
ghost use Rattle.std.specs.Ordering.{nat_cmp, as_partial_cmp};
ghost use Rattle.std.proofs.Common.{rules};
ghost use Rattle.std.proofs.lemmas.Cmp.{nat_list_cmp_total, nat_list_eq_equiv, lists_total, lists_equiv};
ghost use Rattle.ost_types.specs.Path.{AreNames, IsPath};
ghost use Rattle.ost_types.specs.Flat.{flat};

use ost_types::{Name, NoMemory, TryCopy};
use std::cmp::Ordering;
use std::marker::Model;

/// A path as one run of bytes: each name with a zero behind it. The order of these runs is the order of the paths.
#[derive(Drop, Debug)]
pub struct Place {
    text: Vec<u8>,
}

impl Model for Place {
    ghost use Rattle.std.specs.Prelude.{List, ℕ};
    ghost use Rattle.ost_types.specs.Flat.{names_of};
    ghost use Rattle.places.specs.Text.{IsFlat};

    ghost Value = { List (List ℕ) };

    ghost view = { λ a. names_of a.text.items };

    ghost invariant = { λ a. IsFlat a.text.items };
}

impl Place {
    pub fn text(&self) -> &[u8]
        ensures value { result.now ≡ flat self.now }
        ensures names { AreNames self.now }
    {
        &self.text
    }

    /// Writes a path into an empty buffer. One of 2,048 bytes has room for each path.
    pub fn fill(buffer: Vec<u8>, path: &[Name]) -> Result<Place, NoMemory>
        requires empty { buffer.items ≡ [] }
        requires path { IsPath path.now }
        ensures ok { IfOk result (λ p. p ≡ path.now) }
        ensures sure { 2048 ≤ vec_capacity buffer → IsOk result }
    {
        let mut text = buffer;
        for name in path {
            text.extend_from_slice(name.as_slice())?;
            text.push(0)?;
        }
        Ok(Place { text })
    }
}

impl TryCopy for Place {
    fn copy(&self) -> Result<Place, NoMemory> {
        Ok(Place {
            text: Vec::from_slice(*self.text.allocator(), &self.text)?,
        })
    }
}

impl PartialEq for Place {
    ghost eq = { pointwise (pointwise nat_eq) };

    ghost laws = { Cmp.partial_equiv_from_equiv (lists_equiv nat_list_eq_equiv) };

    fn eq(&self, other: &Self) -> bool {
        self.text.as_slice() == other.text.as_slice()
    }
}

impl Eq for Place {
    ghost laws = { lists_equiv nat_list_eq_equiv };
}

impl PartialOrd for Place {
    ghost partial_cmp = { as_partial_cmp (slice_cmp (slice_cmp nat_cmp)) };

    ghost laws = { Cmp.po (lists_total nat_list_cmp_total) (lists_ties (slice_cmp nat_cmp) texts_ties) };

    fn partial_cmp(&self, other: &Self) -> Option<Ordering> {
        Some(self.cmp(other))
    }
}

impl Ord for Place {
    ghost cmp = { slice_cmp (slice_cmp nat_cmp) };

    ghost total = { lists_total nat_list_cmp_total };

    ghost matches_partial_cmp = { Prim.search (comparing, rules) };

    ghost matches_eq = { lists_ties (slice_cmp nat_cmp) texts_ties };

    fn cmp(&self, other: &Self) -> Ordering {
        self.text.as_slice().cmp(other.text.as_slice())
    }
}
