ghost use Rattle.std.specs.Prelude.{◌≡◌, ◌↔◌, List, ℕ, IfOk, IfSome, IsSome, IsTrue, nat_eq};
ghost use Rattle.std.specs.Cmp as Cmp;
ghost use Rattle.std.specs.Cmp.Lexicographic.{pointwise, slice_cmp};
ghost use Rattle.std.specs.Cmp.Rules.{comparing};
ghost use Rattle.std.specs.Ordering.{nat_cmp, as_partial_cmp};
ghost use Rattle.std.proofs.Common.{rules};
ghost use Rattle.std.proofs.lemmas.Cmp.{nat_list_cmp_total, nat_list_eq_equiv};
ghost use Rattle.repo_layout.specs.OsName.{IsOsName};

use crate::part::is_part;
use ost_types::{NoMemory, TryCopy};
use std::alloc::Global;
use std::cmp::Ordering;
use std::marker::Model;

/// The name of a stateroot: 1 to 64 bytes of `A-Z a-z 0-9 - _ .`, the first of them no dot.
#[derive(Drop, Debug)]
pub struct OsName {
    text: Vec<u8>,
}

impl Model for OsName {
    ghost use Rattle.std.specs.Prelude.{List, ℕ};
    ghost use Rattle.repo_layout.specs.OsName.{IsOsName};

    ghost Value = { List ℕ };

    ghost view = { λ a. a.text.items };

    ghost invariant = { λ a. IsOsName a.text.items };
}

impl OsName {
    /// The stateroot's name that these bytes are, or None where they aren't one.
    pub fn parse(alloc: Global, text: &[u8]) -> Result<Option<OsName>, NoMemory>
        ensures exact { IfOk result (λ n. IsSome n ↔ IsOsName text.now) }
        ensures value { IfOk result (λ n. IfSome n (λ x. x ≡ text.now)) }
    {
        if !is_os_name(text) {
            return Ok(None);
        }
        Ok(Some(OsName {
            text: Vec::from_slice(alloc, text)?,
        }))
    }

    pub fn as_slice(&self) -> &[u8]
        ensures value { result.now ≡ self.now }
        ensures name { IsOsName result.now }
    {
        &self.text
    }
}

fn is_os_name(text: &[u8]) -> bool
    ensures { IsTrue result ↔ IsOsName text.now }
{
    text.len() <= 64 && is_part(text)
}

impl TryCopy for OsName {
    fn copy(&self) -> Result<OsName, NoMemory> {
        Ok(OsName {
            text: Vec::from_slice(*self.text.allocator(), &self.text)?,
        })
    }
}

impl PartialEq for OsName {
    ghost eq = { pointwise nat_eq };

    ghost laws = { Cmp.partial_equiv_from_equiv nat_list_eq_equiv };

    fn eq(&self, other: &Self) -> bool {
        self.text.as_slice() == other.text.as_slice()
    }
}

impl Eq for OsName {
    ghost laws = { nat_list_eq_equiv };
}

impl PartialOrd for OsName {
    ghost partial_cmp = { as_partial_cmp (slice_cmp nat_cmp) };

    ghost laws = { Cmp.partial_order_from_own_ties (Prim.search (comparing, rules)) (Prim.search (comparing, rules)) };

    fn partial_cmp(&self, other: &Self) -> Option<Ordering> {
        Some(self.cmp(other))
    }
}

impl Ord for OsName {
    ghost cmp = { slice_cmp nat_cmp };

    ghost total = { nat_list_cmp_total };

    ghost matches_partial_cmp = { Prim.search (comparing, rules) };

    ghost matches_eq = { Prim.search (comparing, rules) };

    fn cmp(&self, other: &Self) -> Ordering {
        self.text.as_slice().cmp(other.text.as_slice())
    }
}
