ghost use Rattle.std.specs.Prelude.{◌≡◌, ◌↔◌, ◌≤◌, ◌==◌, List, ℕ, length, All, IfOk, IfSome, IsSome, IsTrue, count_by, nat_eq};
ghost use Rattle.std.specs.Cmp as Cmp;
ghost use Rattle.std.specs.Cmp.Lexicographic.{pointwise, slice_cmp};
ghost use Rattle.std.specs.Cmp.Rules.{comparing};
ghost use Rattle.std.specs.Ordering.{nat_cmp, as_partial_cmp};
ghost use Rattle.std.proofs.Common.{rules};
ghost use Rattle.std.proofs.lemmas.Cmp.{nat_list_cmp_total, nat_list_eq_equiv};
ghost use Rattle.repo_layout.specs.RefName.{IsPart, IsRefName, parts_of};

use crate::part::is_part;
use ost_types::{Csum, NoMemory, TryCopy};
use std::alloc::Global;
use std::cmp::Ordering;
use std::marker::Model;

/// The name of a ref: 1 to 12 parts of `A-Z a-z 0-9 - _ .` that don't begin with a dot, joined by `/`, at most
/// 255 bytes in all. 64 digits always mean a commit and are no ref's name.
#[derive(Drop, Debug)]
pub struct RefName {
    text: Vec<u8>,
}

impl Model for RefName {
    ghost use Rattle.std.specs.Prelude.{List, ℕ};
    ghost use Rattle.repo_layout.specs.RefName.{IsRefName};

    ghost Value = { List ℕ };

    ghost view = { λ a. a.text.items };

    ghost invariant = { λ a. IsRefName a.text.items };
}

impl RefName {
    /// The ref's name that these bytes are, or None where they aren't one.
    pub fn parse(alloc: Global, text: &[u8]) -> Result<Option<RefName>, NoMemory>
        ensures exact { IfOk result (λ n. IsSome n ↔ IsRefName text.now) }
        ensures value { IfOk result (λ n. IfSome n (λ x. x ≡ text.now)) }
    {
        if !is_ref_name(text) {
            return Ok(None);
        }
        Ok(Some(RefName {
            text: Vec::from_slice(alloc, text)?,
        }))
    }

    pub fn as_slice(&self) -> &[u8]
        ensures value { result.now ≡ self.now }
        ensures name { IsRefName result.now }
    {
        &self.text
    }
}

fn is_ref_name(text: &[u8]) -> bool
    ensures { IsTrue result ↔ IsRefName text.now }
{
    text.len() <= 255 && Csum::from_hex(text).is_none() && has_few_parts(text) && are_parts(text)
}

fn has_few_parts(text: &[u8]) -> bool
    ensures { IsTrue result ↔ (length (parts_of text.now) ≤ 12) }
{
    count_slashes(text) < 12
}

fn count_slashes(text: &[u8]) -> usize
    ensures { result ≡ count_by (λ b. b == 47) text.now }
{
    text.iter().filter(|byte| **byte == b'/').count()
}

fn are_parts(text: &[u8]) -> bool
    ensures { IsTrue result ↔ All IsPart (parts_of text.now) }
{
    text.split(|byte| *byte == b'/').all(|part| is_part(part))
}

impl TryCopy for RefName {
    fn copy(&self) -> Result<RefName, NoMemory> {
        Ok(RefName {
            text: Vec::from_slice(*self.text.allocator(), &self.text)?,
        })
    }
}

impl PartialEq for RefName {
    ghost eq = { pointwise nat_eq };

    ghost laws = { Cmp.partial_equiv_from_equiv nat_list_eq_equiv };

    fn eq(&self, other: &Self) -> bool {
        self.text.as_slice() == other.text.as_slice()
    }
}

impl Eq for RefName {
    ghost laws = { nat_list_eq_equiv };
}

impl PartialOrd for RefName {
    ghost partial_cmp = { as_partial_cmp (slice_cmp nat_cmp) };

    ghost laws = { Cmp.partial_order_from_own_ties (Prim.search (comparing, rules)) (Prim.search (comparing, rules)) };

    fn partial_cmp(&self, other: &Self) -> Option<Ordering> {
        Some(self.cmp(other))
    }
}

impl Ord for RefName {
    ghost cmp = { slice_cmp nat_cmp };

    ghost total = { nat_list_cmp_total };

    ghost matches_partial_cmp = { Prim.search (comparing, rules) };

    ghost matches_eq = { Prim.search (comparing, rules) };

    fn cmp(&self, other: &Self) -> Ordering {
        self.text.as_slice().cmp(other.text.as_slice())
    }
}
