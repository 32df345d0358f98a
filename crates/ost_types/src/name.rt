ghost use Rattle.std.specs.Prelude.{◌≡◌, ◌↔◌, List, ℕ, length, IfOk, IfSome, IsSome, IsTrue, nat_eq};
ghost use Rattle.std.specs.Cmp as Cmp;
ghost use Rattle.std.specs.Cmp.Lexicographic.{pointwise, slice_cmp};
ghost use Rattle.std.specs.Cmp.Rules.{comparing};
ghost use Rattle.std.specs.Ordering.{nat_cmp, as_partial_cmp};
ghost use Rattle.std.proofs.Common.{rules};
ghost use Rattle.std.proofs.lemmas.Cmp.{nat_list_cmp_total, nat_list_eq_equiv};
ghost use Rattle.ost_types.specs.Text.{IsName};

use crate::{NoMemory, TryCopy};
use std::alloc::Global;
use std::cmp::Ordering;
use std::marker::Model;

/// The name of a node in its folder: 1 to 255 bytes of UTF-8 without `/` and zero, and neither `.` nor `..`.
#[derive(Drop, Debug)]
pub struct Name {
    text: String,
}

impl Model for Name {
    ghost use Rattle.std.specs.Prelude.{List, ℕ};
    ghost use Rattle.std.specs.String.{string_bytes};
    ghost use Rattle.ost_types.specs.Text.{IsName};

    ghost Value = { List ℕ };

    ghost view = { λ a. string_bytes a.text };

    ghost invariant = { λ a. IsName (string_bytes a.text) };
}

/// Whether these bytes are the name of a node.
pub fn is_name(text: &[u8]) -> bool
    ensures { IsTrue result ↔ IsName text.now }
{
    !text.is_empty()
        && text != b".".as_slice()
        && text != b"..".as_slice()
        && text.len() <= 255
        && !text.contains(&b'/')
        && !text.contains(&0)
        && std::str::from_utf8(text).is_ok()
}

impl Name {
    /// The name that these bytes are, or None where they aren't one.
    pub fn parse(alloc: Global, text: &[u8]) -> Result<Option<Name>, NoMemory>
        ensures exact { IfOk result (λ n. IsSome n ↔ IsName text.now) }
        ensures value { IfOk result (λ n. IfSome n (λ x. x ≡ text.now)) }
    {
        if !is_name(text) {
            return Ok(None);
        }
        match std::str::from_utf8(text) {
            Ok(utf8) => Ok(Some(Name {
                text: String::from_str(alloc, utf8)?,
            })),
            Err(_) => Ok(None),
        }
    }

    pub fn as_slice(&self) -> &[u8]
        ensures value { result.now ≡ self.now }
        ensures name { IsName result.now }
    {
        self.text.as_bytes()
    }

    pub fn as_str(&self) -> &str
        ensures value { result.now ≡ self.now }
        ensures name { IsName result.now }
    {
        self.text.as_str()
    }
}

impl TryCopy for Name {
    fn copy(&self) -> Result<Name, NoMemory> {
        Ok(Name {
            text: String::from_str(*self.text.allocator(), self.text.as_str())?,
        })
    }
}

impl PartialEq for Name {
    ghost eq = { pointwise nat_eq };

    ghost laws = { Cmp.partial_equiv_from_equiv nat_list_eq_equiv };

    fn eq(&self, other: &Self) -> bool {
        self.text.as_bytes() == other.text.as_bytes()
    }
}

impl Eq for Name {
    ghost laws = { nat_list_eq_equiv };
}

impl PartialOrd for Name {
    ghost partial_cmp = { as_partial_cmp (slice_cmp nat_cmp) };

    ghost laws = { Cmp.partial_order_from_own_ties (Prim.search (comparing, rules)) (Prim.search (comparing, rules)) };

    fn partial_cmp(&self, other: &Self) -> Option<Ordering> {
        Some(self.cmp(other))
    }
}

impl Ord for Name {
    ghost cmp = { slice_cmp nat_cmp };

    ghost total = { nat_list_cmp_total };

    ghost matches_partial_cmp = { Prim.search (comparing, rules) };

    ghost matches_eq = { Prim.search (comparing, rules) };

    fn cmp(&self, other: &Self) -> Ordering {
        self.text.as_bytes().cmp(other.text.as_bytes())
    }
}
