ghost use Rattle.std.specs.Prelude.{◌≡◌, ◌↔◌, List, ℕ, IfOk, IfSome, IsSome, nat_eq};
ghost use Rattle.ost_types.specs.Text.{IsText};
ghost use Rattle.std.specs.Cmp as Cmp;
ghost use Rattle.std.specs.Cmp.Lexicographic.{pointwise};
ghost use Rattle.std.proofs.lemmas.Cmp.{nat_list_eq_equiv};

use crate::{NoMemory, TryCopy};
use std::alloc::Global;
use std::marker::Model;

/// A text: UTF-8 without the zero character.
#[derive(Drop, Debug)]
pub struct Text {
    text: String,
}

impl Model for Text {
    ghost use Rattle.std.specs.Prelude.{List, ℕ};
    ghost use Rattle.std.specs.String.{string_bytes};
    ghost use Rattle.ost_types.specs.Text.{IsText};

    ghost Value = { List ℕ };

    ghost view = { λ a. string_bytes a.text };

    ghost invariant = { λ a. IsText (string_bytes a.text) };
}

impl Text {
    /// The text that these bytes are, or None where they aren't UTF-8 or hold a zero.
    pub fn parse(alloc: Global, text: &[u8]) -> Result<Option<Text>, NoMemory>
        ensures exact { IfOk result (λ t. IsSome t ↔ IsText text.now) }
        ensures value { IfOk result (λ t. IfSome t (λ x. x ≡ text.now)) }
    {
        let Ok(utf8) = std::str::from_utf8(text) else {
            return Ok(None);
        };
        if text.contains(&0) {
            return Ok(None);
        }
        Ok(Some(Text {
            text: String::from_str(alloc, utf8)?,
        }))
    }

    pub fn as_slice(&self) -> &[u8]
        ensures value { result.now ≡ self.now }
        ensures text { IsText result.now }
    {
        self.text.as_bytes()
    }

    pub fn as_str(&self) -> &str
        ensures value { result.now ≡ self.now }
        ensures text { IsText result.now }
    {
        self.text.as_str()
    }
}

impl TryCopy for Text {
    fn copy(&self) -> Result<Text, NoMemory> {
        Ok(Text {
            text: String::from_str(*self.text.allocator(), self.text.as_str())?,
        })
    }
}

impl PartialEq for Text {
    ghost eq = { pointwise nat_eq };

    ghost laws = { Cmp.partial_equiv_from_equiv nat_list_eq_equiv };

    fn eq(&self, other: &Self) -> bool {
        self.text.as_bytes() == other.text.as_bytes()
    }
}

impl Eq for Text {
    ghost laws = { nat_list_eq_equiv };
}
