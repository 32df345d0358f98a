//! A sum's digits and a number behind them.
ghost use Rattle.std.specs.Prelude.{◌≡◌, ◌<◌, ◌↔◌, IfSome, IsSome, MatchOption};
ghost use Rattle.ost_types.specs.Csum.{IsHexSum, hex_of};
ghost use Rattle.repo_layout.specs.RefFile.{IsSum};
ghost use Rattle.boot_words.specs.Parts.{IsNotNumbered, IsNumbered};

use crate::number::read_number;
use crate::split::split_at_byte;
use ost_types::Csum;

#[derive(Clone, Copy)]
pub(crate) struct Numbered {
    pub sum: Csum,
    pub number: u32,
}

/// The sum whose digits stand before the mark, and the number behind it.
pub(crate) fn read_numbered(text: &[u8], mark: u8) -> Option<Numbered>
    requires { mark < 48 }
    ensures { MatchOption result (IsNotNumbered text.now mark) (λ r. IsNumbered text.now mark r.sum r.number) }
{
    let (digits, behind) = split_at_byte(text, mark)?;
    let sum = read_sum(digits)?;
    let number = read_number(behind)?;
    Some(Numbered { sum, number })
}

fn read_sum(digits: &[u8]) -> Option<Csum>
    ensures exact { IsSome result ↔ IsHexSum digits.now }
    ensures value { IfSome result (λ sum. hex_of sum ≡ digits.now) }
    ensures whole { IfSome result IsSum }
{
    Csum::from_hex(digits)
}
