//! The parts of a text that names a stateroot, a sum and a number.
ghost use Rattle.std.specs.Prelude.{◌<◌, MatchOption};
ghost use Rattle.boot_words.specs.Parts.{AreNoParts, AreParts};

use crate::numbered::read_numbered;
use crate::split::split_at_byte;
use ost_types::Csum;

#[derive(Drop)]
pub(crate) struct Parts<'a> {
    pub os: &'a [u8],
    pub sum: Csum,
    pub number: u32,
}

/// The parts behind the front: what stands before a `/`, and behind it and the middle a sum and a number.
pub(crate) fn read_parts<'a>(
    text: &'a [u8],
    front: &[u8],
    middle: &[u8],
    mark: u8,
) -> Option<Parts<'a>>
    requires { mark < 48 }
    ensures { MatchOption result (AreNoParts text.now front.now middle.now mark) (λ p. AreParts text.now front.now middle.now mark p.os.now p.sum p.number) }
{
    let rest = text.strip_prefix(front)?;
    let (os, behind) = split_at_byte(rest, b'/')?;
    let last = behind.strip_prefix(middle)?;
    let numbered = read_numbered(last, mark)?;
    Some(Parts {
        os,
        sum: numbered.sum,
        number: numbered.number,
    })
}
