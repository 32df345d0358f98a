//! A text of a path seen as its names, each behind a `/`.
ghost use Rattle.std.specs.Prelude.{◌≡◌, ◌≢◌, ◌≤◌, ◌<◌, ◌↔◌, ◌++◌, List, ℕ, length, All, IfOk, MatchOption};
ghost use Rattle.ost_types.specs.Path.{Path, AreNames, joined, text_of};
ghost use Rattle.ost_types.specs.Split.{BeginsWithSlash, StartsName, HasNames, HasNoNames};

use crate::{Name, NoMemory, is_name};
use std::alloc::Global;

/// The text, but nothing for the root's.
pub fn without_root(text: &[u8]) -> &[u8]
    requires { BeginsWithSlash text.now }
    ensures starts { StartsName result.now }
    ensures same { (p : Path) → AreNames p → (text_of p ≡ text.now) ↔ (joined p ≡ result.now) }
{
    if text.len() == 1 { &[] } else { text }
}

/// How many names the bytes have, or None where something behind a `/` is no name.
pub fn count_names(bytes: &[u8]) -> Option<usize>
    requires { StartsName bytes.now }
    ensures { MatchOption result (HasNoNames bytes.now) (HasNames bytes.now) }
{
    let mut count = 0;
    let mut rest = bytes;
    while let Some((_, after)) = rest.split_first() {
        let (name, more) = split_name(after);
        if !is_name(name) {
            return None;
        }
        count += 1;
        rest = more;
    }
    Some(count)
}

/// The names of the bytes, in their order.
pub fn read_names(alloc: Global, bytes: &[u8]) -> Result<Vec<Name>, NoMemory>
    requires starts { StartsName bytes.now }
    requires names { (p : Path) × AreNames p × (joined p ≡ bytes.now) }
    ensures { IfOk result (λ v. AreNames v.items × (joined v.items ≡ bytes.now)) }
{
    let mut names = Vec::new(alloc);
    let mut rest = bytes;
    while let Some((_, after)) = rest.split_first() {
        let (name, more) = split_name(after);
        let Some(name) = Name::parse(alloc, name)? else {
            unreachable!()
        };
        names.push(name)?;
        rest = more;
    }
    Ok(names)
}

// The bytes before the first `/`, and those from it on.
fn split_name(bytes: &[u8]) -> (&[u8], &[u8])
    ensures whole { bytes.now ≡ result.0.now ++ result.1.now }
    ensures name { All (λ b. b ≢ 47) result.0.now }
    ensures rest { StartsName result.1.now }
{
    let end = bytes
        .iter()
        .position(|byte| *byte == b'/')
        .unwrap_or(bytes.len());
    bytes.split_at(end)
}
