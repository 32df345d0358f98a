//! What a field names.
ghost use Rattle.std.specs.Prelude.{◌≡◌, ℕ, List, Some, IfOk, IfSome, MatchOption};
ghost use Rattle.ost_types.specs.Csum.{hex_of};
ghost use Rattle.repo_layout.specs.RefFile.{IsSum};
ghost use Rattle.script.specs.Words.{IsBranch, IsCommit, IsRev};
ghost use Rattle.script.specs.declared.command.Rev.{Rev};

use crate::command::Rev;
use crate::field::read_field;
use ost_types::{Csum, NoMemory};
use repo_layout::RefName;
use std::alloc::Global;

/// The ref that a field names.
pub fn read_branch(alloc: Global, field: &[u8]) -> Result<Option<RefName>, NoMemory>
    ensures { IfOk result (λ o. MatchOption o ((name : List ℕ) → ¬ (IsBranch field.now name)) (IsBranch field.now)) }
{
    match read_field(alloc, field)? {
        Some(value) => RefName::parse(alloc, value.as_slice()),
        None => Ok(None),
    }
}

/// The commit whose digits a field has.
pub fn read_commit(alloc: Global, field: &[u8]) -> Result<Option<Csum>, NoMemory>
    ensures { IfOk result (λ o. MatchOption o ((sum : List ℕ) → ¬ (IsCommit field.now sum)) (IsCommit field.now)) }
{
    match read_field(alloc, field)? {
        Some(value) => Ok(read_sum(value.as_slice())),
        None => Ok(None),
    }
}

fn read_sum(digits: &[u8]) -> Option<Csum>
    ensures whole { IfSome result IsSum }
    ensures value { IfSome result (λ c. hex_of c ≡ digits.now) }
    ensures back { (sum : List ℕ) → IsSum sum → digits.now ≡ hex_of sum → result ≡ Some sum }
{
    Csum::from_hex(digits)
}

/// The ref or the commit that a field names. 64 digits are always a commit's.
pub fn read_rev(alloc: Global, field: &[u8]) -> Result<Option<Rev>, NoMemory>
    ensures { IfOk result (λ o. MatchOption o ((rev : Rev) → ¬ (IsRev field.now rev)) (IsRev field.now)) }
{
    if let Some(commit) = read_commit(alloc, field)? {
        return Ok(Some(Rev::Commit(commit)));
    }
    match read_branch(alloc, field)? {
        Some(name) => Ok(Some(Rev::Ref(name))),
        None => Ok(None),
    }
}
