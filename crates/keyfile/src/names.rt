//! Names that were met, found in a time that grows with the logarithm of their number.
ghost use Rattle.std.specs.Prelude.{◌≡◌, ℕ, List, not, true, if◌then◌else◌, IfOk, OnOk};
ghost use Rattle.ost_types.specs.Path.{same_name};
ghost use Rattle.keyfile.specs.Names.{has};

use ost_types::NoMemory;
use std::collections::BTreeSet;

/// Adds the name, and tells whether it is new.
pub fn add<'a>(names: &mut BTreeSet<&'a [u8]>, name: &'a [u8]) -> Result<bool, NoMemory>
    ensures new { IfOk result (λ new. new ≡ not (has names.old name.now)) }
    ensures all { OnOk result ((other : List ℕ) → has names.new other ≡ (if same_name name.now other then true else has names.old other)) }
{
    Ok(names.insert(name)?)
}
