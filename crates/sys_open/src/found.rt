ghost use Rattle.std.specs.Prelude.{◌≡◌, [], Some, OnOk, IfOk};
ghost use Rattle.std.specs.BTreeMap.{Updates, IsOrdered};
ghost use Rattle.std.specs.Cmp.Lexicographic.{slice_cmp};
ghost use Rattle.std.specs.Ordering.{nat_cmp};

use ost_types::{Csum, NoMemory};
use repo_layout::RefName;
use std::alloc::Global;
use std::collections::BTreeMap;

/// The refs that were found so far, by the bytes of their names.
#[derive(Drop)]
pub struct Found {
    refs: BTreeMap<RefName, Csum>,
}

impl Found {
    pub fn new(alloc: Global) -> Found
        ensures { result.refs.entries ≡ [] }
    {
        Found {
            refs: BTreeMap::new(alloc),
        }
    }

    pub fn insert(&mut self, name: RefName, commit: Csum) -> Result<(), NoMemory>
        ensures { OnOk result (Updates (slice_cmp nat_cmp) self.old.refs self.new.refs name (Some commit)) }
    {
        self.refs.insert(name, commit)?;
        Ok(())
    }

    /// The refs, ascending by the bytes of their names.
    pub fn into_vec(self, alloc: Global) -> Result<Vec<(RefName, Csum)>, NoMemory>
        ensures items { IfOk result (λ list. list.items ≡ self.refs.entries) }
        ensures ascending { IsOrdered (slice_cmp nat_cmp) self.refs }
    {
        Ok(self.refs.into_iter().collect(alloc)?)
    }
}
