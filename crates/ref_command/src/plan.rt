ghost use Rattle.std.specs.Prelude.{◌≡◌, ◌<◌, ◌≤◌, Some, None, IfOk, length};
ghost use Rattle.repo_layout.specs.RefFile.{IsSum};
ghost use Rattle.repo_layout.specs.RefName.{parts_of};
ghost use Rattle.ref_store.specs.declared.phase.Phase.TheVariants as phase;

use crate::RefWork;
use ost_types::{Csum, NoMemory, TryCopy};
use repo_layout::RefName;
use std::alloc::Global;

/// The change of a ref that follows a look-up.
#[derive(Drop, Debug)]
pub struct Plan {
    alloc: Global,
    lane: u8,
    name: RefName,
    seen: Option<Csum>,
    commit: Csum,
    ghost few: { lane < 16 },
    ghost parts: { length (parts_of name) ≤ 12 },
    ghost sum: { IsSum commit },
}

impl Plan {
    pub(crate) fn new(
        alloc: Global,
        lane: u8,
        name: RefName,
        seen: Option<Csum>,
        commit: Csum,
    ) -> Plan
        requires { lane < 16 }
        ensures lane { result.lane ≡ lane }
        ensures name { result.name ≡ name }
        ensures seen { result.seen ≡ seen }
        ensures commit { result.commit ≡ commit }
    {
        let _text = name.as_slice();
        let _bytes = commit.as_slice();
        Plan {
            alloc,
            lane,
            name,
            seen,
            commit,
        }
    }

    /// The change at its beginning.
    pub(crate) fn work(&self) -> Result<RefWork, NoMemory>
        ensures { IfOk result (λ w. w ≡ record { task = record { actor = self.now.lane; name = self.now.name; seen = self.now.seen; value = Some self.now.commit; phase = phase.Look }; answer = None }) }
    {
        let name = self.name.copy()?;
        Ok(RefWork::set(self.alloc, self.lane, name, self.seen, self.commit))
    }
}
