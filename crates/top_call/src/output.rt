ghost use Rattle.std.specs.Prelude.{◌≡◌, ◌≤◌, ℕ, List, Some, OnOk, OnErr};
ghost use Rattle.fs_trait.specs.Count.{Rose};
ghost use Rattle.top_call.specs.Output.{Wrote, WroteFront};

use fs_trait::{Sink, SinkErr};

/// Writes all the bytes, in as many calls as the sink needs.
pub fn write_all<K: Sink>(out: &mut K, bytes: &[u8]) -> Result<(), SinkErr>
    ensures whole { (had : List ℕ) → K.taken out.old ≡ Some had → OnOk result (Wrote had bytes.now (K.taken out.new)) }
    ensures front { (had : List ℕ) → K.taken out.old ≡ Some had → OnErr result (WroteFront had bytes.now (K.taken out.new)) }
    ensures later { K.faults out.old ≤ K.faults out.new }
    ensures cause { OnErr result (Rose (K.faults out.old) (K.faults out.new)) }
{
    let mut at = 0;
    while at < bytes.len() {
        let taken = out.put(&bytes[at..])?;
        if taken == 0 {
            return Err(SinkErr::Failed);
        }
        at += taken;
    }
    Ok(())
}
