//! Lists of deployments that come to boot.
ghost use Rattle.std.specs.Prelude.{IfOk};
ghost use Rattle.boot_model.specs.Items.{AreItems, IsItem, IsKver};

use crate::bench::Bench;
use crate::stop::Stop;
use boot_model::{BootItem, DepId, Kernel};
use boot_swap::SwapTask;
use fs_trait::Fs;
use ost_types::{Csum, Name, Texts};
use repo_layout::OsName;
use std::alloc::Global;

#[tactic(auto, using(crate::proofs::Lists::version))]
pub fn kver(alloc: Global) -> Result<Name, Stop>
    ensures { IfOk result IsKver }
{
    Name::parse(alloc, b"6")?.ok_or(Stop::Unmade)
}

#[tactic(auto, using(crate::proofs::Lists::member))]
fn member(alloc: Global, commit: u8) -> Result<BootItem, Stop>
    ensures { IfOk result IsItem }
{
    let item = BootItem {
        id: DepId {
            os: OsName::parse(alloc, b"os")?.ok_or(Stop::Unmade)?,
            commit: Csum::from_bytes([commit; 32]),
            serial: 0,
        },
        kargs: Texts::new(alloc),
        kernel: Kernel {
            kver: kver(alloc)?,
            bootcsum: Csum::from_bytes([3; 32]),
            initramfs: false,
        },
    };
    let _os = item.id.os.as_slice();
    let _commit = item.id.commit.as_slice();
    let _bootcsum = item.kernel.bootcsum.as_slice();
    Ok(item)
}

// A list of one member, which has this commit.
#[tactic(auto, using(crate::proofs::Lists::list))]
fn list(alloc: Global, commit: u8) -> Result<Vec<BootItem>, Stop>
    ensures { IfOk result (λ items. AreItems items.items) }
{
    let member = member(alloc, commit)?;
    Ok(vec![in alloc; member]?)
}

fn swap<F: Fs>(bench: &mut Bench<F>, name: &str, commit: u8) -> Result<(), Stop> {
    let mut task = SwapTask::new(bench.alloc, list(bench.alloc, commit)?);
    bench.measure(name, &mut task)
}

/// What comes to boot, one list after the other.
pub fn swap_lists<F: Fs>(bench: &mut Bench<F>) -> Result<(), Stop> {
    bench.make_folder(b"/boot")?;
    bench.make_folder(b"/boot/ostree")?;
    bench.make_folder(b"/ostree/deploy")?;
    swap(bench, "a first list that boots", 1)?;
    swap(bench, "the same list again", 1)?;
    swap(bench, "another list", 2)?;
    swap(bench, "a third list", 4)
}
