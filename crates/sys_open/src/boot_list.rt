//! The list of deployments that a disk boots (OSTree manual, "Deployments").
ghost use Rattle.std.specs.Prelude.{◌≡◌, Some, IfOk};
ghost use Rattle.ost_types.specs.declared.limits.Limits.{Limits as Bounds};
ghost use Rattle.fs_trait.specs.View.{View};
ghost use Rattle.fs_trait.specs.Effect.{IsQuiet};
ghost use Rattle.boot_read.specs.Rows.{AreRowsOf};
ghost use Rattle.sys_open.specs.Damages.{BootList};
ghost use Rattle.sys_open.specs.Faults.{HasReason};
ghost use Rattle.sys_open.specs.Opening.{ToldBy};
ghost use Rattle.sys_open.specs.Stored.{IsListFault};

use crate::fault::{OpenFault, Why, refused};
use boot_read::{BootRow, ListFault, read_list};
use fs_trait::Fs;
use ost_types::FsPath;
use std::alloc::Global;

/// One more than a list may have.
const TOO_MANY: u64 = 9;

/// The rows of the list, the one that boots first coming first.
pub fn read_boot_list<F: Fs>(alloc: Global, fs: &mut F) -> Result<Vec<BootRow>, OpenFault>
    ensures told { (v : View) (limits : Bounds) → F.view fs.old ≡ Some v → ToldBy BootList limits v.now result }
    ensures rows { (v : View) → F.view fs.old ≡ Some v → IfOk result (λ rows. AreRowsOf v.now rows.items) }
    ensures quiet { IsQuiet (F.clock fs.old) (F.clock fs.new) (F.was fs.old) (F.was fs.new) (F.view fs.old) (F.view fs.new) }
    ensures reason { HasReason (F.faults fs.old) (F.faults fs.new) result }
{
    match read_list(alloc, fs) {
        Ok(rows) => Ok(rows),
        Err(fault) => Err(of_list(alloc, fault)),
    }
}

// what is told of the list
fn of_list(alloc: Global, fault: ListFault) -> OpenFault
    ensures { IsListFault fault result }
{
    match fault {
        ListFault::BadLink(at) => OpenFault::Damaged(at, Why::BadLink),
        ListFault::TooMany(at) => OpenFault::Damaged(at, Why::TooMany(TOO_MANY)),
        ListFault::BadEntry(at, fault) => OpenFault::Damaged(at, Why::BadEntry(fault)),
        ListFault::NoDeployment(at) => OpenFault::Damaged(at, Why::NoDeployment),
        ListFault::Fs(error) => refused(&FsPath::root(alloc), error),
        ListFault::NoMemory => OpenFault::NoMemory,
    }
}
