//! Numbers of deployments of one commit.
ghost use Rattle.std.specs.Prelude.{◌≡◌, ◌≤◌, ◌<◌, ◌+◌, ◌^◌, length};
ghost use Rattle.deploy_list.specs.Lists.{IsLeastFree, has_serial, is_id};

use crate::dep::Dep;
use boot_model::DepId;
use ost_types::Csum;
use repo_layout::OsName;

/// The least number that no listed deployment of this stateroot and commit has. There are at least so many members in the list.
pub fn serial_for(list: &[Dep], os: &OsName, commit: &Csum) -> u32
    requires { length list.now + 1 < 2 ^ 32 }
    ensures least { IsLeastFree list.now os.now commit.now result }
    ensures small { result ≤ length list.now }
{
    let mut serial = 0;
    while has_serial(list, os, commit, serial) {
        serial += 1;
    }
    serial
}

fn has_serial(list: &[Dep], os: &OsName, commit: &Csum, serial: u32) -> bool
    ensures { result ≡ has_serial list.now os.now commit.now serial }
{
    list.iter().any(|dep| is_id(&dep.id, os, commit, serial))
}

/// Whether a deployment is of this stateroot, commit and serial.
pub fn is_id(id: &DepId, os: &OsName, commit: &Csum, serial: u32) -> bool
    ensures { result ≡ is_id os.now commit.now serial id.now }
{
    id.os == *os && id.commit == *commit && id.serial == serial
}
