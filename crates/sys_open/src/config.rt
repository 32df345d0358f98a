//! The configuration that a disk has.
ghost use Rattle.std.specs.Prelude.{◌≡◌, Some};
ghost use Rattle.fs_trait.specs.View.{View};
ghost use Rattle.fs_trait.specs.Effect.{IsQuiet};
ghost use Rattle.fs_trait.specs.Seen.{shows};
ghost use Rattle.repo_layout.specs.Paths.{config_path};
ghost use Rattle.sys_open.specs.declared.fault.Why.TheVariants.{BadConfig};
ghost use Rattle.sys_open.specs.Damages.{HasConfig, ShowsConfig};
ghost use Rattle.sys_open.specs.Faults.{HasReason};
ghost use Rattle.sys_open.specs.Walk.{IsFileAt, Looked};

use crate::fault::{OpenFault, Why, damaged};
use crate::refs::{bytes_at, node_at};
use fs_trait::{Fs, Node};
use ost_types::FsPath;
use repo_config::{CONFIG_LIMIT, is_config};
use repo_layout::config_path;
use std::alloc::Global;

/// Looks at the configuration: there is none yet, or a regular file that is one. One that is too long for one isn't read.
pub fn check_config<F: Fs>(alloc: Global, fs: &mut F) -> Result<(), OpenFault>
    ensures told { (v : View) → F.view fs.old ≡ Some v → Looked (HasConfig v.now) BadConfig config_path result }
    ensures quiet { IsQuiet (F.clock fs.old) (F.clock fs.new) (F.was fs.old) (F.was fs.new) (F.view fs.old) (F.view fs.new) }
    ensures reason { HasReason (F.faults fs.old) (F.faults fs.new) result }
{
    let at = config_path(alloc)?;
    match node_at(fs, &at)? {
        None => Ok(()),
        Some(Node::Folder(_)) => Err(damaged(&at, Why::BadConfig)),
        Some(Node::Link { .. }) => Err(damaged(&at, Why::BadConfig)),
        Some(Node::File { len, .. }) => {
            if len > CONFIG_LIMIT as u64 {
                return Err(damaged(&at, Why::BadConfig));
            }
            check_text(alloc, fs, &at)
        }
    }
}

fn check_text<F: Fs>(alloc: Global, fs: &mut F, at: &FsPath) -> Result<(), OpenFault>
    requires { (v : View) → F.view fs.old ≡ Some v → IsFileAt v.now at.now }
    ensures told { (v : View) → F.view fs.old ≡ Some v → Looked (ShowsConfig (shows v.now at.now)) BadConfig at.now result }
    ensures quiet { IsQuiet (F.clock fs.old) (F.clock fs.new) (F.was fs.old) (F.was fs.new) (F.view fs.old) (F.view fs.new) }
    ensures reason { HasReason (F.faults fs.old) (F.faults fs.new) result }
{
    let bytes = bytes_at(fs, at)?;
    if is_config(alloc, bytes.as_slice())? {
        Ok(())
    } else {
        Err(damaged(at, Why::BadConfig))
    }
}
