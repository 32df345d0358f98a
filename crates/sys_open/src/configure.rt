//! The configuration is written where there is none.
ghost use Rattle.std.specs.Prelude.{◌≡◌, ◌≤◌, Some, OnOk, IfOk, IfErr, true};
ghost use Rattle.ost_types.specs.Mode.{IsFileMode};
ghost use Rattle.ost_types.specs.Path.{Path};
ghost use Rattle.fs_trait.specs.View.{View};
ghost use Rattle.fs_trait.specs.Image.{is_folder, Told};
ghost use Rattle.fs_trait.specs.Seen.{Vacant, shows};
ghost use Rattle.fs_trait.specs.Effect.{HasCause, OfPlacing};
ghost use Rattle.repo_layout.specs.declared.folder.Folder as layout;
ghost use Rattle.repo_layout.specs.Paths.{config_path, folder_path};
ghost use Rattle.layout_rules.specs.Checks.{Asks, Staging};
ghost use Rattle.staged_file.specs.Steps.{IsFileWith, Needs};
ghost use Rattle.staged_file.specs.Whole.{Stops};
ghost use Rattle.sys_open.specs.Changes as changes;
ghost use Rattle.sys_open.specs.Changes.{Configures, Puts, Works, of_config};
ghost use Rattle.sys_open.specs.Damages.{HasConfig, ShowsConfig};
ghost use Rattle.sys_open.specs.Faults.{HasReason, IsInterruption};

use crate::barrier::barrier;
use crate::fault::{OpenFault, refused};
use crate::stages::clear_stage;
use fs_trait::{Fs, FsErr, Need};
use ost_types::{Bytes, FsPath, Meta, NoMemory, Xattrs};
use ref_room::{Stands, look_at};
use repo_config::config_text;
use repo_layout::{Folder, config_path, folder_path, stage_path};
use staged_file::{Phase, Plan, StagedFile};
use std::alloc::Global;

/// Writes the configuration where there is none: it is staged, synced and renamed into its place.
pub fn configure<F: Fs>(alloc: Global, fs: &mut F) -> Result<(), OpenFault>
    requires config { (v : View) → F.view fs.old ≡ Some v → HasConfig v.now }
    requires folders { (v : View) → F.view fs.old ≡ Some v → (f : layout.Folder) → is_folder (v.now.at (folder_path f)) ≡ true }
    requires staging { (v : View) → F.view fs.old ≡ Some v → (p : Path) → Asks Staging v.now p }
    ensures works { (v : View) → F.view fs.old ≡ Some v → Works (Configures v.now) v (F.clock fs.old) (F.clock fs.new) (F.was fs.old) (F.was fs.new) (F.view fs.new) }
    ensures there { (v : View) → F.view fs.old ≡ Some v → OnOk result (Told (F.view fs.new) (λ w. ShowsConfig (shows w.now config_path))) }
    ensures fails { (v : View) → F.view fs.old ≡ Some v → IfErr result IsInterruption }
    ensures later { F.clock fs.old ≤ F.clock fs.new }
    ensures reason { HasReason (F.faults fs.old) (F.faults fs.new) result }
{
    let at = config_path(alloc)?;
    match look_at(fs, &at) {
        Ok(Stands::Nothing) => write_config(alloc, fs, at),
        Ok(Stands::Leaf) => Ok(()),
        Ok(Stands::Folder) => Ok(()),
        Err(error) => Err(refused(&at, error)),
    }
}

fn write_config<F: Fs>(alloc: Global, fs: &mut F, at: FsPath) -> Result<(), OpenFault>
    requires at { at ≡ config_path }
    requires none { (v : View) → F.view fs.old ≡ Some v → shows v.now config_path ≡ Vacant }
    requires folders { (v : View) → F.view fs.old ≡ Some v → (f : layout.Folder) → is_folder (v.now.at (folder_path f)) ≡ true }
    requires staging { (v : View) → F.view fs.old ≡ Some v → (p : Path) → Asks Staging v.now p }
    ensures works { (v : View) → F.view fs.old ≡ Some v → Works (Configures v.now) v (F.clock fs.old) (F.clock fs.new) (F.was fs.old) (F.was fs.new) (F.view fs.new) }
    ensures there { (v : View) → F.view fs.old ≡ Some v → OnOk result (Told (F.view fs.new) (λ w. ShowsConfig (shows w.now config_path))) }
    ensures fails { (v : View) → F.view fs.old ≡ Some v → IfErr result IsInterruption }
    ensures later { F.clock fs.old ≤ F.clock fs.new }
    ensures reason { HasReason (F.faults fs.old) (F.faults fs.new) result }
{
    let task = new_config(alloc, at)?;
    clear_stage(alloc, fs, 0)?;
    barrier(alloc, fs)?;
    match put(fs, task) {
        Ok(()) => Ok(()),
        Err(error) => Err(refused(&FsPath::root(alloc), error)),
    }
}

// the file that is to come
fn new_config(alloc: Global, at: FsPath) -> Result<StagedFile, NoMemory>
    requires { at ≡ config_path }
    ensures { IfOk result (λ t. t ≡ of_config) }
{
    Ok(StagedFile::new(Plan {
        stage: stage_path(alloc, 0)?,
        folder: folder_path(alloc, Folder::Repo)?,
        at,
        meta: file_meta(alloc),
        bytes: Bytes::from_slice(alloc, config_text())?,
        lock: Need::Nothing,
    }))
}

fn file_meta(alloc: Global) -> Meta
    ensures value { result ≡ changes.file_meta }
    ensures mode { IsFileMode result.mode }
{
    Meta {
        uid: 0,
        gid: 0,
        mode: 0o100644,
        xattrs: Xattrs::new(alloc),
    }
}

// makes the file, a step at a time
fn put<F: Fs>(fs: &mut F, task: StagedFile) -> Result<(), FsErr>
    requires { (v : View) → F.view fs.old ≡ Some v → Needs task v }
    ensures works { (v : View) → F.view fs.old ≡ Some v → Works (Puts task.stage task.at task.meta task.bytes) v (F.clock fs.old) (F.clock fs.new) (F.was fs.old) (F.was fs.new) (F.view fs.new) }
    ensures there { (v : View) → F.view fs.old ≡ Some v → OnOk result (Told (F.view fs.new) (λ w. IsFileWith task.meta task.bytes (shows w.now task.at))) }
    ensures fails { (v : View) → F.view fs.old ≡ Some v → IfErr result (Stops task v) }
    ensures named { IfErr result OfPlacing }
    ensures later { F.clock fs.old ≤ F.clock fs.new }
    ensures cause { HasCause (F.faults fs.old) (F.faults fs.new) result }
{
    let mut task = task;
    while task.phase() != Phase::Ended {
        task.step(fs)?;
    }
    Ok(())
}
