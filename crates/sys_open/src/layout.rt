//! The folders that are there from the beginning are made where nothing stands.
ghost use Rattle.std.specs.Prelude.{◌≡◌, ◌≤◌, Some, OnOk, IfErr, true};
ghost use Rattle.fs_trait.specs.View.{View};
ghost use Rattle.fs_trait.specs.Image.{is_folder, Told};
ghost use Rattle.repo_layout.specs.declared.folder.Folder as layout;
ghost use Rattle.repo_layout.specs.Paths.{folder_path};
ghost use Rattle.sys_open.specs.Faults.{HasReason, IsInterruption};
ghost use Rattle.layout_rules.specs.declared.rule.Rule.TheVariants.{FolderOrNothing};
ghost use Rattle.layout_rules.specs.Checks.{Suits};
ghost use Rattle.sys_open.specs.Folders.{HasParent, IsFree, all_folders};
ghost use Rattle.sys_open.specs.Changes.{Lays, Works};

use crate::fault::{OpenFault, refused};
use fs_trait::{Fs, FsErr};
use ost_types::FsPath;
use ref_room::{Stands, folder_meta, look_at};
use repo_layout::{Folder, folder_path};
use std::alloc::Global;

/// The folders that are there from the beginning, each after the one that it is in.
fn folders() -> &'static [Folder]
    ensures { result.now ≡ all_folders }
{
    &[
        Folder::Boot,
        Folder::Kernels,
        Folder::Checkouts,
        Folder::Ostree,
        Folder::Deploy,
        Folder::Repo,
        Folder::Objects,
        Folder::Refs,
        Folder::Heads,
        Folder::State,
        Folder::Tmp,
    ]
}

/// Makes each of the folders that is absent.
pub fn lay_out<F: Fs>(alloc: Global, fs: &mut F) -> Result<(), OpenFault>
    requires { (v : View) → F.view fs.old ≡ Some v → (f : layout.Folder) → Suits FolderOrNothing (v.now.at (folder_path f)) }
    ensures works { (v : View) → F.view fs.old ≡ Some v → Works (Lays v.now) v (F.clock fs.old) (F.clock fs.new) (F.was fs.old) (F.was fs.new) (F.view fs.new) }
    ensures laid { (v : View) → F.view fs.old ≡ Some v → OnOk result (Told (F.view fs.new) (λ w. (f : layout.Folder) → is_folder (w.now.at (folder_path f)) ≡ true)) }
    ensures fails { (v : View) → F.view fs.old ≡ Some v → IfErr result IsInterruption }
    ensures later { F.clock fs.old ≤ F.clock fs.new }
    ensures reason { HasReason (F.faults fs.old) (F.faults fs.new) result }
{
    for folder in folders() {
        lay(alloc, fs, *folder)?;
    }
    Ok(())
}

fn lay<F: Fs>(alloc: Global, fs: &mut F, folder: Folder) -> Result<(), OpenFault>
    requires suits { (v : View) → F.view fs.old ≡ Some v → Suits FolderOrNothing (v.now.at (folder_path folder)) }
    requires parent { (v : View) → F.view fs.old ≡ Some v → HasParent v.now folder }
    ensures works { (v : View) → F.view fs.old ≡ Some v → Works (Lays v.now) v (F.clock fs.old) (F.clock fs.new) (F.was fs.old) (F.was fs.new) (F.view fs.new) }
    ensures laid { (v : View) → F.view fs.old ≡ Some v → OnOk result (Told (F.view fs.new) (λ w. is_folder (w.now.at (folder_path folder)) ≡ true)) }
    ensures fails { (v : View) → F.view fs.old ≡ Some v → IfErr result IsInterruption }
    ensures later { F.clock fs.old ≤ F.clock fs.new }
    ensures reason { HasReason (F.faults fs.old) (F.faults fs.new) result }
{
    let at = folder_path(alloc, folder)?;
    match look_at(fs, &at) {
        Ok(Stands::Nothing) => make(alloc, fs, &at),
        Ok(Stands::Folder) => Ok(()),
        Ok(Stands::Leaf) => Err(refused(&at, FsErr::NotFolder)),
        Err(error) => Err(refused(&at, error)),
    }
}

fn make<F: Fs>(alloc: Global, fs: &mut F, at: &FsPath) -> Result<(), OpenFault>
    requires place { (f : layout.Folder) × (at.now ≡ folder_path f) }
    requires free { (v : View) → F.view fs.old ≡ Some v → IsFree v.now at.now }
    ensures works { (v : View) → F.view fs.old ≡ Some v → Works (Lays v.now) v (F.clock fs.old) (F.clock fs.new) (F.was fs.old) (F.was fs.new) (F.view fs.new) }
    ensures laid { (v : View) → F.view fs.old ≡ Some v → OnOk result (Told (F.view fs.new) (λ w. is_folder (w.now.at at.now) ≡ true)) }
    ensures fails { (v : View) → F.view fs.old ≡ Some v → IfErr result IsInterruption }
    ensures later { F.clock fs.old ≤ F.clock fs.new }
    ensures reason { HasReason (F.faults fs.old) (F.faults fs.new) result }
{
    let meta = folder_meta(alloc);
    match fs.mkdir(at, &meta) {
        Ok(()) => Ok(()),
        Err(error) => Err(refused(at, error)),
    }
}
