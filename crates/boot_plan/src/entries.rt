//! The folder of entries of a list.
ghost use Rattle.std.specs.Prelude.{◌≡◌, ◌-◌, ◌≤◌, ◌<◌, ◌∷◌, [], IfOk, length};
ghost use Rattle.repo_layout.specs.BootPaths.{loader_folder_path};
ghost use Rattle.repo_layout.specs.Fixed.{entries_path, number};
ghost use Rattle.boot_model.specs.declared.item.BootItem.{BootItem as Item};
ghost use Rattle.boot_model.specs.Items.{AreItems, IsAt};
ghost use Rattle.folder_build.specs.Build.{IsPlan};
ghost use Rattle.boot_plan.specs.Plans.{AreEntries, AreLaid, IsEntries, entry_node, entry_folders};

use crate::names::entry_name;
use boot_model::{BootItem, entry_text};
use folder_build::{BuildTask, Content, NewNode};
use ost_types::NoMemory;
use repo_layout::{Fixed, Version, fixed_path};
use std::alloc::Global;

/// The task that makes the folder of a version, with the entries of a list.
pub fn build_entries(
    alloc: Global,
    loader: Version,
    items: &[BootItem],
) -> Result<BuildTask, NoMemory>
    requires { AreItems items.now }
    ensures { IfOk result (IsEntries (number loader) items.now) }
{
    let top = fixed_path(alloc, Fixed::LoaderFolder(loader))?;
    let nodes = entry_nodes(alloc, loader, items)?;
    BuildTask::new(alloc, top, nodes)
}

fn entry_nodes(alloc: Global, loader: Version, items: &[BootItem]) -> Result<Vec<NewNode>, NoMemory>
    requires { length items.now ≤ 8 }
    ensures plan { IfOk result (λ v. IsPlan (loader_folder_path (number loader)) v.items) }
    ensures entries { IfOk result (λ v. AreEntries (number loader) items.now v.items) }
    ensures laid { IfOk result (λ v. AreLaid (loader_folder_path (number loader) ∷ entries_path (number loader) ∷ []) v.items) }
{
    let mut nodes = entry_folders(alloc, loader)?;
    for index in 0..items.len() {
        let node = entry_node(alloc, loader, items, index)?;
        nodes.push(node)?;
    }
    Ok(nodes)
}

fn entry_folders(alloc: Global, loader: Version) -> Result<Vec<NewNode>, NoMemory>
    ensures { IfOk result (λ v. v.items ≡ entry_folders (number loader)) }
{
    let mut nodes = Vec::new(alloc);
    nodes.push(NewNode {
        at: fixed_path(alloc, Fixed::LoaderFolder(loader))?,
        what: Content::Folder,
    })?;
    nodes.push(NewNode {
        at: fixed_path(alloc, Fixed::Entries(loader))?,
        what: Content::Folder,
    })?;
    Ok(nodes)
}

fn entry_node(
    alloc: Global,
    loader: Version,
    items: &[BootItem],
    index: usize,
) -> Result<NewNode, NoMemory>
    requires few { length items.now ≤ 8 }
    requires inside { index < length items.now }
    ensures { (item : Item) → IsAt items.now index item → IfOk result (λ e. e ≡ entry_node (number loader) items.now index item) }
{
    let text = entry_text(alloc, loader, items, index)?;
    let name = entry_name(alloc, items.len() - index)?;
    let at = fixed_path(alloc, Fixed::Entries(loader))?.child(&name)?;
    Ok(NewNode {
        at,
        what: Content::File(text),
    })
}
