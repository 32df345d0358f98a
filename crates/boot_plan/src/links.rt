//! The folder of links of a list.
ghost use Rattle.std.specs.Prelude.{◌≡◌, ◌≤◌, ◌<◌, ◌++◌, ◌∷◌, [], IfOk, OnOk, length};
ghost use Rattle.repo_layout.specs.BootPaths.{boot_folder_path};
ghost use Rattle.repo_layout.specs.Fixed.{number};
ghost use Rattle.boot_model.specs.declared.item.BootItem.{BootItem as Item};
ghost use Rattle.boot_model.specs.Items.{AreItems, IsAt};
ghost use Rattle.folder_build.specs.Build.{IsPlan};
ghost use Rattle.boot_model.specs.Entries.{deploy_target};
ghost use Rattle.boot_plan.specs.Plans.{AreLaid, AreLinks, IsLinks, link_nodes};

use crate::names::{known_text, link_name, os_name, sum_name};
use boot_model::{BootItem, DepId, deploy_target, link_number};
use folder_build::{BuildTask, Content, NewNode};
use ost_types::{FsPath, NoMemory, Text};
use repo_layout::{Fixed, Version, fixed_path};
use std::alloc::Global;

/// The task that makes the folder of links of a version and a sub-version, with the links of a list.
pub fn build_links(
    alloc: Global,
    version: Version,
    sub: Version,
    items: &[BootItem],
) -> Result<BuildTask, NoMemory>
    requires { AreItems items.now }
    ensures { IfOk result (IsLinks (number version) (number sub) items.now) }
{
    let top = fixed_path(alloc, Fixed::BootFolder(version, sub))?;
    let nodes = all_nodes(alloc, version, sub, items)?;
    BuildTask::new(alloc, top, nodes)
}

fn all_nodes(
    alloc: Global,
    version: Version,
    sub: Version,
    items: &[BootItem],
) -> Result<Vec<NewNode>, NoMemory>
    requires { AreItems items.now }
    ensures plan { IfOk result (λ v. IsPlan (boot_folder_path (number version) (number sub)) v.items) }
    ensures links { IfOk result (λ v. AreLinks (number version) (number sub) items.now v.items) }
    ensures laid { IfOk result (λ v. AreLaid (boot_folder_path (number version) (number sub) ∷ []) v.items) }
{
    let mut nodes = Vec::new(alloc);
    nodes.push(NewNode {
        at: fixed_path(alloc, Fixed::BootFolder(version, sub))?,
        what: Content::Folder,
    })?;
    for index in 0..items.len() {
        push_links(alloc, version, sub, items, index, &mut nodes)?;
    }
    Ok(nodes)
}

// the link of a member, with the folders that it is in
fn push_links(
    alloc: Global,
    version: Version,
    sub: Version,
    items: &[BootItem],
    index: usize,
    nodes: &mut Vec<NewNode>,
) -> Result<(), NoMemory>
    requires few { length items.now ≤ 8 }
    requires inside { index < length items.now }
    ensures { (item : Item) → IsAt items.now index item → OnOk result (nodes.new.items ≡ nodes.old.items ++ link_nodes (number version) (number sub) items.now index item) }
{
    let item = &items[index];
    let top = fixed_path(alloc, Fixed::BootFolder(version, sub))?;
    let os = top.child(&os_name(alloc, &item.id.os)?)?;
    let kernel = os.child(&sum_name(alloc, &item.kernel.bootcsum)?)?;
    let at = kernel.child(&link_name(alloc, link_number(items, index))?)?;
    let target = target_text(alloc, item)?;
    nodes.push(NewNode {
        at: os,
        what: Content::Folder,
    })?;
    nodes.push(NewNode {
        at: kernel,
        what: Content::Folder,
    })?;
    nodes.push(NewNode {
        at,
        what: Content::Link(target),
    })?;
    Ok(())
}

fn target_text(alloc: Global, item: &BootItem) -> Result<Text, NoMemory>
    ensures { IfOk result (λ t. t ≡ deploy_target item.now.id) }
{
    target_of(alloc, &item.id, item.id.serial)
}

// the serial by itself, since it is known to be small then
fn target_of(alloc: Global, id: &DepId, serial: u32) -> Result<Text, NoMemory>
    requires { serial ≡ id.now.serial }
    ensures { IfOk result (λ t. t ≡ deploy_target id.now) }
{
    let _os = id.os.as_slice();
    let _digits = id.commit.to_hex();
    known_text(alloc, deploy_target(alloc, id)?.as_slice())
}
