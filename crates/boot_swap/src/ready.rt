//! What the steps of a swap make ready.
ghost use Rattle.std.specs.Prelude.{◌≡◌, ◌↔◌, IfOk, IsTrue};
ghost use Rattle.repo_layout.specs.declared.fixed.Version.TheVariants as numbered;
ghost use Rattle.repo_layout.specs.Fixed.{number};
ghost use Rattle.folder_build.specs.Link.{begun};
ghost use Rattle.repo_layout.specs.BootPaths.{boot_link_path, boot_link_stage_path, loader_path, loader_stage_path};
ghost use Rattle.boot_model.specs.Entries.{boot_target, loader_target};
ghost use Rattle.boot_swap.specs.Ready.{IsLinkOf, IsOther};

use boot_model::boot_target;
use boot_plan::{boot_link_stage_path, boot_text, loader_path, loader_stage_path, loader_text};
use folder_build::LinkTask;
use fs_trait::Node;
use ost_types::NoMemory;
use repo_layout::{Fixed, Version, fixed_path};
use std::alloc::Global;

/// Puts the link of a version in its place, which then names a sub-version.
pub(crate) fn version_link(
    alloc: Global,
    version: Version,
    sub: Version,
) -> Result<LinkTask, NoMemory>
    ensures { IfOk result (λ l. l ≡ begun boot_link_stage_path (boot_link_path (number version)) (boot_target (number version) (number sub))) }
{
    let stage = boot_link_stage_path(alloc)?;
    let at = fixed_path(alloc, Fixed::BootLink(version))?;
    let target = boot_text(alloc, version, sub)?;
    LinkTask::new(alloc, stage, at, target)
}

/// Puts the boot loader's link in its place, which then selects a version.
pub(crate) fn loader_link(alloc: Global, version: Version) -> Result<LinkTask, NoMemory>
    ensures { IfOk result (λ l. l ≡ begun loader_stage_path loader_path (loader_target (number version))) }
{
    let stage = loader_stage_path(alloc)?;
    let at = loader_path(alloc)?;
    let target = loader_text(alloc, version)?;
    LinkTask::new(alloc, stage, at, target)
}

/// The sub-version that a version's link doesn't name: the first where it names none.
pub(crate) fn other_sub(version: Version, node: &Option<Node>) -> Version
    ensures { IsOther version node.now result }
{
    if names_zero(version, node) {
        Version::One
    } else {
        Version::Zero
    }
}

// whether what stands at the link of a version names its first sub-version
fn names_zero(version: Version, node: &Option<Node>) -> bool
    ensures { IsTrue result ↔ IsLinkOf version numbered.Zero node.now }
{
    match node {
        Some(Node::Link { meta: _, target }) => {
            target.as_slice() == boot_target(version, Version::Zero)
        }
        _ => false,
    }
}
