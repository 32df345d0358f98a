//! Which version is selected, and which folder of links it has.
ghost use Rattle.std.specs.Prelude.{◌≡◌, ◌≢◌, ◌≤◌, Some, IfErr, MatchOption, MatchResult};
ghost use Rattle.fs_trait.specs.View.{Disk, View};
ghost use Rattle.fs_trait.specs.Effect.{IsNode, IsQuiet};
ghost use Rattle.repo_layout.specs.declared.fixed.Version.{Version as Which};
ghost use Rattle.repo_layout.specs.BootPaths.{boot_link_path, loader_path};
ghost use Rattle.repo_layout.specs.Fixed.{number};
ghost use Rattle.boot_model.specs.Listing.{Selects};
ghost use Rattle.boot_read.specs.Faults.{HasCauseOf, IsFault, IsOfNoCall};
ghost use Rattle.boot_read.specs.Links.{HasSub};
ghost use Rattle.boot_read.specs.Steps.{IsNodeTo, IsSelected, either_of};

use crate::fault::ListFault;
use crate::places::loader_path;
use boot_model::{boot_target, loader_target};
use fs_trait::{Fs, Node};
use ost_types::FsPath;
use repo_layout::{Fixed, Version, fixed_path};
use std::alloc::Global;

/// The version that the boot loader's link selects; none where nothing stands there.
pub(crate) fn selected<F: Fs>(alloc: Global, fs: &mut F) -> Result<Option<Version>, ListFault>
    ensures told { (v : View) → F.view fs.old ≡ Some v → MatchResult result (IsSelected v.now) (IsFault v.now) }
    ensures quiet { IsQuiet (F.clock fs.old) (F.clock fs.new) (F.was fs.old) (F.was fs.new) (F.view fs.old) (F.view fs.new) }
    ensures room { F.spare fs.old ≤ F.spare fs.new }
    ensures cause { HasCauseOf (F.faults fs.old) (F.faults fs.new) result }
{
    let at = loader_path(alloc)?;
    let node = fs.stat(&at)?;
    match node {
        None => Ok(None),
        Some(node) => loader_version(&node, at),
    }
}

// the version that a link in the place of the boot loader's selects
fn loader_version(node: &Node, at: FsPath) -> Result<Option<Version>, ListFault>
    ensures told { (d : Disk) → IsNode d (d.at at) (Some node.now) → at ≡ loader_path → MatchResult result (IsSelected d) (IsFault d) }
    ensures no_call { IfErr result IsOfNoCall }
{
    let version = version_of(
        node,
        loader_target(Version::Zero),
        loader_target(Version::One),
    );
    match version {
        Some(version) => Ok(Some(version)),
        None => Err(ListFault::BadLink(at)),
    }
}

/// Which of the version's two folders of links its link leads to.
pub(crate) fn sub_version<F: Fs>(
    alloc: Global,
    fs: &mut F,
    loader: Version,
) -> Result<Version, ListFault>
    ensures told { (v : View) → F.view fs.old ≡ Some v → Selects v.now (number loader) → MatchResult result (λ sub. HasSub v.now (number loader) (number sub)) (IsFault v.now) }
    ensures quiet { IsQuiet (F.clock fs.old) (F.clock fs.new) (F.was fs.old) (F.was fs.new) (F.view fs.old) (F.view fs.new) }
    ensures room { F.spare fs.old ≤ F.spare fs.new }
    ensures cause { HasCauseOf (F.faults fs.old) (F.faults fs.new) result }
{
    let at = fixed_path(alloc, Fixed::BootLink(loader))?;
    let node = fs.stat(&at)?;
    match node {
        None => Err(ListFault::BadLink(at)),
        Some(node) => link_version(&node, at, loader),
    }
}

// which folder of links a link in the place of the version's leads to
fn link_version(node: &Node, at: FsPath, loader: Version) -> Result<Version, ListFault>
    ensures told { (d : Disk) → IsNode d (d.at at) (Some node.now) → at ≡ boot_link_path (number loader) → Selects d (number loader) → MatchResult result (λ sub. HasSub d (number loader) (number sub)) (IsFault d) }
    ensures no_call { IfErr result IsOfNoCall }
{
    let version = version_of(
        node,
        boot_target(loader, Version::Zero),
        boot_target(loader, Version::One),
    );
    match version {
        Some(sub) => Ok(sub),
        None => Err(ListFault::BadLink(at)),
    }
}

// which of two targets a link has
fn version_of(node: &Node, zero: &[u8], one: &[u8]) -> Option<Version>
    ensures { MatchOption result ((version : Which) → ¬ (IsNodeTo (either_of zero.now one.now version) node.now)) (λ version. IsNodeTo (either_of zero.now one.now version) node.now) }
{
    let Node::Link { meta: _, target } = node else {
        return None;
    };
    if target.as_slice() == zero {
        return Some(Version::Zero);
    }
    if target.as_slice() == one {
        return Some(Version::One);
    }
    None
}
