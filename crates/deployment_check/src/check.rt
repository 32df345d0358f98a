//! What is told of a deployment of the list.
ghost use Rattle.std.specs.Prelude.{◌≡◌, ◌≤◌, ◌↔◌, Some, IfOk, IfErr, IsTrue, MatchResult};
ghost use Rattle.ost_types.specs.declared.limits.Limits as limits_of;
ghost use Rattle.ost_types.specs.PathMap.{Nodes};
ghost use Rattle.fs_trait.specs.View.{View};
ghost use Rattle.fs_trait.specs.Effect.{HasCause, IsQuiet, OfNone};
ghost use Rattle.fs_trait.specs.Seen.{shows, IsDirectory};
ghost use Rattle.boot_model.specs.Items.{IsKver};
ghost use Rattle.checkout.specs.CheckoutFolder.{IsTreeMap};
ghost use Rattle.deployment_check.specs.Deployments.{files_of};
ghost use Rattle.deployment_check.specs.Judging.{CanDeploy, HasEtc, IsDeployed, Judges};

use crate::judgement::Judgement;
use crate::paths::{etc_path, home_path, path_in};
use crate::tree::commit_tree;
use boot_model::DepId;
use checkout_compare::first_difference;
use fs_trait::{Fs, FsErr, Node};
use kernel_copy::{KernelFiles, first_other_copy};
use ost_types::{Csum, FsPath, Limits, PathMap};
use std::alloc::Global;
use tree_kernel::{TreeKernel, find_kernel};

/// Whether the deployment is whole: its files are the checkout of its commit, whose tree boots a kernel, and the copies of the kernel in
/// the folder that `bootcsum` names are the kernel's. Else the first rule that doesn't hold is told. That folder's name is taken as it
/// is, since others may name it by another sum of the kernel.
pub fn judge<F: Fs>(
    alloc: Global,
    fs: &mut F,
    limits: Limits,
    id: &DepId,
    bootcsum: &Csum,
) -> Result<Judgement, FsErr>
    ensures told { (v : View) → F.view fs.old ≡ Some v → MatchResult result (Judges limits v.now id.now bootcsum.now) OfNone }
    ensures quiet { IsQuiet (F.clock fs.old) (F.clock fs.new) (F.was fs.old) (F.was fs.new) (F.view fs.old) (F.view fs.new) }
    ensures room { F.spare fs.old ≤ F.spare fs.new }
    ensures cause { HasCause (F.faults fs.old) (F.faults fs.new) result }
{
    let Some(tree) = commit_tree(alloc, fs, limits, &id.commit)? else {
        return Ok(Judgement::NoDeployment);
    };
    match find_kernel(alloc, fs, &tree)? {
        Err(_) => Ok(Judgement::NoDeployment),
        Ok(kernel) => judge_files(alloc, fs, id, bootcsum, &tree, kernel),
    }
}

// the same where the tree and its kernel were found
fn judge_files<F: Fs>(
    alloc: Global,
    fs: &mut F,
    id: &DepId,
    bootcsum: &Csum,
    tree: &PathMap,
    kernel: TreeKernel,
) -> Result<Judgement, FsErr>
    requires tree { (v : View) → F.view fs.old ≡ Some v → IsTreeMap tree.now }
    requires version { IsKver kernel.kver }
    ensures told { (v : View) (limits : limits_of.Limits) → F.view fs.old ≡ Some v → CanDeploy limits v.now id.now.commit tree.now kernel → MatchResult result (Judges limits v.now id.now bootcsum.now) OfNone }
    ensures quiet { IsQuiet (F.clock fs.old) (F.clock fs.new) (F.was fs.old) (F.was fs.new) (F.view fs.old) (F.view fs.new) }
    ensures room { F.spare fs.old ≤ F.spare fs.new }
    ensures cause { HasCause (F.faults fs.old) (F.faults fs.new) result }
{
    let home = home_path(alloc, id)?;
    match first_difference(alloc, fs, &home, tree)? {
        Some(relative) => Ok(Judgement::NotCheckout(path_in(&home, &relative)?)),
        None => judge_etc(alloc, fs, id, bootcsum, kernel),
    }
}

// where the files are the checkout of the tree
fn judge_etc<F: Fs>(
    alloc: Global,
    fs: &mut F,
    id: &DepId,
    bootcsum: &Csum,
    kernel: TreeKernel,
) -> Result<Judgement, FsErr>
    requires { IsKver kernel.kver }
    ensures told { (v : View) (limits : limits_of.Limits) (tree : Nodes) → F.view fs.old ≡ Some v → IsDeployed limits v.now id.now tree kernel → MatchResult result (Judges limits v.now id.now bootcsum.now) OfNone }
    ensures quiet { IsQuiet (F.clock fs.old) (F.clock fs.new) (F.was fs.old) (F.was fs.new) (F.view fs.old) (F.view fs.new) }
    ensures room { F.spare fs.old ≤ F.spare fs.new }
    ensures cause { HasCause (F.faults fs.old) (F.faults fs.new) result }
{
    let etc = etc_path(alloc, id)?;
    if has_folder(fs, &etc)? {
        judge_copies(alloc, fs, id, bootcsum, kernel)
    } else {
        Ok(Judgement::WrongKind(etc))
    }
}

// where there is an `etc`, too
fn judge_copies<F: Fs>(
    alloc: Global,
    fs: &mut F,
    id: &DepId,
    bootcsum: &Csum,
    kernel: TreeKernel,
) -> Result<Judgement, FsErr>
    requires { IsKver kernel.kver }
    ensures told { (v : View) (limits : limits_of.Limits) (tree : Nodes) → F.view fs.old ≡ Some v → HasEtc limits v.now id.now tree kernel → MatchResult result (Judges limits v.now id.now bootcsum.now) OfNone }
    ensures quiet { IsQuiet (F.clock fs.old) (F.clock fs.new) (F.was fs.old) (F.was fs.new) (F.view fs.old) (F.view fs.new) }
    ensures room { F.spare fs.old ≤ F.spare fs.new }
    ensures cause { HasCause (F.faults fs.old) (F.faults fs.new) result }
{
    let files = kernel_files(kernel, bootcsum);
    match first_other_copy(alloc, fs, &id.os, &files)? {
        Some(path) => Ok(Judgement::KernelCopy(path)),
        None => Ok(Judgement::Whole),
    }
}

fn kernel_files(kernel: TreeKernel, bootcsum: &Csum) -> KernelFiles
    ensures { result ≡ files_of kernel bootcsum.now }
{
    KernelFiles {
        kver: kernel.kver,
        bootcsum: *bootcsum,
        kernel: kernel.kernel,
        initramfs: kernel.initramfs,
    }
}

// whether a folder stands there
fn has_folder<F: Fs>(fs: &mut F, at: &FsPath) -> Result<bool, FsErr>
    ensures told { (v : View) → F.view fs.old ≡ Some v → IfOk result (λ b. IsTrue b ↔ IsDirectory (shows v.now at.now)) }
    ensures named { IfErr result OfNone }
    ensures quiet { IsQuiet (F.clock fs.old) (F.clock fs.new) (F.was fs.old) (F.was fs.new) (F.view fs.old) (F.view fs.new) }
    ensures room { F.spare fs.old ≤ F.spare fs.new }
    ensures cause { HasCause (F.faults fs.old) (F.faults fs.new) result }
{
    match fs.stat(at)? {
        Some(Node::Folder(_)) => Ok(true),
        Some(Node::Link { .. }) => Ok(false),
        Some(Node::File { .. }) => Ok(false),
        None => Ok(false),
    }
}
