//! The kernel that a tree boots.
ghost use Rattle.std.specs.Prelude.{◌≡◌, ◌≤◌, Some, IfOk, IfErr, Ok};
ghost use Rattle.std.specs.Option.{option_copied};
ghost use Rattle.ost_types.specs.PathMap.{node_at};
ghost use Rattle.fs_trait.specs.View.{View};
ghost use Rattle.fs_trait.specs.Effect.{HasCause, IsQuiet, OfNone};
ghost use Rattle.boot_model.specs.Items.{IsKver};
ghost use Rattle.deploy_list.specs.Kernels.{Finds};
ghost use Rattle.tree_kernel.specs.Boots.{Boots, IsFileAt, leaf_of};

use crate::paths::{initramfs_path, kernel_path};
use crate::pieces::find_size;
use deploy_list::{KernelFault, kver_of};
use fs_trait::{Fs, FsErr};
use ost_types::{Csum, FsPath, Name, NodeName, PathMap};
use std::alloc::Global;

/// The kernel of a tree: its version, and the sums of the objects of its files.
#[derive(Drop, Debug)]
pub struct TreeKernel {
    pub kver: Name,
    pub kernel: Csum,
    /// What the kernel first mounts.
    pub initramfs: Option<Csum>,
}

/// The kernel that the tree boots, or why it boots none: the one that the tree has, where its object is a regular file. With it
/// comes `/usr/lib/modules/<version>/initramfs.img`, where that is a regular file, too.
pub fn find_kernel<F: Fs>(
    alloc: Global,
    fs: &mut F,
    tree: &PathMap,
) -> Result<Result<TreeKernel, KernelFault>, FsErr>
    ensures told { (v : View) → F.view fs.old ≡ Some v → IfOk result (Boots v.now tree.now) }
    ensures version { IfOk result (λ found. IfOk found (λ kernel. IsKver kernel.kver)) }
    ensures named { IfErr result OfNone }
    ensures quiet { IsQuiet (F.clock fs.old) (F.clock fs.new) (F.was fs.old) (F.was fs.new) (F.view fs.old) (F.view fs.new) }
    ensures room { F.spare fs.old ≤ F.spare fs.new }
    ensures cause { HasCause (F.faults fs.old) (F.faults fs.new) result }
{
    match kver_of(tree)? {
        Ok(kver) => kernel_of(alloc, fs, tree, kver),
        Err(fault) => Ok(Err(fault)),
    }
}

// the same where the version is known
fn kernel_of<F: Fs>(
    alloc: Global,
    fs: &mut F,
    tree: &PathMap,
    kver: Name,
) -> Result<Result<TreeKernel, KernelFault>, FsErr>
    requires found { Finds tree.now (Ok kver) }
    requires version { IsKver kver }
    ensures told { (v : View) → F.view fs.old ≡ Some v → IfOk result (Boots v.now tree.now) }
    ensures version { IfOk result (λ found. IfOk found (λ kernel. IsKver kernel.kver)) }
    ensures named { IfErr result OfNone }
    ensures quiet { IsQuiet (F.clock fs.old) (F.clock fs.new) (F.was fs.old) (F.was fs.new) (F.view fs.old) (F.view fs.new) }
    ensures room { F.spare fs.old ≤ F.spare fs.new }
    ensures cause { HasCause (F.faults fs.old) (F.faults fs.new) result }
{
    let kernel_at = kernel_path(alloc, &kver)?;
    let Some(kernel) = file_at(alloc, fs, tree, &kernel_at)? else {
        return Ok(Err(KernelFault::NoKernel));
    };
    let initramfs_at = initramfs_path(alloc, &kver)?;
    let initramfs = file_at(alloc, fs, tree, &initramfs_at)?;
    Ok(Ok(TreeKernel {
        kver,
        kernel,
        initramfs,
    }))
}

// the sum of the tree's regular file at the path; None where it has none there
fn file_at<F: Fs>(
    alloc: Global,
    fs: &mut F,
    tree: &PathMap,
    at: &FsPath,
) -> Result<Option<Csum>, FsErr>
    ensures told { (v : View) → F.view fs.old ≡ Some v → IfOk result (IsFileAt v.now tree.now at.now) }
    ensures named { IfErr result OfNone }
    ensures quiet { IsQuiet (F.clock fs.old) (F.clock fs.new) (F.was fs.old) (F.was fs.new) (F.view fs.old) (F.view fs.new) }
    ensures room { F.spare fs.old ≤ F.spare fs.new }
    ensures cause { HasCause (F.faults fs.old) (F.faults fs.new) result }
{
    let Some(file) = leaf_at(tree, at) else {
        return Ok(None);
    };
    match find_size(alloc, fs, &file)? {
        Some(_) => Ok(Some(file)),
        None => Ok(None),
    }
}

fn leaf_at(tree: &PathMap, at: &FsPath) -> Option<Csum>
    ensures { result ≡ leaf_of (node_at tree.now at.now) }
{
    match tree.get(at) {
        Some(NodeName::Leaf(csum)) => Some(*csum),
        _ => None,
    }
}
