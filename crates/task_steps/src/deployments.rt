//! What deployments stand on: made, and removed.
ghost use Rattle.std.specs.Prelude.{◌≡◌, ◌≤◌, false, IfOk, length};
ghost use Rattle.repo_layout.specs.Paths.{stage_path};
ghost use Rattle.boot_model.specs.Items.{IsKver};
ghost use Rattle.checkout.specs.CheckoutWork.{IsPlaced};
ghost use Rattle.tree_copy.specs.TreeWork.{most_paths};
ghost use Rattle.deploy_list.specs.Kernels.{has_etc};
ghost use Rattle.deployment_build.specs.Deployment.{MayBuild, etc_of, folder_of};

use crate::bench::Bench;
use crate::stop::Stop;
use crate::swaps::kver;
use crate::trees::{child_of, small_tree};
use boot_model::DepId;
use deploy_clean::CleanTask;
use deployment_build::{DeploymentBuild, NewDeployment};
use fs_trait::Fs;
use kernel_copy::KernelFiles;
use ost_types::{Bytes, Csum, PathMap};
use repo_layout::{OsName, deploy_path, stage_path};
use std::alloc::Global;
use tree_copy::TreeCopy;
use tree_kernel::KernelSum;

// The sum of the object of a regular file, and where that stands.
const OBJECT: [u8; 32] = [5; 32];

const OBJECTS: &[u8] = b"/ostree/repo/objects/05";

const OBJECT_FILE: &[u8] =
    b"/ostree/repo/objects/05/05050505050505050505050505050505050505050505050505050505050505.file";

/// A deployment is made, and removed, and so are the parts of it that are tasks of their own.
pub fn step_deployments<F: Fs>(bench: &mut Bench<F>) -> Result<(), Stop> {
    lay_out(bench)?;
    sum_kernel(bench)?;
    build(bench, "a deployment that is built")?;
    build(bench, "the same that stands already")?;
    clean(bench)?;
    copy_tree(bench)
}

fn lay_out<F: Fs>(bench: &mut Bench<F>) -> Result<(), Stop> {
    bench.make_folder(OBJECTS)?;
    bench.make_file(OBJECT_FILE)?;
    bench.make_folder(b"/ostree/deploy/os")?;
    bench.make_folder(b"/ostree/deploy/os/deploy")
}

fn sum_kernel<F: Fs>(bench: &mut Bench<F>) -> Result<(), Stop> {
    let mut task = KernelSum::new(bench.alloc, object(), Some(object()));
    bench.measure("the sum of a kernel", &mut task)
}

fn build<F: Fs>(bench: &mut Bench<F>, name: &str) -> Result<(), Stop> {
    let new = new_deployment(bench.alloc, id(bench.alloc)?)?;
    let stage = stage_path(bench.alloc, 0)?;
    let mut task = DeploymentBuild::new(bench.alloc, stage, new)?;
    bench.measure(name, &mut task)
}

fn new_deployment(alloc: Global, id: DepId) -> Result<NewDeployment, Stop>
    ensures { IfOk result (MayBuild (stage_path 0)) }
{
    let tree = tree_of(alloc, &id)?;
    let etc = etc_of(alloc, &id)?;
    let origin = Bytes::from_slice(alloc, b"[origin]\n")?;
    let kernel = kernel_files(alloc)?;
    Ok(NewDeployment {
        id,
        tree,
        etc,
        origin,
        kernel,
    })
}

fn tree_of(alloc: Global, id: &DepId) -> Result<PathMap, Stop>
    ensures placed { IfOk result (IsPlaced (folder_of id.now)) }
    ensures no_etc { IfOk result (λ t. has_etc t ≡ false) }
{
    let folder = deploy_path(alloc, &id.os, &id.commit, id.serial)?;
    small_tree(alloc, &folder, object())
}

fn etc_of(alloc: Global, id: &DepId) -> Result<PathMap, Stop>
    ensures placed { IfOk result (IsPlaced (etc_of id.now)) }
    ensures few { IfOk result (λ t. length t ≤ most_paths) }
{
    let folder = deploy_path(alloc, &id.os, &id.commit, id.serial)?;
    let etc = child_of(alloc, &folder, b"etc")?;
    small_tree(alloc, &etc, object())
}

fn id(alloc: Global) -> Result<DepId, Stop> {
    Ok(DepId {
        os: OsName::parse(alloc, b"os")?.ok_or(Stop::Unmade)?,
        commit: Csum::from_bytes([6; 32]),
        serial: 0,
    })
}

fn kernel_files(alloc: Global) -> Result<KernelFiles, Stop>
    ensures { IfOk result (λ files. IsKver files.kver) }
{
    Ok(KernelFiles {
        kver: kver(alloc)?,
        bootcsum: Csum::from_bytes([7; 32]),
        kernel: object(),
        initramfs: Some(object()),
    })
}

fn object() -> Csum {
    Csum::from_bytes(OBJECT)
}

fn clean<F: Fs>(bench: &mut Bench<F>) -> Result<(), Stop> {
    let mut task = CleanTask::new(bench.alloc, Vec::new(bench.alloc));
    bench.measure("what no list names", &mut task)
}

fn copy_tree<F: Fs>(bench: &mut Bench<F>) -> Result<(), Stop> {
    let into = bench.path(b"/checkout/tree")?;
    let tree = small_tree(bench.alloc, &into, object())?;
    let mut task = TreeCopy::new(bench.alloc, into, tree);
    bench.measure("a tree that is copied", &mut task)
}
