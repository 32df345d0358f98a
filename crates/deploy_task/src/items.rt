//! The new list.
ghost use Rattle.std.specs.Prelude.{◌≡◌, IfOk};
ghost use Rattle.deploy_task.specs.Deploying.{item_of, new_items, new_of};

use crate::deploy::Deploy;
use boot_model::{BootItem, DepId, Kernel};
use deployment_build::NewDeployment;
use kernel_copy::KernelFiles;
use ost_types::{NoMemory, PathMap, TryCopy};
use std::alloc::Global;

/// The new deployment as the boot loader is told of it.
fn item_of(deploy: &Deploy, id: &DepId) -> Result<BootItem, NoMemory>
    ensures { IfOk result (λ item. item ≡ item_of deploy.now id.now) }
{
    Ok(BootItem {
        id: id.copy()?,
        kargs: deploy.kargs.copy()?,
        kernel: Kernel {
            kver: deploy.kernel.kver.copy()?,
            bootcsum: deploy.kernel.bootcsum,
            initramfs: deploy.kernel.initramfs.is_some(),
        },
    })
}

/// The new deployment, and behind it those that stay, in their order.
pub(crate) fn new_items(
    alloc: Global,
    deploy: &Deploy,
    id: &DepId,
    kept: &[usize],
) -> Result<Vec<BootItem>, NoMemory>
    ensures { IfOk result (λ items. items.items ≡ new_items deploy.now id.now kept.now) }
{
    let mut items = vec![in alloc; item_of(deploy, id)?]?;
    for place in kept {
        let Some(item) = deploy.items.get(*place) else {
            continue;
        };
        items.push(item.copy()?)?;
    }
    Ok(items)
}

/// What is built, with this as its `etc`.
pub(crate) fn new_of(deploy: &Deploy, id: &DepId, etc: PathMap) -> Result<NewDeployment, NoMemory>
    ensures { IfOk result (λ new. new ≡ new_of deploy.now id.now etc) }
{
    Ok(NewDeployment {
        id: id.copy()?,
        tree: deploy.tree.copy()?,
        etc,
        origin: deploy.origin.copy()?,
        kernel: copy_files(&deploy.kernel)?,
    })
}

fn copy_files(files: &KernelFiles) -> Result<KernelFiles, NoMemory>
    ensures { IfOk result (λ copy. copy ≡ files.now) }
{
    Ok(KernelFiles {
        kver: files.kver.copy()?,
        bootcsum: files.bootcsum,
        kernel: files.kernel,
        initramfs: files.initramfs,
    })
}
