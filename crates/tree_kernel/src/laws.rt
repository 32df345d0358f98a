//! Laws of kernels, each as a function whose contract is the law.
ghost use Rattle.tree_kernel.specs.Boots.{BootsOnce};

/// A tree boots one kernel on a disk, or has one fault there.
pub fn trees_boot_once()
    ensures { BootsOnce }
{}
