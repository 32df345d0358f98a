//! Laws of what is told of a deployment, each as a function whose contract is the law.
ghost use Rattle.deployment_check.specs.Judging.{JudgedOnce};

use tree_kernel::trees_boot_once;

/// Of one disk one thing is told of a deployment.
pub fn judgements_are_told_once()
    ensures { JudgedOnce }
{
    trees_boot_once();
}
