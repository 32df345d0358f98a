ghost use Rattle.std.specs.Prelude.{◌≡◌};

use boot_swap::SwapTask;
use deploy_clean::CleanTask;
use deployment_build::DeploymentBuild;
use ost_types::PathMap;
use tree_scan::TreeScan;
use tree_walk::WalkTask;

/// What the next step does.
#[derive(Drop, Debug)]
pub enum Phase {
    /// Removes what the list doesn't name.
    Clean(CleanTask),
    /// Sees whether there is a place in the list, and from which deployment the configuration is taken over.
    Choose,
    /// Walks the tree of that one's commit.
    Source(WalkTask),
    /// Reads that one's `etc`, which is to be these defaults.
    Etc(PathMap, TreeScan),
    /// Makes ready what builds the new one.
    BeginBuild,
    /// Builds it, aside of what boots.
    Build(DeploymentBuild),
    /// Makes ready what lets the new list boot.
    BeginSwap,
    /// Lets it boot.
    Swap(SwapTask),
    /// Nothing: the new list boots.
    Ended,
}

/// Goes on with this.
pub(crate) fn go_on(phase: &mut Phase, next: Phase)
    ensures { phase.new ≡ next }
{
    drop(std::mem::replace(phase, next));
}
