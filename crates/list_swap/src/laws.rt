//! The laws of lists that come to boot in the place of others, each as a function whose contract is the law.
ghost use Rattle.list_swap.specs.Published.{SwapsPublish};
ghost use Rattle.list_swap.specs.Deploys.{DeploysPublish, DeploysSettle};

/// The step of a swap that puts the link in its place leaves one of two lists to boot: the one that stood, or that of the items.
pub fn swaps_publish()
    ensures { SwapsPublish }
{}

/// So does that of a deploy; and behind its last step, the sync of the link, its new list stands.
pub fn deploys_publish()
    ensures begins { DeploysPublish }
    ensures settles { DeploysSettle }
{}
