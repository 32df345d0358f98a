use crate::stateroot::Stateroot;
use checkout::RemoveTask;

/// What the next step does.
#[derive(Drop, Debug)]
pub(crate) enum Phase {
    /// Lists the stateroots.
    Begin,
    /// Lists the deployments of the next stateroot.
    Open,
    /// Sees to the next name in the folder of this stateroot's deployments.
    See(Stateroot),
    /// Removes what stands under the next name.
    Remove(Stateroot, RemoveTask),
    /// Nothing.
    Ended,
}
