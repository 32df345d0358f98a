use tree_read::TreeFault;
use tree_scan::ScanFault;

/// Why nothing is deployed. The list that boots is as it was.
#[derive(Drop, Debug)]
pub enum DeployRefusal {
    /// The list with the new deployment would have more than 8 members.
    TooManyDeps,
    /// The tree of the deployment from which the configuration is taken over isn't whole.
    Source(TreeFault),
    /// The `etc` of that deployment can't be read as a tree.
    Etc(ScanFault),
    /// That `etc` isn't what its tree has at `/usr/etc`.
    EtcChanged,
    /// Something stands where the new one is to be. Nothing does after all that isn't listed was removed.
    DestExists,
}
