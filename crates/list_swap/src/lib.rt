//! A list of deployments that comes to boot in the place of another: from the rename that shows it to the sync behind that, each crash leaves
//! the old list or the new one, and each as it was written (OSTree manual, "Deployments").
#![tactic(auto)]

mod laws;

pub use laws::{deploys_publish, swaps_publish};
