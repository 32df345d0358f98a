//! What stands in a folder of the disk, read as the map of its paths.
#![tactic(auto)]

mod children;
mod content;
mod fault;
mod look;
mod scan;

pub use fault::ScanFault;
pub use scan::TreeScan;
