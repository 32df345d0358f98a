//! What `ostree` wants beside the program's own folders.
use std::fs;

const REFS: &str = "./ostree/repo/refs";

const REMOTES: &str = "./ostree/repo/refs/remotes";

/// Makes the folder of the refs of other repositories where there are refs, since `ostree` reads no repository without it.
pub fn lay_out(rt: &HostRuntime) {
    if let Ok(metadata) = fs::symlink_metadata(rt, REFS) {
        if metadata.is_dir() {
            let _ = fs::create_dir(rt, REMOTES);
        }
    }
}
