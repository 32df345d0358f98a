//! The paths of a folder, entry by entry.
ghost use Rattle.std.specs.Prelude.{◌≡◌, ◌≤◌, IfSome};
ghost use Rattle.store_check.specs.Extents.{IsWith};

use crate::extent::Extent;
use ost_types::{Limits, Name};

impl Extent {
    /// No paths.
    pub fn none() -> Extent
        ensures paths { result.paths ≡ 0 }
        ensures names { result.names ≡ 0 }
        ensures bytes { result.bytes ≡ 0 }
    {
        Extent {
            paths: 0,
            names: 0,
            bytes: 0,
        }
    }

    /// With an entry of this name, below which are these paths. None where that is more than the limits.
    pub fn with(&self, name: &Name, below: &Extent, limits: &Limits) -> Option<Extent>
        ensures with { IfSome result (IsWith self.now name.now below.now) }
        ensures few { IfSome result (λ e. e.paths ≤ limits.now.paths) }
    {
        let paths = self.paths + 1 + below.paths;
        let names = self.names.max(1 + below.names);
        let length = 1 + name.as_slice().len() as u64;
        let bytes = self.bytes.max(length + below.bytes);
        if paths > limits.paths as u64 || names > 64 || bytes > 1024 {
            return None;
        }
        Some(Extent {
            paths,
            names,
            bytes,
        })
    }
}
