//! What the paths below a folder come to.
ghost use Rattle.std.specs.Prelude.{◌≤◌, ◌^◌};

/// Bounds on the paths below a folder, as seen from there.
#[derive(Clone, Copy, Debug, PartialEq, Eq)]
pub struct Extent {
    /// The most paths.
    pub paths: u64,
    /// The most names of a path.
    pub names: u64,
    /// The most bytes of a path.
    pub bytes: u64,
    ghost few: { paths ≤ 2 ^ 32 },
    ghost deep: { names ≤ 64 },
    ghost long: { bytes ≤ 1024 },
}
