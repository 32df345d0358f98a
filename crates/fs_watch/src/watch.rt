ghost use Rattle.std.specs.Prelude.{◌≡◌, Option};
ghost use Rattle.ost_types.specs.Path.{Path};

use fs_trait::Fs;
use ost_types::FsPath;

/// A file system that tells which path the last call was about that it refused.
pub trait Watch: Fs {
    /// The path of the last call that was refused for what stands there: with any error but `Failed` and `NoMemory`. None where no
    /// call was, or where there was no memory for the path.
    ghost refused: { Self → Option Path };

    /// That path.
    fn refused(&self) -> &Option<FsPath>
        ensures { result.now ≡ refused self.now };
}
