ghost use Rattle.std.specs.Prelude.{◌≡◌, IfOk, Ok};
ghost use Rattle.ost_types.specs.Path.{Path};
ghost use Rattle.ost_types.specs.Parse.{IsParsed};

use ost_types::{FsPath, NoMemory, PathFault};
use std::alloc::Global;

/// The path of a text that is known to be one's.
pub fn known_path(alloc: Global, text: &[u8]) -> Result<FsPath, NoMemory>
    requires { (p : Path) × IsParsed text.now (Ok p) }
    ensures { (p : Path) → IsParsed text.now (Ok p) → IfOk result (λ q. q ≡ p) }
{
    match FsPath::parse(alloc, text) {
        Ok(path) => Ok(path),
        Err(PathFault::NoMemory) => Err(NoMemory),
        Err(PathFault::Empty) => unreachable!(),
        Err(PathFault::BadName) => unreachable!(),
        Err(PathFault::TooLong) => unreachable!(),
        Err(PathFault::TooDeep) => unreachable!(),
    }
}
