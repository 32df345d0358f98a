ghost use Rattle.std.specs.Prelude.{◌≡◌};
ghost use Rattle.ost_types.specs.declared.path.parse.PathFault.TheVariants.{NoMemory};

use super::FsPath;
use super::split::{count_names, read_names, without_root};
use crate::NoMemory;
use std::alloc::Global;
use thiserror::Error;

/// Why a text is not taken for a path.
#[derive(Debug, Clone, Copy, PartialEq, Eq, Error)]
pub enum PathFault {
    /// It doesn't begin with `/`.
    #[error("a path begins with `/`")]
    Empty,
    /// A name is empty, `.`, `..`, longer than 255 bytes, not UTF-8 or holds a zero.
    #[error("a name of the path is not one")]
    BadName,
    /// It has more than 1,024 bytes.
    #[error("the path is longer than 1,024 bytes")]
    TooLong,
    /// It has more than 64 names.
    #[error("the path has more than 64 names")]
    TooDeep,
    #[error("there is no memory for the path")]
    NoMemory,
}

impl From<NoMemory> for PathFault {
    ghost from_gives = { λ _ fault. fault ≡ NoMemory };

    fn from(_: NoMemory) -> PathFault {
        PathFault::NoMemory
    }
}

impl FsPath {
    ghost use Rattle.ost_types.specs.Parse.{IsParsed};

    /// The path of this text: a `/` before each name, and `/` alone for the root.
    ///
    /// No memory is taken for a text that is refused.
    pub fn parse(alloc: Global, text: &[u8]) -> Result<FsPath, PathFault>
        ensures { IsParsed text.now result }
    {
        if text.first() != Some(&b'/') {
            return Err(PathFault::Empty);
        }
        let bytes = without_root(text);
        let Some(count) = count_names(bytes) else {
            return Err(PathFault::BadName);
        };
        if text.len() > 1024 {
            return Err(PathFault::TooLong);
        }
        if count > 64 {
            return Err(PathFault::TooDeep);
        }
        Ok(FsPath {
            names: read_names(alloc, bytes)?,
        })
    }
}
