ghost use Rattle.std.specs.Prelude.{◌≡◌};
ghost use Rattle.fs_watch.specs.Refused.{Remembers, about};

use fs_trait::FsErr;
use ost_types::{FsPath, TryCopy};

/// Remembers the path of a call that was refused. The answer is passed on.
pub fn note<T>(
    refused: &mut Option<FsPath>,
    at: &FsPath,
    answer: Result<T, FsErr>,
) -> Result<T, FsErr>
    ensures same { result ≡ answer }
    ensures notes { Remembers at.now answer refused.old refused.new }
{
    match answer {
        Ok(value) => Ok(value),
        Err(FsErr::Failed) => Err(FsErr::Failed),
        Err(FsErr::NoMemory) => Err(FsErr::NoMemory),
        Err(error) => {
            *refused = at.copy().ok();
            Err(error)
        }
    }
}

/// The same of a call from one path to another. What stands in the way stands at the second.
pub fn note_either<T>(
    refused: &mut Option<FsPath>,
    from: &FsPath,
    to: &FsPath,
    answer: Result<T, FsErr>,
) -> Result<T, FsErr>
    ensures same { result ≡ answer }
    ensures notes { Remembers (about from.now to.now answer) answer refused.old refused.new }
{
    match answer {
        Err(FsErr::Exists) => note(refused, to, Err(FsErr::Exists)),
        answer => note(refused, from, answer),
    }
}
