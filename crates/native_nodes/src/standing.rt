//! What stands at a path.
ghost use Rattle.std.specs.Prelude.{◌≡◌, OnOk, IfErr};
ghost use Rattle.fs_trait.specs.Effect.{OfEmptying, OfFinding, OfPlacing};
ghost use Rattle.host_files.specs.Refusal.{answered};

use crate::Leaf;
use host_files::Refusal;

/// What stands at a path.
#[derive(Clone, Copy, Debug, PartialEq, Eq)]
pub enum Standing {
    Absent,
    Folder,
    /// The young leaf of this number.
    Young(u32),
    Leaf(Leaf),
}

impl Standing {
    /// Whether a path can go on below what stands there. A link is a leaf, too, and isn't followed.
    pub fn as_folder(self) -> Result<(), Refusal>
        ensures folder { OnOk result (self ≡ Standing.Folder) }
        ensures placing { IfErr (answered result) OfPlacing }
        ensures finding { IfErr (answered result) OfFinding }
        ensures emptying { IfErr (answered result) OfEmptying }
    {
        match self {
            Standing::Folder => Ok(()),
            Standing::Absent => Err(Refusal::Missing),
            Standing::Young(_) | Standing::Leaf(_) => Err(Refusal::NotFolder),
        }
    }
}
