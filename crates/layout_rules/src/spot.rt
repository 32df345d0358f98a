//! The places of the layout that have one path each, and what may stand there.
ghost use Rattle.std.specs.Prelude.{◌≡◌, IfOk};
ghost use Rattle.layout_rules.specs.Spots.{all_spots, rule_of, spot_path};

use crate::Rule;
use ost_types::{FsPath, NoMemory};
use repo_layout::{Fixed, Folder, Version, fixed_path, folder_path};
use std::alloc::Global;

/// A place that has one path: that of a folder which is there from the beginning, or that of another thing which is known.
#[derive(Clone, Copy, Debug, PartialEq, Eq)]
pub enum Spot {
    Laid(Folder),
    Known(Fixed),
}

/// All of them, ascending by their paths.
pub fn spots() -> &'static [Spot]
    ensures { result.now ≡ all_spots }
{
    &[
        Spot::Laid(Folder::Boot),
        Spot::Known(Fixed::LoaderFolder(Version::Zero)),
        Spot::Known(Fixed::Entries(Version::Zero)),
        Spot::Known(Fixed::LoaderFolder(Version::One)),
        Spot::Known(Fixed::Entries(Version::One)),
        Spot::Laid(Folder::Kernels),
        Spot::Laid(Folder::Checkouts),
        Spot::Laid(Folder::Ostree),
        Spot::Known(Fixed::BootLink(Version::Zero)),
        Spot::Known(Fixed::BootFolder(Version::Zero, Version::Zero)),
        Spot::Known(Fixed::BootFolder(Version::Zero, Version::One)),
        Spot::Known(Fixed::BootLink(Version::One)),
        Spot::Known(Fixed::BootFolder(Version::One, Version::Zero)),
        Spot::Known(Fixed::BootFolder(Version::One, Version::One)),
        Spot::Laid(Folder::Deploy),
        Spot::Laid(Folder::Repo),
        Spot::Laid(Folder::Objects),
        Spot::Laid(Folder::Refs),
        Spot::Laid(Folder::Heads),
        Spot::Laid(Folder::State),
        Spot::Known(Fixed::Summary),
        Spot::Laid(Folder::Tmp),
    ]
}

/// Its path.
pub fn spot_path(alloc: Global, spot: Spot) -> Result<FsPath, NoMemory>
    ensures { IfOk result (λ p. p ≡ spot_path spot) }
{
    match spot {
        Spot::Laid(folder) => folder_path(alloc, folder),
        Spot::Known(fixed) => fixed_path(alloc, fixed),
    }
}

/// What may stand there.
pub fn rule_of(spot: Spot) -> Rule
    ensures { result ≡ rule_of spot }
{
    match spot {
        Spot::Laid(_) => Rule::FolderOrNothing,
        Spot::Known(Fixed::LoaderFolder(_)) => Rule::FolderOrNothing,
        Spot::Known(Fixed::Entries(_)) => Rule::FolderOrNothing,
        Spot::Known(Fixed::BootLink(_)) => Rule::NoFolder,
        Spot::Known(Fixed::BootFolder(..)) => Rule::FolderOrNothing,
        Spot::Known(Fixed::Summary) => Rule::NoFolder,
    }
}
