ghost use Rattle.std.specs.Prelude.{◌≡◌};
ghost use Rattle.boot_swap.specs.Swap.{barred, chosen, filled, linked, version_of};

use boot_compare::{ChooseTask, Swap};
use folder_build::{BuildTask, LinkTask};
use repo_layout::Version;

/// The version whose links a swap makes.
pub(crate) fn version_of(swap: Swap) -> Version
    ensures { result ≡ version_of swap }
{
    match swap {
        Swap::Loader(version) | Swap::Sub(version) => version,
    }
}

/// What the next step does. A version alone is the one that the boot loader's link is to select; the version behind a swap is the
/// sub-version of the folder of links that is made.
#[derive(Drop, Debug)]
pub(crate) enum Phase {
    /// Finds out which swap it is.
    Choose(ChooseTask),
    /// Makes the folder of entries ready to be made.
    BeginEntries(Version),
    /// Makes it.
    Entries(Version, BuildTask),
    /// Looks which sub-version the version's link names.
    LookLink(Swap),
    /// Makes the folder of links of the other sub-version.
    Links(Swap, Version, BuildTask),
    /// Makes ready what puts the version's link in its place.
    BeginLink(Swap, Version),
    /// Puts it there.
    ShowLink(Swap, Version, LinkTask),
    /// Makes all that was made outlast a crash.
    Barrier(Swap, Version),
    /// Makes ready what puts the boot loader's link in its place.
    BeginLoader(Version),
    /// Puts it there.
    ShowLoader(Version, LinkTask),
    /// Syncs the folder of the link that shows the new list.
    SyncFolder(Swap),
    /// Nothing: the new list boots, and outlasts a crash.
    Ended,
}

/// What comes once the swap is chosen.
pub(crate) fn chosen(swap: Swap) -> Phase
    ensures { result ≡ chosen swap }
{
    match swap {
        Swap::Loader(version) => Phase::BeginEntries(version),
        Swap::Sub(_) => Phase::LookLink(swap),
    }
}

/// What comes once the folder of links is made.
pub(crate) fn filled(swap: Swap, sub: Version) -> Phase
    ensures { result ≡ filled swap sub }
{
    match swap {
        Swap::Loader(_) => Phase::BeginLink(swap, sub),
        Swap::Sub(_) => Phase::Barrier(swap, sub),
    }
}

/// What comes once the version's link is put.
pub(crate) fn linked(swap: Swap, sub: Version) -> Phase
    ensures { result ≡ linked swap sub }
{
    match swap {
        Swap::Loader(_) => Phase::Barrier(swap, sub),
        Swap::Sub(_) => Phase::SyncFolder(swap),
    }
}

/// What comes behind the sync of all.
pub(crate) fn barred(swap: Swap, sub: Version) -> Phase
    ensures { result ≡ barred swap sub }
{
    match swap {
        Swap::Loader(version) => Phase::BeginLoader(version),
        Swap::Sub(_) => Phase::BeginLink(swap, sub),
    }
}
