//! The word of a boot entry that names a link.
ghost use Rattle.std.specs.Prelude.{◌≡◌, IfOk, MatchOption};
ghost use Rattle.repo_layout.specs.Fixed.{number};
ghost use Rattle.boot_model.specs.Entries.{named_version};
ghost use Rattle.boot_words.specs.Words.{IsNamedLink, NamesNoLink, NamesNone};

use crate::parts::read_parts;
use ost_types::{Csum, NoMemory};
use repo_layout::{OsName, Version};
use std::alloc::Global;

/// A link that leads to a deployment, as the boot entry names it.
#[derive(Drop, Debug, PartialEq, Eq)]
pub struct NamedLink {
    /// The version through whose link it is reached.
    pub version: Version,
    /// The stateroot of the deployment.
    pub os: OsName,
    /// The sum of its kernel.
    pub bootcsum: Csum,
    /// Which of the links of this stateroot and this sum it is, from 0.
    pub number: u32,
}

/// The link that what stands behind `ostree=` names: `/ostree/boot.<version>/<stateroot>/<bootcsum>/<number>`. None where it has
/// another form.
pub fn read_named_link(alloc: Global, text: &[u8]) -> Result<Option<NamedLink>, NoMemory>
    ensures { IfOk result (λ o. MatchOption o (NamesNone text.now) (IsNamedLink text.now)) }
{
    let first = link_of(alloc, text, Version::Zero)?;
    match first {
        Some(link) => Ok(Some(link)),
        None => link_of(alloc, text, Version::One),
    }
}

fn link_of(alloc: Global, text: &[u8], version: Version) -> Result<Option<NamedLink>, NoMemory>
    ensures { IfOk result (λ o. MatchOption o (NamesNoLink text.now (number version)) (IsNamedLink text.now)) }
{
    let Some(parts) = read_parts(text, named_version(version), b"", b'/') else {
        return Ok(None);
    };
    let name = OsName::parse(alloc, parts.os)?;
    match name {
        Some(os) => Ok(Some(NamedLink {
            version,
            os,
            bootcsum: parts.sum,
            number: parts.number,
        })),
        None => Ok(None),
    }
}

fn named_version(version: Version) -> &'static [u8]
    ensures { result.now ≡ named_version (number version) }
{
    match version {
        Version::Zero => b"/ostree/boot.0/",
        Version::One => b"/ostree/boot.1/",
    }
}
