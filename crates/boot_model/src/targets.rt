//! What the links of a sysroot hold.
ghost use Rattle.std.specs.Prelude.{◌≡◌, IfOk};
ghost use Rattle.repo_layout.specs.Fixed.{number};
ghost use Rattle.boot_model.specs.Entries.{boot_target, deploy_target, loader_target};

use crate::DepId;
use ost_types::{Bytes, NoMemory, Text};
use repo_layout::Version;
use std::alloc::Global;

/// What the boot loader's link holds, which selects a version: `loader.<version>`.
pub fn loader_target(version: Version) -> &'static [u8]
    ensures { result.now ≡ loader_target (number version) }
{
    match version {
        Version::Zero => b"loader.0",
        Version::One => b"loader.1",
    }
}

/// What the link of a version holds: `boot.<version>.<sub-version>`.
pub fn boot_target(version: Version, sub: Version) -> &'static [u8]
    ensures { result.now ≡ boot_target (number version) (number sub) }
{
    match version {
        Version::Zero => first_target(sub),
        Version::One => second_target(sub),
    }
}

fn first_target(sub: Version) -> &'static [u8]
    ensures { result.now ≡ boot_target 0 (number sub) }
{
    match sub {
        Version::Zero => b"boot.0.0",
        Version::One => b"boot.0.1",
    }
}

fn second_target(sub: Version) -> &'static [u8]
    ensures { result.now ≡ boot_target 1 (number sub) }
{
    match sub {
        Version::Zero => b"boot.1.0",
        Version::One => b"boot.1.1",
    }
}

#[tactic(auto, unfolding(crate::specs::Entries::deploy_target))]
/// What the link of a member holds: `../../../deploy/<stateroot>/deploy/<commit>.<serial>`.
pub fn deploy_target(alloc: Global, id: &DepId) -> Result<Bytes, NoMemory>
    ensures { IfOk result (λ t. t ≡ deploy_target id.now) }
{
    let mut text = Bytes::from_slice(alloc, b"../../../deploy/")?;
    text.append(id.os.as_slice())?;
    text.append(b"/deploy/")?;
    text.append(&id.commit.to_hex())?;
    text.push(b'.')?;
    text.append(id.serial.to_string(alloc)?.as_bytes())?;
    Ok(text)
}
