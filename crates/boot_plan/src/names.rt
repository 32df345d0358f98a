//! Names of what is made.
ghost use Rattle.std.specs.Prelude.{◌≡◌, ◌≤◌, ◌<◌, IfOk};
ghost use Rattle.std.specs.Fmt.{decimal};
ghost use Rattle.ost_types.specs.Text.{IsName, IsText};
ghost use Rattle.ost_types.specs.Csum.{hex_of};
ghost use Rattle.boot_model.specs.Entries.{entry_name};

use ost_types::{Bytes, Csum, Name, NoMemory, Text};
use repo_layout::OsName;
use std::alloc::Global;

/// The name that these bytes are known to be.
pub(crate) fn known_name(alloc: Global, bytes: &[u8]) -> Result<Name, NoMemory>
    requires { IsName bytes.now }
    ensures { IfOk result (λ n. n ≡ bytes.now) }
{
    match Name::parse(alloc, bytes)? {
        Some(name) => Ok(name),
        None => unreachable!(),
    }
}

/// The text that these bytes are known to be.
pub(crate) fn known_text(alloc: Global, bytes: &[u8]) -> Result<Text, NoMemory>
    requires { IsText bytes.now }
    ensures { IfOk result (λ t. t ≡ bytes.now) }
{
    match Text::parse(alloc, bytes)? {
        Some(text) => Ok(text),
        None => unreachable!(),
    }
}

/// The name of the entry of this version: `ostree-<version>.conf`.
pub(crate) fn entry_name(alloc: Global, version: usize) -> Result<Name, NoMemory>
    requires { version ≤ 8 }
    ensures value { IfOk result (λ n. n ≡ entry_name version) }
    ensures name { IfOk result IsName }
{
    let mut text = Bytes::from_slice(alloc, b"ostree-")?;
    text.append(version.to_string(alloc)?.as_bytes())?;
    text.append(b".conf")?;
    known_name(alloc, text.as_slice())
}

/// The name of a stateroot's folder of links.
pub(crate) fn os_name(alloc: Global, os: &OsName) -> Result<Name, NoMemory>
    ensures value { IfOk result (λ n. n ≡ os.now) }
    ensures name { IfOk result IsName }
{
    known_name(alloc, os.as_slice())
}

/// The name of a kernel's folder of links.
pub(crate) fn sum_name(alloc: Global, sum: &Csum) -> Result<Name, NoMemory>
    ensures value { IfOk result (λ n. n ≡ hex_of sum.now) }
    ensures name { IfOk result IsName }
{
    known_name(alloc, &sum.to_hex())
}

/// The name of a link.
pub(crate) fn link_name(alloc: Global, number: usize) -> Result<Name, NoMemory>
    requires { number < 8 }
    ensures value { IfOk result (λ n. n ≡ decimal number) }
    ensures name { IfOk result IsName }
{
    known_name(alloc, number.to_string(alloc)?.as_bytes())
}
