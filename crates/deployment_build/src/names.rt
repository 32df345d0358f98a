//! The name of an origin file.
ghost use Rattle.std.specs.Prelude.{◌≡◌, IfOk};
ghost use Rattle.ost_types.specs.Text.{IsName};
ghost use Rattle.deployment_build.specs.Deployment.{origin_name};

use boot_model::DepId;
use ost_types::{Bytes, Name, NoMemory};
use std::alloc::Global;

/// The name: `<commit>.<serial>.origin`, the serial in decimal.
pub(crate) fn origin_name(alloc: Global, id: &DepId) -> Result<Name, NoMemory>
    ensures value { IfOk result (λ n. n ≡ origin_name id.now) }
    ensures name { IfOk result IsName }
{
    let serial = id.serial;
    let mut text = Bytes::from_slice(alloc, &id.commit.to_hex())?;
    text.push(b'.')?;
    text.append(serial.to_string(alloc)?.as_bytes())?;
    text.append(b".origin")?;
    known_name(alloc, text.as_slice())
}

/// The name that these bytes are known to be.
pub(crate) fn known_name(alloc: Global, bytes: &[u8]) -> Result<Name, NoMemory>
    requires { IsName bytes.now }
    ensures value { IfOk result (λ n. n ≡ bytes.now) }
    ensures name { IfOk result IsName }
{
    match Name::parse(alloc, bytes)? {
        Some(name) => Ok(name),
        None => unreachable!(),
    }
}
