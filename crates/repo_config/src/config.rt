ghost use Rattle.std.specs.Prelude.{◌≡◌, ◌≢◌, ◌≤◌, ◌↔◌, IfOk, IsTrue, false, codes, length};
ghost use Rattle.keyfile.specs.declared.fault.KeyFault.TheVariants as faults;
ghost use Rattle.repo_config.specs.Config.{IsConfig, SaysOfCore, config_limit};
ghost use Rattle.repo_config.specs.Config as config;

use keyfile::{KeyFault, KeyLine, read_keyfile};
use ost_types::NoMemory;
use std::alloc::Global;

/// The most bytes of a configuration: 1 MiB.
pub const CONFIG_LIMIT: usize = 1_048_576;

/// Whether the text is a keyfile of at most `CONFIG_LIMIT` bytes whose group `core` says `repo_version=1` and `mode=bare`.
pub fn is_config(alloc: Global, bytes: &[u8]) -> Result<bool, NoMemory>
    ensures { IfOk result (λ b. IsTrue b ↔ IsConfig bytes.now) }
{
    if bytes.len() > CONFIG_LIMIT {
        return Ok(false);
    }
    says_config(alloc, bytes)
}

fn says_config(alloc: Global, bytes: &[u8]) -> Result<bool, NoMemory>
    requires { length bytes.now ≤ config_limit }
    ensures { IfOk result (λ b. IsTrue b ↔ IsConfig bytes.now) }
{
    match read_keyfile(alloc, bytes) {
        Ok(entries) => Ok(is_of_bare(entries.as_slice())),
        Err(fault) => no_config(fault),
    }
}

fn no_config(fault: KeyFault) -> Result<bool, NoMemory>
    ensures { IfOk result (λ b. (b ≡ false) × (fault ≢ faults.NoMemory)) }
{
    match fault {
        KeyFault::NoMemory => Err(NoMemory),
        KeyFault::BadLine(_) => Ok(false),
        KeyFault::NoGroup(_) => Ok(false),
        KeyFault::Repeated(_) => Ok(false),
    }
}

fn is_of_bare(entries: &[KeyLine]) -> bool
    ensures { IsTrue result ↔ (SaysOfCore entries.now (codes "repo_version") (codes "1") × SaysOfCore entries.now (codes "mode") (codes "bare")) }
{
    says_of_core(entries, b"repo_version", b"1") && says_of_core(entries, b"mode", b"bare")
}

fn says_of_core(entries: &[KeyLine], key: &[u8], value: &[u8]) -> bool
    ensures { IsTrue result ↔ SaysOfCore entries.now key.now value.now }
{
    entries.iter().any(|entry| is_of_core(entry, key, value))
}

fn is_of_core(entry: &KeyLine, key: &[u8], value: &[u8]) -> bool
    ensures { IsTrue result ↔ (entry.now ≡ record { group = codes "core"; key = key.now; value = value.now }) }
{
    entry.group.as_slice() == b"core".as_slice()
        && entry.key.as_slice() == key
        && entry.value.as_slice() == value
}

/// The configuration that is written where there is none.
pub fn config_text() -> &'static [u8]
    ensures { result.now ≡ config.config_text }
{
    b"[core]\nrepo_version=1\nmode=bare\n"
}
