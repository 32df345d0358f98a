//! The places of the layout that have many names, and these names.
ghost use Rattle.std.specs.Prelude.{◌≡◌, ◌≢◌, ◌↔◌, ◌++◌, List, ℕ, IfOk, IsTrue, MatchOption};
ghost use Rattle.ost_types.specs.Csum.{IsHexDigit};
ghost use Rattle.repo_layout.specs.OsName.{IsOsName};
ghost use Rattle.layout_rules.specs.Many.{IsCopyName, IsDashedSum, IsKernelName, IsMarkName, IsNameOf, IsSumText, IsTwoDigits, IsVersion, IsVersioned, folder_of, is_version_byte};

use ost_types::{Csum, NoMemory};
use repo_layout::{Folder, OsName};
use std::alloc::Global;

/// Places that have many names, all of one kind in one folder of the layout.
#[derive(Clone, Copy, Debug, PartialEq, Eq)]
pub enum Many {
    /// The folders of kernels' copies, and these copies.
    Kernels,
    /// The folders of stateroots, and of their deployments.
    Stateroots,
    /// The folders of objects.
    Objects,
    /// The marks of commits.
    Marks,
}

/// The folder of the layout that they are in.
pub fn folder_of(many: Many) -> Folder
    ensures { result ≡ folder_of many }
{
    match many {
        Many::Kernels => Folder::Kernels,
        Many::Stateroots => Folder::Deploy,
        Many::Objects => Folder::Objects,
        Many::Marks => Folder::State,
    }
}

/// Whether it is one of the names in that folder under which they stand.
pub fn is_name_of(alloc: Global, many: Many, name: &[u8]) -> Result<bool, NoMemory>
    ensures { IfOk result (λ b. IsTrue b ↔ IsNameOf many name.now) }
{
    match many {
        Many::Kernels => is_kernel_name(alloc, name),
        Many::Stateroots => is_stateroot(alloc, name),
        Many::Objects => Ok(is_two_digits(name)),
        Many::Marks => Ok(is_mark_name(name)),
    }
}

fn is_stateroot(alloc: Global, name: &[u8]) -> Result<bool, NoMemory>
    ensures { IfOk result (λ b. IsTrue b ↔ IsOsName name.now) }
{
    let os = OsName::parse(alloc, name)?;
    Ok(os.is_some())
}

// a stateroot's name, `-` and the 64 digits of a sum
fn is_kernel_name(alloc: Global, name: &[u8]) -> Result<bool, NoMemory>
    ensures { IfOk result (λ b. IsTrue b ↔ IsKernelName name.now) }
{
    if name.len() < 65 {
        return Ok(false);
    }
    let (os, rest) = name.split_at(name.len() - 65);
    if !is_dashed_sum(rest) {
        return Ok(false);
    }
    is_stateroot(alloc, os)
}

fn is_dashed_sum(text: &[u8]) -> bool
    ensures { IsTrue result ↔ IsDashedSum text.now }
{
    match text.strip_prefix(b"-".as_slice()) {
        Some(digits) => Csum::from_hex(digits).is_some(),
        None => false,
    }
}

fn is_sum(digits: &[u8]) -> bool
    ensures { IsTrue result ↔ IsSumText digits.now }
{
    Csum::from_hex(digits).is_some()
}

fn is_two_digits(name: &[u8]) -> bool
    ensures { IsTrue result ↔ IsTwoDigits name.now }
{
    name.len() == 2 && name.iter().all(|byte| is_digit(*byte))
}

fn is_digit(byte: u8) -> bool
    ensures { IsTrue result ↔ IsHexDigit byte }
{
    matches!(byte, b'0'..=b'9' | b'a'..=b'f')
}

fn is_mark_name(name: &[u8]) -> bool
    ensures { IsTrue result ↔ IsMarkName name.now }
{
    match name.strip_suffix(b".commitpartial".as_slice()) {
        Some(digits) => is_sum(digits),
        None => false,
    }
}

/// Whether it is the name of a kernel's copy, or of its initramfs's.
pub fn is_copy_name(name: &[u8]) -> bool
    ensures { IsTrue result ↔ IsCopyName name.now }
{
    is_versioned(b"vmlinuz-", b"", name) || is_versioned(b"initramfs-", b".img", name)
}

fn is_versioned(front: &[u8], end: &[u8], name: &[u8]) -> bool
    ensures { IsTrue result ↔ IsVersioned front.now end.now name.now }
{
    match between(front, end, name) {
        Some(version) => is_version(version),
        None => false,
    }
}

fn between<'a>(front: &[u8], end: &[u8], name: &'a [u8]) -> Option<&'a [u8]>
    ensures { MatchOption result ((x : List ℕ) → name.now ≢ front.now ++ (x ++ end.now)) (λ x. name.now ≡ front.now ++ (x.now ++ end.now)) }
{
    match name.strip_prefix(front) {
        Some(rest) => rest.strip_suffix(end),
        None => None,
    }
}

fn is_version(text: &[u8]) -> bool
    ensures { IsTrue result ↔ IsVersion text.now }
{
    !text.is_empty() && text.len() <= 241 && text.iter().all(|byte| is_version_byte(*byte))
}

fn is_version_byte(byte: u8) -> bool
    ensures { result ≡ is_version_byte byte }
{
    byte.is_ascii_alphanumeric()
        || byte == b'-'
        || byte == b'_'
        || byte == b'.'
        || byte == b'+'
        || byte == b'~'
}
