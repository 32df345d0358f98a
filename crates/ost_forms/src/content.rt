//! Files and symbolic links as content streams.

ghost use Rattle.std.specs.Prelude.{◌≡◌, ◌≤◌, Some, IfOk, MatchOption};
ghost use Rattle.ost_forms.specs.Stream.{framed, stream_form, content_form, FitsMode, header_part, content_part, HeaderFits, IsFile, ReadsContent, TestsContent, Tells, Opens, Joins};
ghost use Rattle.ost_forms.specs.Finds.{Finds};

use crate::body::{Body, Header};
use crate::dirmeta::OBJECT_LIMIT;
use crate::fault::ObjFault;
use crate::header::{read_header, write_header};
use crate::number::number_32;
use gv_core::GvBytes;
use ost_types::{Bytes, Limits, Meta, NoMemory, is_file_mode, is_link_mode};
use std::alloc::Global;

/// A regular file or a symbolic link: its attributes, and what it holds.
#[derive(Drop, Debug)]
pub struct Content {
    pub meta: Meta,
    pub body: Body,
    ghost fits: { ∥ FitsMode meta.mode body ∥₁ },
}

/// The file whose content stream these bytes are.
pub fn read_content(alloc: Global, bytes: &[u8], limits: &Limits) -> Result<Content, ObjFault>
    ensures { ReadsContent (λ c. c.meta) (λ c. c.body) limits.now.content bytes.now result }
{
    let (header, content) = open_stream(alloc, bytes, limits)?;
    join_content(alloc, header, content)
}

/// Whether these bytes are a file's content stream. The content is only looked at, and not copied.
pub fn test_content(alloc: Global, bytes: &[u8], limits: &Limits) -> Result<(), ObjFault>
    ensures { TestsContent limits.now.content bytes.now result }
{
    let (header, content) = open_stream(alloc, bytes, limits)?;
    if is_file(&header, content) {
        Ok(())
    } else {
        Err(ObjFault::BadMode)
    }
}

/// The header and the content, whether they go together or not.
fn open_stream<'a>(
    alloc: Global,
    bytes: &'a [u8],
    limits: &Limits,
) -> Result<(Header, &'a [u8]), ObjFault>
    ensures { Opens (λ p. p.0) (λ p. p.1.now) limits.now.content bytes.now result }
{
    let Some((header, content)) = split_stream(bytes) else {
        return Err(ObjFault::NotNormal);
    };
    if header.len() > OBJECT_LIMIT {
        return Err(ObjFault::TooLarge(header.len() as u64));
    }
    if content.len() as u64 > limits.content {
        return Err(ObjFault::TooLarge(content.len() as u64));
    }
    let header = read_stream(alloc, bytes, header)?;
    Ok((header, content))
}

fn is_file(header: &Header, content: &[u8]) -> bool
    ensures { Tells (IsFile header.now content.now) result }
{
    let mode = header.meta.mode;
    let target = header.target.as_slice();
    if header.rdev != 0 {
        return false;
    }
    if target.is_empty() {
        return is_file_mode(mode);
    }
    is_link_mode(mode) && content.is_empty()
}

/// The header's bytes and the content, where the header fits the stream.
fn split_stream(bytes: &[u8]) -> Option<(&[u8], &[u8])>
    ensures { MatchOption result (HeaderFits bytes.now → ⊥) (λ p. HeaderFits bytes.now × (p.0.now ≡ header_part bytes.now) × (p.1.now ≡ content_part bytes.now)) }
{
    if bytes.len() < 8 {
        return None;
    }
    let size = number_32(&bytes[..4]) as usize;
    let rest = &bytes[8..];
    if size > rest.len() {
        return None;
    }
    Some(rest.split_at(size))
}

fn read_stream(alloc: Global, bytes: &[u8], header: &[u8]) -> Result<Header, ObjFault>
    requires fits { HeaderFits bytes.now }
    requires header { header.now ≡ header_part bytes.now }
    ensures { Finds (λ h. h) (stream_form (content_part bytes.now)) bytes.now result }
{
    if bytes[4..8] != [0, 0, 0, 0] {
        return Err(ObjFault::NotNormal);
    }
    read_header(alloc, header)
}

fn join_content(alloc: Global, header: Header, content: &[u8]) -> Result<Content, ObjFault>
    ensures { Joins (λ c. c.meta) (λ c. c.body) header content.now result }
{
    let Header { meta, rdev, target } = header;
    if rdev != 0 {
        return Err(ObjFault::BadMode);
    }
    let is_empty = target.as_slice().is_empty();
    if is_file_mode(meta.mode) && is_empty {
        let body = Body::Regular(Bytes::from_slice(alloc, content)?);
        return Ok(Content { meta, body });
    }
    if is_link_mode(meta.mode) && !is_empty && content.is_empty() {
        let body = Body::Symlink(target);
        return Ok(Content { meta, body });
    }
    Err(ObjFault::BadMode)
}

/// The content stream of a file. A header of 2^32 bytes or more has none: it is answered as want of memory.
pub fn write_content(alloc: Global, value: &Content) -> Result<Bytes, NoMemory>
    ensures { IfOk result (λ b. content_form value.now.meta value.now.body ≡ Some b) }
{
    match &value.body {
        Body::Regular(bytes) => {
            let header = write_header(alloc, &value.meta, &[])?;
            write_stream(alloc, &header, bytes.as_slice())
        }
        Body::Symlink(target) => {
            let header = write_header(alloc, &value.meta, target.as_slice())?;
            write_stream(alloc, &header, &[])
        }
    }
}

fn write_stream(alloc: Global, header: &GvBytes, content: &[u8]) -> Result<Bytes, NoMemory>
    ensures { IfOk result (λ b. framed header.now content.now ≡ Some b) }
{
    let header = header.as_slice();
    let Ok(size) = u32::try_from(header.len()) else {
        return Err(NoMemory);
    };
    let whole = content.len().saturating_add(header.len()).saturating_add(8);
    let mut bytes = Vec::with_capacity(alloc, whole)?;
    bytes.extend_from_slice(&size.to_be_bytes())?;
    bytes.extend_from_slice(&[0, 0, 0, 0])?;
    bytes.extend_from_slice(header)?;
    bytes.extend_from_slice(content)?;
    Ok(Bytes::from_vec(bytes))
}
