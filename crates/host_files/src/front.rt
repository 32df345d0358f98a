//! The front of a leaf: its content stream without the content, which says whose it is and where a link leads.
ghost use Rattle.std.specs.Prelude.{◌≡◌, ◌≢◌, ◌≤◌, Bool, [], Some, IfOk, MatchOption};
ghost use Rattle.ost_types.specs.Mode.{IsFileMode, IsLinkMode};
ghost use Rattle.ost_forms.specs.declared.body.Body.TheVariants.{Regular, Symlink};
ghost use Rattle.ost_forms.specs.Stream.{content_form, ReadsContent};
ghost use Rattle.host_files.specs.declared.front.Start.{Start};
ghost use Rattle.host_files.specs.Front.{IsStart, IsLeafMode};

use crate::HEADER_LEN;
use crate::header::number_at;
use ost_forms::{Body, Content, OBJECT_LIMIT, ObjFault, read_content, write_content};
use ost_types::{Bytes, Limits, Meta, NoMemory, Text, TryCopy, is_file_mode, is_link_mode};
use std::alloc::Global;

/// What the first 26 bytes of a leaf say, whatever its attributes are.
#[derive(Clone, Copy, Debug, PartialEq, Eq)]
pub struct Start {
    /// The number of bytes of the header, without the eight before it.
    pub header_len: u32,
    pub is_link: bool,
}

impl Start {
    /// What these bytes say. None where no leaf begins with them.
    pub fn parse(bytes: &[u8; HEADER_LEN]) -> Option<Start>
        ensures { MatchOption result ((s : Start) → IsStart bytes.now s → ⊥) (IsStart bytes.now) }
    {
        let is_link = is_link_of(number_at(bytes, 16))?;
        let header_len = number_at(bytes, 0);
        if header_len < 18 || header_len > OBJECT_LIMIT as u32 {
            return None;
        }
        if number_at(bytes, 4) != 0 || number_at(bytes, 20) != 0 {
            return None;
        }
        Some(Start {
            header_len,
            is_link,
        })
    }
}

// Whether a mode is a link's, or a file's. None where it is another.
fn is_link_of(mode: u32) -> Option<bool>
    ensures { MatchOption result ((b : Bool) → IsLeafMode b mode → ⊥) (λ b. IsLeafMode b mode) }
{
    if is_link_mode(mode) {
        Some(true)
    } else if is_file_mode(mode) {
        Some(false)
    } else {
        None
    }
}

/// The leaf that has this front, without content.
pub fn read_front(alloc: Global, front: &[u8]) -> Result<Content, ObjFault>
    ensures { ReadsContent (λ c. c.meta) (λ c. c.body) 0 front.now result }
{
    let limits = Limits {
        objects: 0,
        paths: 0,
        content: 0,
    };
    read_content(alloc, front, &limits)
}

/// The front of a regular file.
pub fn file_front(alloc: Global, meta: &Meta) -> Result<Bytes, NoMemory>
    requires { IsFileMode meta.now.mode }
    ensures { IfOk result (λ b. content_form meta.now (Regular []) ≡ Some b) }
{
    let content = Content {
        meta: meta.copy()?,
        body: Body::Regular(Bytes::new(alloc)),
    };
    write_content(alloc, &content)
}

/// The front of a symbolic link, which is all of it.
pub fn link_front(alloc: Global, meta: &Meta, target: &Text) -> Result<Bytes, NoMemory>
    requires mode { IsLinkMode meta.now.mode }
    requires target { target.now ≢ [] }
    ensures { IfOk result (λ b. content_form meta.now (Symlink target.now) ≡ Some b) }
{
    let content = Content {
        meta: meta.copy()?,
        body: Body::Symlink(target.copy()?),
    };
    write_content(alloc, &content)
}
