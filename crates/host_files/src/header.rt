//! The front of a regular file without extended attributes, which is read and written without memory.
ghost use Rattle.std.specs.Prelude.{◌≡◌, ◌+◌, ◌≤◌, ◌<◌, ◌^◌, ℕ, [], Some, IfSome, IsSomeAnd, take, drop};
ghost use Rattle.std.specs.Int.{from_be_bytes, w32};
ghost use Rattle.ost_types.specs.Mode.{IsFileMode};
ghost use Rattle.ost_types.specs.declared.meta.Meta.{Meta};
ghost use Rattle.ost_forms.specs.declared.body.Body.TheVariants.{Regular};
ghost use Rattle.ost_forms.specs.Stream.{content_form};
ghost use Rattle.host_files.specs.Header.{header, IsHeader, Has};

use ost_forms::{Body, Content};
use ost_types::{Bytes, Meta, Xattrs, is_file_mode};
use std::alloc::Global;

/// The number of bytes of such a front, the least of any leaf.
pub const HEADER_LEN: usize = 26;

/// The header of a regular file without extended attributes.
#[derive(Clone, Copy, Debug, PartialEq, Eq)]
pub struct FileHeader {
    pub uid: u32,
    pub gid: u32,
    pub mode: u32,
}

impl FileHeader {
    /// The header that these bytes are, or None where they aren't that of a regular file without extended attributes.
    pub fn parse(bytes: &[u8; HEADER_LEN]) -> Option<FileHeader>
        ensures only { IfSome result (IsHeader bytes.now) }
        ensures each { (u g m : ℕ) → u < 2 ^ 32 → g < 2 ^ 32 → IsFileMode m → bytes.now ≡ header u g m → IsSomeAnd result (Has u g m) }
    {
        let header = FileHeader {
            uid: number_at(bytes, 8),
            gid: number_at(bytes, 12),
            mode: number_at(bytes, 16),
        };
        if is_file_mode(header.mode) && header.to_bytes() == *bytes {
            Some(header)
        } else {
            None
        }
    }

    pub fn to_bytes(self) -> [u8; HEADER_LEN]
        ensures { result ≡ header self.uid self.gid self.mode }
    {
        let [u0, u1, u2, u3] = self.uid.to_be_bytes();
        let [g0, g1, g2, g3] = self.gid.to_be_bytes();
        let [m0, m1, m2, m3] = self.mode.to_be_bytes();
        [
            0, 0, 0, 18, 0, 0, 0, 0, u0, u1, u2, u3, g0, g1, g2, g3, m0, m1, m2, m3, 0, 0, 0, 0, 0,
            17,
        ]
    }

    /// The empty file with this header.
    pub fn content(self, alloc: Global) -> Content
        requires { IsFileMode self.mode }
        ensures meta { result.meta ≡ record { uid = self.uid; gid = self.gid; mode = self.mode; xattrs = [] } }
        ensures body { result.body ≡ Regular [] }
        ensures form { content_form result.meta result.body ≡ Some (header self.uid self.gid self.mode) }
    {
        Content {
            meta: Meta {
                uid: self.uid,
                gid: self.gid,
                mode: self.mode,
                xattrs: Xattrs::new(alloc),
            },
            body: Body::Regular(Bytes::new(alloc)),
        }
    }
}

pub fn number_at(bytes: &[u8; HEADER_LEN], at: usize) -> u32
    requires { at + 4 ≤ 26 }
    ensures { result ≡ from_be_bytes w32 (take 4 (drop at bytes.now)) }
{
    u32::from_be_bytes([bytes[at], bytes[at + 1], bytes[at + 2], bytes[at + 3]])
}
