ghost use Rattle.std.specs.Prelude.{◌≡◌, ◌+◌, ◌++◌, ◌≤◌, ◌↔◌, length, IfOk, IsTrue};
ghost use Rattle.ost_types.specs.Path.{IsPath, joined, text_of, under};

use super::FsPath;
use crate::{Bytes, Name, NoMemory};

impl FsPath {
    /// The text of the path: a `/` before each name, and `/` alone for the root.
    pub fn text(&self) -> Result<Bytes, NoMemory>
        ensures { IfOk result (λ text. text ≡ text_of self.now) }
    {
        let mut text = Bytes::new(*self.names.allocator());
        if self.names.is_empty() {
            text.push(b'/')?;
            return Ok(text);
        }
        for name in self.names.as_slice() {
            text.push(b'/')?;
            text.append(name.as_slice())?;
        }
        Ok(text)
    }

    /// Whether `join` may be called, that is whether the path from this one on by the other is within the bounds of the type.
    pub fn can_join(&self, rest: &FsPath) -> bool
        ensures { IsTrue result ↔ IsPath (self.now ++ rest.now) }
    {
        let (names, more) = (self.names(), rest.names());
        names.len() + more.len() <= 80 && joined_len(names) + joined_len(more) <= 2048
    }

    /// Whether `child` may be called, that is whether the path of this name in the folder is within the bounds of the type.
    pub fn can_hold(&self, name: &Name) -> bool
        ensures { IsTrue result ↔ IsPath (under self.now name.now) }
    {
        let (names, last) = (self.names(), name.as_slice());
        names.len() < 80 && joined_len(names) + 1 + last.len() <= 2048
    }
}

// The bytes of the names, each behind a `/`.
fn joined_len(names: &[Name]) -> usize
    requires { IsPath names.now }
    ensures value { result ≡ length (joined names.now) }
    ensures bound { result ≤ 2048 }
{
    let mut bytes = 0;
    for name in names {
        bytes += 1 + name.as_slice().len();
    }
    bytes
}
