//! The text of a path on the host, in room that was taken once.
ghost use Rattle.std.specs.Prelude.{◌≡◌, ◌++◌, ◌∷◌, [], ◌+◌, ◌≤◌, length, IfOk};
ghost use Rattle.host_files.specs.HostPath.{host_text};

use ost_types::{FsPath, NoMemory};
use std::alloc::Global;
use std::marker::Model;

// The longest text of a path is of 2,048 bytes; there is room for the `.` before it and for the reserved names behind it.
const ROOM: usize = 2080;

/// A text of at most 2,080 bytes, which takes no memory once it was made.
#[derive(Drop)]
pub struct HostPath {
    text: String,
}

impl Model for HostPath {
    ghost use Rattle.std.specs.Prelude.{List, ℕ, ◌≤◌};
    ghost use Rattle.std.specs.String.{string_bytes, string_capacity};

    ghost Value = { List ℕ };

    ghost view = { λ a. string_bytes a.text };

    ghost invariant = { λ a. 2080 ≤ string_capacity a.text };
}

impl HostPath {
    pub fn new(alloc: Global) -> Result<HostPath, NoMemory>
        ensures { IfOk result (λ p. p ≡ []) }
    {
        Ok(HostPath {
            text: String::with_capacity(alloc, ROOM)?,
        })
    }

    pub fn as_str(&self) -> &str
        ensures { result.now ≡ self.now }
    {
        self.text.as_str()
    }

    /// Makes it the text of the current folder.
    pub fn restart(&mut self)
        ensures { self.new ≡ 46 ∷ [] }
    {
        self.text.clear();
        self.add(".");
    }

    /// Makes it this text.
    pub fn set(&mut self, text: &str)
        requires { length text.now ≤ 2080 }
        ensures { self.new ≡ text.now }
    {
        self.text.clear();
        self.add(text);
    }

    /// Goes on to a name in the folder.
    pub fn push(&mut self, name: &str)
        requires { length self.old + 1 + length name.now ≤ 2080 }
        ensures { self.new ≡ self.old ++ 47 ∷ name.now }
    {
        self.add("/");
        self.add(name);
    }

    /// Adds a text behind it.
    pub fn add(&mut self, text: &str)
        requires { length self.old + length text.now ≤ 2080 }
        ensures { self.new ≡ self.old ++ text.now }
    {
        let Ok(()) = self.text.push_str(text) else {
            unreachable!();
        };
    }
}
