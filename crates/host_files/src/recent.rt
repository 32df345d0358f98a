//! The file that `stat` looked at last, still open.
ghost use Rattle.std.specs.Prelude.{◌≤◌, length};

use crate::HostPath;
use crate::leaf::Opened;
use ost_types::NoMemory;
use std::alloc::Global;

/// A regular file that is open, by the text of its path.
#[derive(Drop)]
pub struct Recent<F> {
    text: HostPath,
    opened: Option<Opened<F>>,
}

impl<F: Drop> Recent<F> {
    pub fn new(alloc: Global) -> Result<Recent<F>, NoMemory> {
        Ok(Recent {
            text: HostPath::new(alloc)?,
            opened: None,
        })
    }

    /// Keeps an open file.
    pub fn keep(&mut self, text: &str, opened: Opened<F>)
        requires { length text.now ≤ 2080 }
    {
        self.text.set(text);
        self.opened = Some(opened);
    }

    /// Takes the open file of a text out, if it is kept.
    pub fn take(&mut self, text: &str) -> Option<Opened<F>> {
        if self.text.as_str() == text {
            self.opened.take()
        } else {
            None
        }
    }

    /// Closes the file, before it may change.
    pub fn close(&mut self) {
        self.opened = None;
    }
}
