//! The names of a folder, as they are read.
use std::io;
use std::io::Read;

/// The names of a folder, each with a zero behind it. No read ends inside a name.
#[derive(Drop)]
pub struct MemoryDir {
    names: Vec<u8>,
    at: usize,
}

impl MemoryDir {
    pub fn new(names: Vec<u8>) -> MemoryDir {
        MemoryDir { names, at: 0 }
    }
}

impl Read for MemoryDir {
    fn read(&mut self, buf: &mut [u8]) -> io::Result<usize> {
        let rest = self.names.get(self.at..).unwrap_or(&[]);
        let mut whole = rest.get(..whole_names(rest, buf.len())).unwrap_or(&[]);
        let count = whole.read(buf)?;
        self.at = self.at.saturating_add(count);
        Ok(count)
    }
}

// How many bytes the first names have that find room together.
fn whole_names(names: &[u8], room: usize) -> usize {
    let mut whole: usize = 0;
    let mut count: usize = 0;
    for byte in names.iter().take(room) {
        count = count.saturating_add(1);
        if *byte == 0 {
            whole = count;
        }
    }
    whole
}
