//! A leaf of the host: a file that holds a content stream.
ghost use Rattle.std.specs.Prelude.{◌≡◌, ◌≢◌, ◌-◌, ◌+◌, ◌≤◌, ◌<◌, ◌^◌, Ok, Err, IfOk, IfErr, false, length, min, option_map};
ghost use Rattle.std.specs.Option.{is_some};
ghost use Rattle.fs_trait.specs.Effect.{OfFinding};
ghost use Rattle.fs_trait.specs.declared.types.FsErr.TheVariants as error;
ghost use Rattle.host_files.specs.Front.{node_of};

use crate::front::read_front;
use crate::{Fault, FileHeader, HEADER_LEN, Start};
use fs_trait::{FsErr, Node};
use ost_forms::{Body, Content, ObjFault};
use ost_types::Bytes;
use std::alloc::Global;
use std::fs::{File, OpenFile, OpenOptions};
use std::io;
use std::io::{Read, Seek, SeekFrom, Write};
use std::rt::Files;

const PIECE: usize = 8192;

/// No longer file of the host is read whole: the most bytes of a content, and of a front.
pub const MOST_READ: u64 = 268_435_456 + 67_108_872;

/// A file that holds a leaf, open for reading.
#[derive(Drop)]
pub struct Opened<F> {
    file: F,
    // The number of bytes of its front, and of its content.
    start: u64,
    len: u64,
    ghost whole: { start + len < 2 ^ 64 },
}

/// A leaf that is open for reading.
#[derive(Drop)]
pub struct Leaf<F> {
    pub opened: Opened<F>,
    pub is_link: bool,
    // What its front says. None where there was no memory to read it.
    node: Option<Content>,
}

impl<F: Read + Seek + Drop> Opened<F> {
    /// The content from one place on, at most so many bytes.
    pub fn content(&mut self, alloc: Global, from: u64, max: u64) -> Result<Bytes, FsErr>
        ensures length { IfOk result (λ b. length b ≡ min max (self.old.len - from)) }
        ensures named { IfErr result OfFinding }
    {
        let count = max.min(self.len.saturating_sub(from));
        let mut bytes = Vec::from_elem(alloc, 0u8, count as usize)?;
        if count > 0 && read_at(&mut self.file, from + self.start, &mut bytes).is_err() {
            return Err(FsErr::Failed);
        }
        Ok(Bytes::from_vec(bytes))
    }

    /// The whole content. One of a file that is too long is `Failed` before memory is taken for it.
    pub fn whole_content(&mut self, alloc: Global) -> Result<Bytes, FsErr>
        ensures length { IfOk result (λ b. length b ≡ self.old.len) }
        ensures bounded { 335544328 < self.old.start + self.old.len → result ≡ Err error.Failed }
        ensures named { IfErr result OfFinding }
    {
        if self.size() > MOST_READ {
            return Err(FsErr::Failed);
        }
        let len = self.len;
        self.content(alloc, 0, len)
    }

    /// The number of bytes of the host's file.
    pub fn size(&self) -> u64
        ensures { result ≡ self.now.start + self.now.len }
    {
        self.start + self.len
    }
}

impl<F: Read + Seek + Drop> Leaf<F> {
    /// Whether there was memory to read its front.
    pub fn is_read(&self) -> bool
        ensures { result ≡ is_some self.now.node }
    {
        self.node.is_some()
    }

    /// What `stat` tells of it, None where there was no memory to read it; and the open file.
    pub fn into_node(self) -> (Option<Node>, Opened<F>)
        ensures { result.0 ≡ option_map (λ c. node_of self.opened.len c.meta c.body) self.node }
    {
        let Leaf { opened, node, .. } = self;
        let len = opened.len;
        (node.map(|content| node_of(content, len)), opened)
    }

    /// The file, where there was memory to read its front.
    pub fn into_read(self) -> Result<Opened<F>, FsErr>
        ensures { IfErr result OfFinding }
    {
        let Leaf {
            opened,
            node: Some(_),
            ..
        } = self
        else {
            return Err(FsErr::NoMemory);
        };
        Ok(opened)
    }

    /// Whether two leaves have the same bytes, and so the same attributes and content.
    pub fn is_equal(self, other: Leaf<F>) -> Result<bool, Fault>
        ensures { self.opened.start + self.opened.len ≢ other.opened.start + other.opened.len → result ≡ Ok false }
    {
        let size = self.opened.size();
        if other.opened.size() != size {
            return Ok(false);
        }
        let (mut one, mut two) = (self.into_file()?, other.into_file()?);
        are_equal(&mut one, &mut two, size)
    }

    // The host's file, at its first byte.
    fn into_file(self) -> Result<F, Fault> {
        let Opened { mut file, .. } = self.opened;
        file.seek(SeekFrom::Start(0))?;
        Ok(file)
    }
}

fn node_of(content: Content, len: u64) -> Node
    ensures { result ≡ node_of len content.meta content.body }
{
    let Content { meta, body } = content;
    match body {
        Body::Regular(_) => Node::File { meta, len },
        Body::Symlink(target) => Node::Link { meta, target },
    }
}

// Whether the next bytes are the same, so many of each.
fn are_equal<F: Read>(one: &mut F, two: &mut F, count: u64) -> Result<bool, Fault> {
    let mut left = count;
    let mut ours = [0u8; PIECE];
    let mut theirs = [0u8; PIECE];
    while left > 0 {
        let count = left.min(PIECE as u64);
        one.read_exact(&mut ours[..count as usize])?;
        two.read_exact(&mut theirs[..count as usize])?;
        if ours[..count as usize] != theirs[..count as usize] {
            return Ok(false);
        }
        left -= count;
    }
    Ok(true)
}

fn read_at<F: Read + Seek>(file: &mut F, at: u64, into: &mut [u8]) -> io::Result<()> {
    file.seek(SeekFrom::Start(at))?;
    file.read_exact(into)
}

/// Opens a regular file of the host, of so many bytes, for reading. One that holds no content stream is no leaf; where there is no memory
/// to read its front, it is judged by the first 26 bytes.
pub fn open_leaf<R: Files>(
    rt: &R,
    alloc: Global,
    text: &str,
    size: u64,
) -> Result<Leaf<R::File>, Fault> {
    let mut file = File::open(rt, text)?;
    let mut first = [0u8; HEADER_LEN];
    file.read_exact(&mut first)?;
    let Some(
        Start {
            header_len,
            is_link,
        },
    ) = Start::parse(&first)
    else {
        return Err(Fault);
    };
    let start = u64::from(header_len) + 8;
    let Some(len) = size.checked_sub(start) else {
        return Err(Fault);
    };
    if is_link && len > 0 {
        return Err(Fault);
    }
    let node = read_node(alloc, &mut file, &first, start as usize)?;
    Ok(Leaf {
        opened: Opened { file, start, len },
        is_link,
        node,
    })
}

// What a front of so many bytes says, whose first are known. None where there was no memory for it.
fn read_node<F: Read + Seek>(
    alloc: Global,
    file: &mut F,
    first: &[u8; HEADER_LEN],
    len: usize,
) -> Result<Option<Content>, Fault> {
    if let Some(header) = FileHeader::parse(first) {
        return Ok(Some(header.content(alloc)));
    }
    let Ok(mut front) = Vec::from_elem(alloc, 0u8, len) else {
        return Ok(None);
    };
    read_at(file, 0, &mut front)?;
    match read_front(alloc, &front) {
        Ok(content) => Ok(Some(content)),
        Err(ObjFault::NoMemory) => Ok(None),
        Err(_) => Err(Fault),
    }
}

/// Adds bytes to a host file. Where they can't be written whole, it is cut back to what it was.
pub fn extend_leaf<R: Files>(rt: &R, text: &str, bytes: &[u8]) -> Result<R::File, Fault> {
    let mut file = OpenOptions::new().append(true).open(rt, text)?;
    let len = file.metadata()?.len();
    extend(&mut file, len, bytes)?;
    Ok(file)
}

/// Adds bytes to a file of so many bytes that is open at its end. Where they can't be written whole, it is cut back.
pub fn extend<F: OpenFile + Write>(file: &mut F, len: u64, bytes: &[u8]) -> Result<(), Fault> {
    match file.write_all(bytes) {
        Ok(()) => Ok(()),
        Err(e) => {
            let _ = file.set_len(len);
            Err(Fault::from(e))
        }
    }
}
