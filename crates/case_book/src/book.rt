//! What a book of cases says.
use ost_forms::TreeItem;
use ost_types::{Bytes, FsPath, NoMemory, TryCopy};

/// Texts and disks with names, and cases that speak of them.
#[derive(Drop)]
pub struct Book {
    pub texts: Vec<NamedText>,
    pub disks: Vec<Disk>,
    pub cases: Vec<Case>,
}

#[derive(Drop)]
pub struct NamedText {
    pub name: Bytes,
    pub text: Bytes,
}

/// A disk of these nodes. Each stands behind the folder that it is in.
#[derive(Drop)]
pub struct Disk {
    pub name: Bytes,
    pub nodes: Vec<TreeItem>,
    /// Given when all nodes are there.
    pub names: Vec<SecondName>,
}

/// One leaf stands at both paths.
#[derive(Drop)]
pub struct SecondName {
    /// Where it stands before.
    pub first: FsPath,
    pub second: FsPath,
}

impl TryCopy for SecondName {
    fn copy(&self) -> Result<SecondName, NoMemory> {
        Ok(SecondName {
            first: self.first.copy()?,
            second: self.second.copy()?,
        })
    }
}

/// Calls of the program, one after the other on one disk.
#[derive(Drop)]
pub struct Case {
    pub name: Bytes,
    /// None is the disk of the root alone.
    pub disk: Option<Bytes>,
    /// It is run over the host's file system, too.
    pub is_host: bool,
    pub steps: Vec<Step>,
}

#[derive(Drop)]
pub enum Step {
    /// Nodes that are added, each behind the folder that it is in.
    Add(Vec<TreeItem>),
    /// The leaf that is unlinked.
    Remove(FsPath),
    /// Leaves get second names.
    Names(Vec<SecondName>),
    Call(Call),
}

/// A call of the program, or a family of calls.
#[derive(Drop)]
pub struct Call {
    /// The number of its line in the book.
    pub line: u32,
    pub asked: Asked,
    pub plan: Plan,
    pub family: Family,
    /// What may come of it.
    pub outcomes: Vec<Outcome>,
}

/// The words of a call, and the name of the text that is its input.
#[derive(Drop)]
pub struct Asked {
    pub words: Vec<Bytes>,
    pub input: Option<Bytes>,
}

/// What a call works on besides the disk.
#[derive(Drop)]
pub struct Plan {
    /// The calls of the source that fail, from 1.
    pub source: Vec<u64>,
    /// The calls of the sink that fail, from 1.
    pub sink: Vec<u64>,
    /// How many bytes the sink takes, where it is told.
    pub room: Option<usize>,
    /// How many objects the repository may have, where it isn't the standard limit.
    pub objects: Option<u32>,
}

/// How often a call is made, each time on a copy of the disk, which stays.
#[derive(Drop)]
pub enum Family {
    /// Once, and on the disk itself.
    Once,
    /// With each of these calls of the disk failing.
    Calls(FailingCalls),
    /// With each line of the text in the place of `$` in the input and the words.
    Lines(Bytes),
    /// With each byte of the input left out. The text has for each byte the number of its outcome, from 1.
    Bytes(Option<Bytes>),
    /// By each of these schedules.
    Schedules(Schedules),
    /// Where another program removes a leaf before each of these calls of the disk.
    Removals(Removals),
}

#[derive(Drop)]
pub struct Removals {
    pub at: FsPath,
    pub ranges: Vec<Range>,
}

#[derive(Drop)]
pub struct FailingCalls {
    pub ways: Ways,
    pub ranges: Vec<Range>,
}

/// Whether a call that fails takes its effect first.
#[derive(Clone, Copy, Debug, PartialEq, Eq)]
pub enum Ways {
    Done,
    Undone,
    /// Each way in turn.
    Both,
}

/// Numbers from the first to the last, or on without end.
#[derive(Clone, Copy, Debug, PartialEq, Eq)]
pub struct Range {
    pub first: u64,
    pub last: Option<u64>,
}

/// The schedules of so many lanes with one and with two switches, each lane acting up to so many times.
#[derive(Clone, Copy, Debug, PartialEq, Eq)]
pub struct Schedules {
    pub lanes: u8,
    pub acts: u64,
}

/// What a call prints, and its exit status.
#[derive(Drop)]
pub struct Printed {
    pub status: u8,
    pub text: Bytes,
    /// Anything may follow the text.
    pub is_front: bool,
}

/// What may come of a call, and what then holds.
#[derive(Drop)]
pub struct Outcome {
    pub printed: Printed,
    pub checks: Vec<Check>,
}

/// What holds after a call.
#[derive(Drop)]
pub enum Check {
    /// The disk has these nodes, and those of them that are files have these bytes.
    Holds(Vec<TreeItem>),
    /// Something stands there.
    There(FsPath),
    /// Nothing stands there.
    Absent(FsPath),
    /// One inode stands at both.
    Same(FsPath, FsPath),
    /// The folder has these names, in the order of their bytes.
    Lists(FsPath, Vec<Bytes>),
    /// The call made so many changes of the disk, those with no effect among them.
    Changes(u64),
    /// So many changes of refs last.
    Lasting(u64),
    /// Whether a change is shown, or may be, that doesn't last yet.
    Pending(bool),
    Crash(Crash),
}

/// What a call comes to on each disk that a crash leaves at some moments, by some choices.
#[derive(Drop)]
pub struct Crash {
    /// How many changes before the end of the call; without a last one back to its begin.
    pub backs: Range,
    pub choices: Vec<Vec<u32>>,
    pub asked: Asked,
    /// What it may print.
    pub printed: Vec<Printed>,
}
