//! Sheets over the file system in memory.
use crate::call::call;
use crate::meta::Owner;
use crate::word::word;
use fs_memory::{Choice, FailAt, MemFs};
use fs_trait::Fs;
use sheet::{Bench, Fields, Stop, text};
use std::alloc::Global;

/// A file system, and another one that a crash left.
#[derive(Drop)]
pub struct MemoryBench {
    first: MemFs,
    left: MemFs,
}

impl MemoryBench {
    pub fn new(alloc: Global) -> Result<MemoryBench, Stop> {
        let first = new_disk(alloc)?;
        let left = new_disk(alloc)?;
        Ok(MemoryBench { first, left })
    }
}

fn new_disk(alloc: Global) -> Result<MemFs, Stop> {
    Ok(MemFs::new(alloc)?)
}

impl Bench for MemoryBench {
    fn answer(&mut self, name: &str, fields: Fields) -> Result<Vec<u8>, Stop> {
        let mut fields = fields;
        match name {
            "new" => renew(&mut self.first, &fields),
            "crash" => crash(&self.first, &mut fields, &mut self.left),
            "left" => self.answer_left(&mut fields),
            _ => answer_of(&mut self.first, name, &mut fields),
        }
    }
}

impl MemoryBench {
    // The call that stands behind it, on what the crash left.
    fn answer_left(&mut self, fields: &mut Fields) -> Result<Vec<u8>, Stop> {
        match fields.text()? {
            "crash" => crash_again(&mut self.left, fields),
            name => answer_of(&mut self.left, name, fields),
        }
    }
}

fn renew(fs: &mut MemFs, fields: &Fields) -> Result<Vec<u8>, Stop> {
    let disk = new_disk(fields.alloc())?;
    drop(std::mem::replace(fs, disk));
    text(fields.alloc(), "ok")
}

fn crash(fs: &MemFs, fields: &mut Fields, into: &mut MemFs) -> Result<Vec<u8>, Stop> {
    let left = image(fs, fields)?;
    drop(std::mem::replace(into, left));
    text(fields.alloc(), "ok")
}

fn crash_again(fs: &mut MemFs, fields: &mut Fields) -> Result<Vec<u8>, Stop> {
    let left = image(fs, fields)?;
    drop(std::mem::replace(fs, left));
    text(fields.alloc(), "ok")
}

// A moment, and what a crash leaves of that.
fn image(fs: &MemFs, fields: &mut Fields) -> Result<MemFs, Stop> {
    let moment = fields.number()?;
    let choice = choice(fields)?;
    if moment > fs.moments() {
        return Err(Stop::Unknown);
    }
    Ok(fs.image(moment, &choice)?)
}

// A digit for each choice or `-`, and the byte that stands for what wasn't synced.
fn choice(fields: &mut Fields) -> Result<Choice, Stop> {
    let picks = picks(fields.alloc(), fields.text()?)?;
    let fill = u8::try_from(fields.small()?).map_err(|_| Stop::Unknown)?;
    Ok(Choice { picks, fill })
}

fn picks(alloc: Global, digits: &str) -> Result<Vec<u32>, Stop> {
    let mut picks = Vec::new(alloc);
    for digit in digits.chars() {
        if let Some(pick) = digit.to_digit(10) {
            picks.push(pick)?;
        }
    }
    Ok(picks)
}

fn answer_of(fs: &mut MemFs, name: &str, fields: &mut Fields) -> Result<Vec<u8>, Stop> {
    match name {
        "reserve" => text(fields.alloc(), word(fs.reserve(fields.number()?))),
        "fail_undone" => fail_at(fs, fields, false),
        "fail_done" => fail_at(fs, fields, true),
        _ => call(fs, Owner::ROOT, name, fields),
    }
}

// The call that fails, by its number from 1.
fn fail_at(fs: &mut MemFs, fields: &mut Fields, done: bool) -> Result<Vec<u8>, Stop> {
    let number = fields.number()?;
    let plan = vec![in fields.alloc(); FailAt { call: number, done }]?;
    fs.fail_at(plan);
    text(fields.alloc(), "ok")
}
