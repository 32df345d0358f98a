//! Families of calls, each on a copy of one disk.
use crate::bench::Bench;
use crate::disk::copy_of;
use crate::meddled::Meddled;
use crate::say::Member;
use crate::stop::Stop;
use case_book::{Asked, Call, FailingCalls, Range, Removals, Schedules, Ways};
use fs_memory::{FailAt, MemFs};
use fs_trait::Fs;
use ost_types::{Bytes, FsPath, TryCopy};
use std::alloc::Global;
use std::thread::Threads;

impl<'a, R: Threads + Sync> Bench<'a, R> {
    /// With each of the calls of the disk failing.
    pub fn run_failing(
        &mut self,
        fs: &MemFs,
        call: &Call,
        failing: &FailingCalls,
    ) -> Result<(), Stop> {
        for range in &failing.ranges {
            if failing.ways != Ways::Done {
                self.run_range(fs, call, *range, false)?;
            }
            if failing.ways != Ways::Undone {
                self.run_range(fs, call, *range, true)?;
            }
        }
        Ok(())
    }

    // Up to the last number, or to one that no call has.
    fn run_range(&mut self, fs: &MemFs, call: &Call, range: Range, done: bool) -> Result<(), Stop> {
        for number in range.first..=range.last.unwrap_or(CALLS) {
            if !self.run_failing_at(fs, call, FailAt { call: number, done })?
                && range.last.is_none()
            {
                return Ok(());
            }
        }
        Ok(())
    }

    // Whether there was such a call.
    fn run_failing_at(&mut self, fs: &MemFs, call: &Call, plan: FailAt) -> Result<bool, Stop> {
        let input = self.input(&call.asked)?;
        let copy = failing(self.alloc, fs, plan)?;
        let ran = self.call(copy, &call.asked, input, &call.plan)?;
        let has_failed = ran.has_failed();
        self.judge(call, ran, None, &Member::Failing(plan))?;
        Ok(has_failed)
    }

    /// Where another program removes a leaf before each of the calls of the disk.
    pub fn run_removals(
        &mut self,
        fs: &MemFs,
        call: &Call,
        removals: &Removals,
    ) -> Result<(), Stop> {
        for range in &removals.ranges {
            self.run_removals_in(fs, call, &removals.at, *range)?;
        }
        Ok(())
    }

    fn run_removals_in(
        &mut self,
        fs: &MemFs,
        call: &Call,
        at: &FsPath,
        range: Range,
    ) -> Result<(), Stop> {
        for number in range.first..=range.last.unwrap_or(CALLS) {
            if !self.run_removal(fs, call, at, number)? && range.last.is_none() {
                return Ok(());
            }
        }
        Ok(())
    }

    // Whether there was such a call.
    fn run_removal(
        &mut self,
        fs: &MemFs,
        call: &Call,
        at: &FsPath,
        number: u64,
    ) -> Result<bool, Stop> {
        let input = self.input(&call.asked)?;
        let disk = Meddled::new(fresh(self.alloc, fs)?, number, at.copy()?);
        let ran = self.call(disk, &call.asked, input, &call.plan)?;
        let was_made = ran.fs.was_reached();
        self.judge(call, ran, None, &Member::Removed(number))?;
        Ok(was_made)
    }

    /// With each line of the text in the place of `$`.
    pub fn run_lines(&mut self, fs: &MemFs, call: &Call, name: &Bytes) -> Result<(), Stop> {
        let text = self.text(name)?;
        let lines = without_last(text.as_slice());
        for line in lines.split(|byte| *byte == b'\n') {
            self.run_line(fs, call, line)?;
        }
        Ok(())
    }

    fn run_line(&mut self, fs: &MemFs, call: &Call, line: &[u8]) -> Result<(), Stop> {
        let input = self.input(&call.asked)?;
        let input = replaced(self.alloc, input.as_slice(), line)?;
        let asked = asked_with(self.alloc, &call.asked, line)?;
        self.run_copy(fs, call, &asked, input, None, &Member::Line(line))
    }

    // On a copy of the disk, with these words and this input.
    fn run_copy(
        &mut self,
        fs: &MemFs,
        call: &Call,
        asked: &Asked,
        input: Bytes,
        outcome: Option<usize>,
        member: &Member,
    ) -> Result<(), Stop> {
        let copy = fresh(self.alloc, fs)?;
        let ran = self.call(copy, asked, input, &call.plan)?;
        self.judge(call, ran, outcome, member)
    }

    /// With each byte of the input left out.
    pub fn run_bytes(&mut self, fs: &MemFs, call: &Call, map: &Option<Bytes>) -> Result<(), Stop> {
        let input = self.input(&call.asked)?;
        for place in 0..input.as_slice().len() {
            let outcome = match map {
                Some(name) => Some(outcome_at(self.text(name)?.as_slice(), place)),
                None => None,
            };
            self.run_byte(fs, call, &input, place, outcome)?;
        }
        Ok(())
    }

    fn run_byte(
        &mut self,
        fs: &MemFs,
        call: &Call,
        input: &Bytes,
        place: usize,
        outcome: Option<usize>,
    ) -> Result<(), Stop> {
        let input = without(self.alloc, input.as_slice(), place)?;
        self.run_copy(fs, call, &call.asked, input, outcome, &Member::Byte(place))
    }

    /// By each schedule of up to two switches.
    pub fn run_schedules(
        &mut self,
        fs: &MemFs,
        call: &Call,
        schedules: Schedules,
    ) -> Result<(), Stop> {
        for first in 0..schedules.lanes {
            for second in 0..schedules.lanes {
                if first != second {
                    self.run_switches(fs, call, schedules.acts, first, second)?;
                }
            }
        }
        Ok(())
    }

    // One lane acts so many times, the other so many times, and then each in turn.
    fn run_switches(
        &mut self,
        fs: &MemFs,
        call: &Call,
        acts: u64,
        first: u8,
        second: u8,
    ) -> Result<(), Stop> {
        for before in 1..=acts {
            for behind in 1..=acts {
                let schedule = format!(in self.alloc; "{first}*{before},{second}*{behind}")?;
                self.run_schedule(fs, call, schedule.as_str())?;
            }
        }
        Ok(())
    }

    fn run_schedule(&mut self, fs: &MemFs, call: &Call, schedule: &str) -> Result<(), Stop> {
        let input = self.input(&call.asked)?;
        let asked = asked_with(self.alloc, &call.asked, schedule.as_bytes())?;
        self.run_copy(
            fs,
            call,
            &asked,
            input,
            None,
            &Member::Line(schedule.as_bytes()),
        )
    }
}

// A copy of the disk.
fn fresh(alloc: Global, fs: &MemFs) -> Result<MemFs, Stop> {
    match copy_of(alloc, fs)? {
        Some(copy) => Ok(copy),
        None => Err(Stop::NoMemory),
    }
}

// A copy of the disk, of which one call fails.
fn failing(alloc: Global, fs: &MemFs, plan: FailAt) -> Result<MemFs, Stop> {
    let plan = vec![in alloc; plan]?;
    let mut copy = fresh(alloc, fs)?;
    copy.fail_at(plan);
    Ok(copy)
}

// No run of a case makes so many calls of the disk.
const CALLS: u64 = 100_000;

fn without_last(text: &[u8]) -> &[u8] {
    match text.split_last() {
        Some((_, front)) => front,
        None => text,
    }
}

/// The number of the outcome that the text has for this place, counted from 0.
fn outcome_at(map: &[u8], place: usize) -> usize {
    match map.get(place) {
        Some(digit) => (*digit as usize).wrapping_sub(b'1' as usize),
        None => usize::MAX,
    }
}

fn without(alloc: Global, text: &[u8], place: usize) -> Result<Bytes, Stop> {
    let mut rest = Bytes::new(alloc);
    for (at, byte) in text.iter().enumerate() {
        if at != place {
            rest.push(*byte)?;
        }
    }
    Ok(rest)
}

// The text with the line in the place of each `$`.
fn replaced(alloc: Global, text: &[u8], line: &[u8]) -> Result<Bytes, Stop> {
    let mut whole = Bytes::new(alloc);
    for byte in text {
        if *byte == b'$' {
            whole.append(line)?;
        } else {
            whole.push(*byte)?;
        }
    }
    Ok(whole)
}

// The same of words: `$` alone stands for all words of the line.
fn asked_with(alloc: Global, asked: &Asked, line: &[u8]) -> Result<Asked, Stop> {
    let mut words = Vec::new(alloc);
    for word in &asked.words {
        let word = replaced(alloc, word.as_slice(), line)?;
        for part in word.as_slice().split(|byte| *byte == b' ') {
            words.push(Bytes::from_slice(alloc, part)?)?;
        }
    }
    Ok(Asked { words, input: None })
}
