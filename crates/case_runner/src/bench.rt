//! The runs of a case.
use crate::call::{Ran, call_program};
use crate::disk::{CaseDisk, add_disk, add_names, add_nodes, copy_of};
use crate::say::{Member, say_call};
use crate::stop::Stop;
use case_book::{Asked, Book, Call, Case, Family, Plan, Step};
use fs_memory::MemFs;
use ost_types::{Bytes, TryCopy};
use std::alloc::Global;
use std::thread::Threads;

/// The book that cases are taken from, and how often the program was called.
#[derive(Drop)]
pub struct Bench<'a, R: Threads + Sync> {
    pub threads: &'a R,
    pub alloc: Global,
    pub book: &'a Book,
    pub calls: u64,
}

impl<'a, R: Threads + Sync> Bench<'a, R> {
    pub fn new(threads: &'a R, alloc: Global, book: &'a Book) -> Bench<'a, R> {
        Bench {
            threads,
            alloc,
            book,
            calls: 0,
        }
    }

    /// Runs the case over a disk in memory, to its end or to what differs first.
    pub fn run_case(&mut self, case: &Case) -> Result<(), Stop> {
        self.run_copy_of(MemFs::new(self.alloc)?, case)
    }

    // Over a copy of the disk that the case begins with.
    fn run_copy_of<D: CaseDisk>(&mut self, fs: D, case: &Case) -> Result<(), Stop> {
        let mut fs = fs;
        self.add_disk(&mut fs, &case.disk)?;
        match copy_of(self.alloc, &fs)? {
            Some(copy) => self.run_steps(copy, case),
            None => Ok(()),
        }
    }

    /// Runs the case over an empty disk, without its families and its crashes where the disk has none.
    pub fn run_over<D: CaseDisk>(&mut self, fs: D, case: &Case) -> Result<(), Stop> {
        let mut fs = fs;
        self.add_disk(&mut fs, &case.disk)?;
        self.run_steps(fs, case)
    }

    fn add_disk<D: CaseDisk>(&self, fs: &mut D, name: &Option<Bytes>) -> Result<(), Stop> {
        let Some(name) = name else {
            return Ok(());
        };
        for disk in &self.book.disks {
            if disk.name == *name {
                return add_disk(self.alloc, fs, disk);
            }
        }
        Err(Stop::Unknown(name.copy()?))
    }

    fn run_steps<D: CaseDisk>(&mut self, fs: D, case: &Case) -> Result<(), Stop> {
        let mut fs = fs;
        for step in &case.steps {
            fs = self.run_step(fs, step)?;
        }
        Ok(())
    }

    fn run_step<D: CaseDisk>(&mut self, fs: D, step: &Step) -> Result<D, Stop> {
        let mut fs = fs;
        match step {
            Step::Add(nodes) => add_nodes(self.alloc, &mut fs, nodes)?,
            Step::Remove(at) => fs.unlink(at)?,
            Step::Names(names) => add_names(&mut fs, names)?,
            Step::Call(call) => return self.run_call(fs, call),
        }
        Ok(fs)
    }

    // The disk behind it: that of a family is the one before it.
    fn run_call<D: CaseDisk>(&mut self, fs: D, call: &Call) -> Result<D, Stop> {
        if let Family::Once = &call.family {
            let input = self.input(&call.asked)?;
            let ran = self.call(fs, &call.asked, input, &call.plan)?;
            return self.check_member(call, ran, None, &Member::Alone);
        }
        self.run_family(&fs, call)?;
        Ok(fs)
    }

    fn run_family<D: CaseDisk>(&mut self, fs: &D, call: &Call) -> Result<(), Stop> {
        match copy_of(self.alloc, fs)? {
            Some(disk) => self.run_members(&disk, call),
            None => Ok(()),
        }
    }

    fn run_members(&mut self, disk: &MemFs, call: &Call) -> Result<(), Stop> {
        match &call.family {
            Family::Once => Ok(()),
            Family::Calls(failing) => self.run_failing(disk, call, failing),
            Family::Lines(name) => self.run_lines(disk, call, name),
            Family::Bytes(map) => self.run_bytes(disk, call, map),
            Family::Schedules(schedules) => self.run_schedules(disk, call, *schedules),
            Family::Removals(removals) => self.run_removals(disk, call, removals),
        }
    }

    /// The text that the call's input is.
    pub fn input(&self, asked: &Asked) -> Result<Bytes, Stop> {
        match &asked.input {
            Some(name) => Ok(self.text(name)?.copy()?),
            None => Ok(Bytes::new(self.alloc)),
        }
    }

    pub fn text(&self, name: &Bytes) -> Result<&'a Bytes, Stop> {
        for named in &self.book.texts {
            if named.name == *name {
                return Ok(&named.text);
            }
        }
        Err(Stop::Unknown(name.copy()?))
    }

    /// Calls the program once.
    pub fn call<D: CaseDisk>(
        &mut self,
        fs: D,
        asked: &Asked,
        input: Bytes,
        plan: &Plan,
    ) -> Result<Ran<D>, Stop> {
        self.calls = self.calls.saturating_add(1);
        let words = words_of(self.alloc, &asked.words)?;
        call_program(self.threads, self.alloc, fs, &words, input, plan)
    }

    /// Whether it is as expected, where its disk is no longer wanted.
    pub fn judge<D: CaseDisk>(
        &mut self,
        call: &Call,
        ran: Ran<D>,
        outcome: Option<usize>,
        member: &Member,
    ) -> Result<(), Stop> {
        let _ = self.check_member(call, ran, outcome, member)?;
        Ok(())
    }

    /// Whether it is as expected; where the number of its outcome is told, as this one expects it. The disk comes back.
    pub fn check_member<D: CaseDisk>(
        &mut self,
        call: &Call,
        ran: Ran<D>,
        outcome: Option<usize>,
        member: &Member,
    ) -> Result<D, Stop> {
        match self.check_outcomes(&call.outcomes, ran, outcome) {
            Ok(fs) => Ok(fs),
            Err(Stop::Differs(text)) => Err(Stop::Differs(say_call(
                self.alloc, call, member, &text,
            )?)),
            Err(stop) => Err(stop),
        }
    }
}

/// Words as the program gets them.
pub fn words_of(alloc: Global, words: &[Bytes]) -> Result<Vec<String>, Stop> {
    let mut all = Vec::new(alloc);
    for word in words {
        match std::str::from_utf8(word.as_slice()) {
            Ok(text) => all.push(String::from_str(alloc, text)?)?,
            Err(_) => return Err(Stop::Unknown(word.copy()?)),
        }
    }
    Ok(all)
}
