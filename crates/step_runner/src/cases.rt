//! Cases whose acts are counted. What they print is no matter here.
use crate::acts::run_words;
use crate::limits::limits_of;
use case_book::{Asked, Book, Call, Case, Step, read_book};
use fs_memory::MemFs;
use fs_trait::Fs;
use ost_types::{Bytes, FsPath, TryCopy};
use std::alloc::Global;
use std::thread::Threads;
use task_steps::{Report, Stop};

/// A line for each call of a book of cases, each case on an empty disk.
pub fn run_text<R: Threads + Sync>(
    threads: &R,
    alloc: Global,
    text: &[u8],
) -> Result<Report, Stop> {
    match read_book(alloc, text) {
        Ok(book) => run_book(threads, alloc, &book),
        Err(_) => Err(Stop::Unmade),
    }
}

fn run_book<R: Threads + Sync>(threads: &R, alloc: Global, book: &Book) -> Result<Report, Stop> {
    let mut runs = Runs {
        threads,
        alloc,
        book,
        report: Report::new(alloc),
    };
    for case in &book.cases {
        runs.run_case(case)?;
    }
    Ok(runs.report)
}

/// The book that cases are taken from, and what was counted.
#[derive(Drop)]
struct Runs<'a, R: Threads + Sync> {
    threads: &'a R,
    alloc: Global,
    book: &'a Book,
    report: Report,
}

impl<'a, R: Threads + Sync> Runs<'a, R> {
    // To its end, or to the call that isn't run to its own.
    fn run_case(&mut self, case: &Case) -> Result<(), Stop> {
        let disk = MemFs::new(self.alloc)?;
        match self.run_steps(disk, &case.steps) {
            Ok(()) => Ok(()),
            Err(stop) => self.report.add_stop(text_of(&case.name)?, stop),
        }
    }

    fn run_steps<F: Fs>(&mut self, disk: F, steps: &[Step]) -> Result<(), Stop> {
        let mut disk = disk;
        for step in steps {
            disk = self.run_step(disk, step)?;
        }
        Ok(())
    }

    fn run_step<F: Fs>(&mut self, disk: F, step: &Step) -> Result<F, Stop> {
        match step {
            Step::Call(call) => self.run_call(disk, call),
            Step::Remove(at) => remove(disk, at),
            Step::Add(_) | Step::Names(_) => Err(Stop::Unmade),
        }
    }

    fn run_call<F: Fs>(&mut self, disk: F, call: &Call) -> Result<F, Stop> {
        let words = words_of(self.alloc, &call.asked)?;
        let input = self.input_of(&call.asked)?;
        let limits = limits_of(call.plan.objects);
        let (disk, most) = run_words(self.threads, self.alloc, disk, &words, input, limits)?;
        let said = said(self.alloc, call)?;
        self.report.add(said.as_str(), most)?;
        Ok(disk)
    }

    fn input_of(&self, asked: &Asked) -> Result<Bytes, Stop> {
        let Some(name) = &asked.input else {
            return Ok(Bytes::new(self.alloc));
        };
        for named in &self.book.texts {
            if named.name == *name {
                return Ok(named.text.copy()?);
            }
        }
        Err(Stop::Unmade)
    }
}

fn remove<F: Fs>(disk: F, at: &FsPath) -> Result<F, Stop> {
    let mut disk = disk;
    match disk.unlink(at) {
        Ok(()) => Ok(disk),
        Err(fault) => Err(Stop::Disk(fault)),
    }
}

fn words_of(alloc: Global, asked: &Asked) -> Result<Vec<String>, Stop> {
    let mut words = Vec::new(alloc);
    for word in &asked.words {
        words.push(String::from_str(alloc, text_of(word)?)?)?;
    }
    Ok(words)
}

fn text_of(word: &Bytes) -> Result<&str, Stop> {
    std::str::from_utf8(word.as_slice()).map_err(|_| Stop::Unmade)
}

// The words, the name of the input, and how many objects there may be.
fn said(alloc: Global, call: &Call) -> Result<String, Stop> {
    let mut said = String::new(alloc);
    add_words(&mut said, &call.asked)?;
    if let Some(objects) = call.plan.objects {
        said.push_str(format!(in alloc; " within {objects} objects")?.as_str())?;
    }
    Ok(said)
}

fn add_words(said: &mut String, asked: &Asked) -> Result<(), Stop> {
    let mut is_first = true;
    for word in &asked.words {
        if !is_first {
            said.push_str(" ")?;
        }
        said.push_str(text_of(word)?)?;
        is_first = false;
    }
    if let Some(name) = &asked.input {
        said.push_str(" <")?;
        said.push_str(text_of(name)?)?;
    }
    Ok(())
}
