//! The program `case_runner`: runs the cases of the books that its words name, and prints a line for each.
#![tactic(auto)]

mod bench;
mod call;
mod check;
mod disk;
mod family;
mod meddled;
mod nodes;
mod say;
mod stop;

use bench::Bench;
use case_book::{Book, BookFault, Case, read_book};
use fs_host::HostFs;
use host_files::InTurn;
use ost_types::NoMemory;
use std::process::ExitCode;
use std::thread::Threads;
use std::{env, fs, io};
use stop::Stop;

fn main(rt: HostRuntime) -> io::Result<ExitCode> {
    let mut wrong: u32 = 0;
    for name in env::args(&rt)?.skip(1) {
        let text = fs::read(&rt, name.as_str())?;
        wrong = wrong.saturating_add(run_text(&rt, &rt, name.as_str(), &text)?);
    }
    if wrong == 0 {
        Ok(ExitCode::SUCCESS)
    } else {
        println!(rt; "{wrong} wrong")?;
        Ok(ExitCode::from(1))
    }
}

// How many cases of the book are wrong.
fn run_text<R: Threads + Sync>(
    rt: &HostRuntime,
    threads: &R,
    name: &str,
    text: &[u8],
) -> io::Result<u32> {
    println!(rt; "{name}")?;
    match read_book(rt.alloc(), text) {
        Ok(book) => run_book(rt, threads, name, &book),
        Err(BookFault::BadLine(line)) => {
            eprintln!(rt; "{name}: line {line} is no line of a book")?;
            println!(rt; "  line {line} is no line of a book")?;
            Ok(1)
        }
        Err(BookFault::NoMemory) => {
            eprintln!(rt; "{name}: out of memory")?;
            println!(rt; "  out of memory")?;
            Ok(1)
        }
    }
}

fn run_book<R: Threads + Sync>(
    rt: &HostRuntime,
    threads: &R,
    name: &str,
    book: &Book,
) -> io::Result<u32> {
    let mut wrong: u32 = 0;
    for case in &book.cases {
        if !run_case(rt, threads, name, book, case)? {
            wrong = wrong.saturating_add(1);
        }
    }
    Ok(wrong)
}

// Whether the case is as expected.
fn run_case<R: Threads + Sync>(
    rt: &HostRuntime,
    threads: &R,
    name: &str,
    book: &Book,
    case: &Case,
) -> io::Result<bool> {
    let mut bench = Bench::new(threads, rt.alloc(), book);
    let ended = bench.run_case(case);
    let title = text_of(case.name.as_slice());
    let is_so = tell(rt, name, case, title, ended, bench.calls)?;
    if case.is_host {
        Ok(run_over_host(rt, threads, name, book, case)? && is_so)
    } else {
        Ok(is_so)
    }
}

// The same over the host's current folder.
fn run_over_host<R: Threads + Sync>(
    rt: &HostRuntime,
    threads: &R,
    name: &str,
    book: &Book,
    case: &Case,
) -> io::Result<bool> {
    for folder in ["boot", "ostree", "checkout"] {
        let _ = fs::remove_dir_all(rt, folder);
    }
    let mut bench = Bench::new(threads, rt.alloc(), book);
    let ended = match HostFs::new(rt.clone()?, InTurn::new(rt.clone()?)) {
        Ok(host) => bench.run_over(host, case),
        Err(NoMemory) => Err(Stop::NoMemory),
    };
    tell(rt, name, case, "  over the host", ended, bench.calls)
}

fn tell(
    rt: &HostRuntime,
    name: &str,
    case: &Case,
    title: &str,
    ended: Result<(), Stop>,
    calls: u64,
) -> io::Result<bool> {
    match ended {
        Ok(()) => {
            println!(rt; "{title}: {calls}")?;
            Ok(true)
        }
        Err(stop) => {
            tell_stop(rt, name, case, title, &stop)?;
            Ok(false)
        }
    }
}

fn tell_stop(
    rt: &HostRuntime,
    name: &str,
    case: &Case,
    title: &str,
    stop: &Stop,
) -> io::Result<()> {
    println!(rt; "{title}: wrong")?;
    eprintln!(rt; "{name}: {}", text_of(case.name.as_slice()))?;
    print_stop(rt, stop)
}

fn print_stop(rt: &HostRuntime, stop: &Stop) -> io::Result<()> {
    match stop {
        Stop::Differs(text) => print_twice(rt, text_of(text.as_slice())),
        Stop::Unknown(name) => {
            print_twice(rt, "  the book has no ")?;
            print_twice(rt, text_of(name.as_slice()))?;
            print_twice(rt, "\n")
        }
        Stop::Disk(fault) => {
            eprintln!(rt; "  the disk refused: {fault:?}")?;
            println!(rt; "  the disk refused: {fault:?}")
        }
        Stop::Mode => print_twice(rt, "  a node with a mode of another type\n"),
        Stop::NoMemory => print_twice(rt, "  out of memory\n"),
    }
}

// What is wrong stands in the errors, too, which the gate tells.
fn print_twice(rt: &HostRuntime, text: &str) -> io::Result<()> {
    eprint!(rt; "{text}")?;
    print!(rt; "{text}")
}

fn text_of(bytes: &[u8]) -> &str {
    std::str::from_utf8(bytes).unwrap_or("bytes that are no text")
}
