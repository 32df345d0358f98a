//! The program `merge_runner`: merges the trees of each row of its sheets, and prints which rows have other answers.
#![tactic(auto)]

mod bench;
mod tree;

use bench::MergeBench;
use sheet::{Report, Stop, run_sheet};
use std::process::ExitCode;
use std::{env, fs, io};

fn main(rt: HostRuntime) -> io::Result<ExitCode> {
    let mut wrong: u32 = 0;
    for name in env::args(&rt)?.skip(1) {
        let found = run_file(&rt, name.as_str())?;
        wrong = wrong.saturating_add(found);
    }
    if wrong == 0 {
        return Ok(ExitCode::SUCCESS);
    }
    println!(rt; "{wrong} wrong")?;
    Ok(ExitCode::from(1))
}

// How many rows of the sheet are wrong.
fn run_file(rt: &HostRuntime, name: &str) -> io::Result<u32> {
    println!(rt; "{name}")?;
    let mut report = Report::new(rt.alloc());
    let text = fs::read(rt, name)?;
    let ended = match std::str::from_utf8(&text) {
        Ok(sheet) => run_sheet(rt.alloc(), &mut MergeBench, sheet, &mut report),
        Err(_) => Err(Stop::Unknown),
    };
    print_report(rt, name, &report)?;
    match ended {
        Ok(()) => Ok(report.wrong),
        Err(Stop::Unknown) => print_end(rt, name, "can't be run"),
        Err(Stop::NoMemory) => print_end(rt, name, "out of memory"),
    }
}

// What is wrong stands in the errors, too, which the gate tells.
fn print_report(rt: &HostRuntime, name: &str, report: &Report) -> io::Result<()> {
    let text = std::str::from_utf8(&report.text).unwrap_or("bytes that are no text\n");
    if report.wrong > 0 {
        eprint!(rt; "{name}\n{text}")?;
    }
    print!(rt; "{text}")
}

// A sheet that isn't run to its end is wrong.
fn print_end(rt: &HostRuntime, name: &str, why: &str) -> io::Result<u32> {
    eprintln!(rt; "{name}: {why}")?;
    println!(rt; "  {why}")?;
    Ok(1)
}
