//! The program `boot_runner`: makes the calls of sheets over boot entries, lists of deployments and swaps of what boots, and prints
//! which have other answers. Its words are pairs: over what, and the sheet.
#![tactic(auto)]

mod changes;
mod crashes;
mod deployments;
mod entries;
mod failing;
mod listing;
mod looks;
mod members;
mod outcome;
mod reading;
mod swaps;
mod untold;

use deployments::DeploymentBench;
use entries::EntryBench;
use sheet::{Report, Stop, run_sheet};
use std::process::ExitCode;
use std::{env, fs, io};
use swaps::SwapBench;

fn main(rt: HostRuntime) -> io::Result<ExitCode> {
    let mut wrong: u32 = 0;
    let mut over = None;
    for word in env::args(&rt)?.skip(1) {
        over = match over {
            None => Some(word),
            Some(kind) => {
                let found = run_file(&rt, kind.as_str(), word.as_str())?;
                wrong = wrong.saturating_add(found);
                None
            }
        };
    }
    if wrong == 0 {
        return Ok(ExitCode::SUCCESS);
    }
    println!(rt; "{wrong} wrong")?;
    Ok(ExitCode::from(1))
}

// How many calls of the sheet are wrong.
fn run_file(rt: &HostRuntime, over: &str, name: &str) -> io::Result<u32> {
    println!(rt; "{name} of {over}")?;
    let mut report = Report::new(rt.alloc());
    let text = fs::read(rt, name)?;
    let ended = match std::str::from_utf8(&text) {
        Ok(sheet) => run_over(rt, over, sheet, &mut report),
        Err(_) => Err(Stop::Unknown),
    };
    print_report(rt, name, &report)?;
    match ended {
        Ok(()) => Ok(report.wrong),
        Err(Stop::Unknown) => print_end(rt, name, "can't be run"),
        Err(Stop::NoMemory) => print_end(rt, name, "out of memory"),
    }
}

fn run_over(rt: &HostRuntime, over: &str, sheet: &str, report: &mut Report) -> Result<(), Stop> {
    let alloc = rt.alloc();
    match over {
        "entries" => run_sheet(alloc, &mut EntryBench, sheet, report),
        "deployments" => run_sheet(alloc, &mut DeploymentBench, sheet, report),
        "swaps" => run_sheet(alloc, &mut SwapBench::new(alloc)?, sheet, report),
        _ => Err(Stop::Unknown),
    }
}

// What is wrong stands in the errors, too, which the gate tells.
fn print_report(rt: &HostRuntime, name: &str, report: &Report) -> io::Result<()> {
    let text = std::str::from_utf8(&report.text).unwrap_or("bytes that are no text\n");
    if report.wrong > 0 {
        eprint!(rt; "{name}\n{text}")?;
    }
    print!(rt; "{text}")
}

// A sheet that isn't run to its end is wrong.
fn print_end(rt: &HostRuntime, name: &str, why: &str) -> io::Result<u32> {
    eprintln!(rt; "{name}: {why}")?;
    println!(rt; "  {why}")?;
    Ok(1)
}
