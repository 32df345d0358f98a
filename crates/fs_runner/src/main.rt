//! The program `fs_runner`: makes the calls of sheets over file systems and streams, and prints which have other answers.
//! Its words are pairs: over what, and the sheet; or `threads`, and the text of the young file whose sync fails.
#![tactic(auto)]

mod call;
mod host;
mod look;
mod machine;
mod memory;
mod meta;
mod on_host;
mod over;
mod streams;
mod threads;
mod word;

use fs_host::HostFs;
use fs_native::NativeFs;
use host::HostBench;
use host_files::InTurn;
use machine::{Watch, Watched};
use memory::MemoryBench;
use meta::Owner;
use ost_types::NoMemory;
use sheet::{Report, Stop, run_sheet};
use std::os::unix::fs::MetadataExt;
use std::process::ExitCode;
use std::{env, fs, io};
use streams::StreamBench;
use threads::failed_shares;

fn main(rt: HostRuntime) -> io::Result<ExitCode> {
    let mut report = Report::new(rt.alloc());
    let mut over = None;
    for word in env::args(&rt)?.skip(1) {
        over = match over {
            None => Some(word),
            Some(kind) => {
                if kind.as_str() == "threads" {
                    let failed = failed_shares(&rt, rt.alloc(), word.as_str());
                    tell_failed(&rt, word.as_str(), failed)?;
                } else {
                    run_file(&rt, kind.as_str(), word.as_str(), &mut report)?;
                }
                None
            }
        };
    }
    print_text(&rt, &report.text)?;
    if report.wrong == 0 {
        return Ok(ExitCode::SUCCESS);
    }
    println!(rt; "{} wrong", report.wrong)?;
    Ok(ExitCode::from(1))
}

fn run_file(rt: &HostRuntime, over: &str, name: &str, report: &mut Report) -> io::Result<()> {
    println!(rt; "{name} over {over}")?;
    let text = fs::read(rt, name)?;
    let (begun, wrong) = (report.text.len(), report.wrong);
    let ended = match std::str::from_utf8(&text) {
        Ok(sheet) => run_over(rt, over, sheet, report),
        Err(_) => Err(Stop::Unknown),
    };
    if report.wrong > wrong {
        print_wrong(rt, name, report.text.get(begun..).unwrap_or(&[]))?;
    }
    match ended {
        Ok(()) => Ok(()),
        Err(Stop::Unknown) => print_end(rt, name, "can't be run", report),
        Err(Stop::NoMemory) => print_end(rt, name, "out of memory", report),
    }
}

// What is wrong stands in the errors, too, which the gate tells.
fn print_wrong(rt: &HostRuntime, name: &str, text: &[u8]) -> io::Result<()> {
    let text = std::str::from_utf8(text).unwrap_or("bytes that are no text\n");
    eprint!(rt; "{name}\n{text}")
}

// A sheet that isn't run to its end is wrong.
fn print_end(rt: &HostRuntime, name: &str, why: &str, report: &mut Report) -> io::Result<()> {
    report.wrong = report.wrong.saturating_add(1);
    eprintln!(rt; "{name}: {why}")?;
    println!(rt; "  {why}")
}

fn run_over(rt: &HostRuntime, over: &str, sheet: &str, report: &mut Report) -> Result<(), Stop> {
    let alloc = rt.alloc();
    match over {
        "memory" => run_sheet(alloc, &mut MemoryBench::new(alloc)?, sheet, report),
        "host" => run_over_host(rt, sheet, report),
        "native" => run_over_native(rt, sheet, report),
        "streams" => run_sheet(alloc, &mut StreamBench::new(rt.clone()?), sheet, report),
        _ => Err(Stop::Unknown),
    }
}

type Over<'a> = Watched<'a, HostRuntime>;

fn run_over_host(rt: &HostRuntime, sheet: &str, report: &mut Report) -> Result<(), Stop> {
    let watch = Watch::new();
    let mut bench: HostBench<HostRuntime, HostFs<Over, InTurn<Over>>> = HostBench::new(
        rt.clone()?,
        &watch,
        Owner::ROOT,
    );
    run_sheet(rt.alloc(), &mut bench, sheet, report)
}

// What is made has the owner of the current folder, so that this needs no root.
fn run_over_native(rt: &HostRuntime, sheet: &str, report: &mut Report) -> Result<(), Stop> {
    let here = fs::symlink_metadata(rt, ".").map_err(|_| Stop::Unknown)?;
    let owner = Owner {
        uid: here.uid(),
        gid: here.gid(),
    };
    let watch = Watch::new();
    let mut bench: HostBench<HostRuntime, NativeFs<Over, InTurn<Over>>> = HostBench::new(
        rt.clone()?,
        &watch,
        owner,
    );
    run_sheet(rt.alloc(), &mut bench, sheet, report)
}

fn tell_failed(rt: &HostRuntime, text: &str, failed: Result<usize, NoMemory>) -> io::Result<()> {
    match failed {
        Ok(shares) => println!(rt; "{text} isn't synced by a thread: shares that failed: {shares}"),
        Err(NoMemory) => println!(rt; "out of memory"),
    }
}

fn print_text(rt: &HostRuntime, text: &[u8]) -> io::Result<()> {
    match std::str::from_utf8(text) {
        Ok(text) => print!(rt; "{text}"),
        Err(_) => println!(rt; "bytes that are no text"),
    }
}
