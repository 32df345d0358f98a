//! The program `forms_runner`: makes the calls of sheets over types, forms and layouts, and prints which have other answers.
//! Its words are pairs: of what the calls are, and the sheet.
#![tactic(auto)]

mod configs;
mod faults;
mod forms;
mod gvariant;
mod known;
mod layout;
mod many;
mod map;
mod objects;
mod show;
mod texts;
mod types;

use configs::ConfigBench;
use gvariant::GvariantBench;
use layout::LayoutBench;
use objects::ObjectBench;
use sheet::{Report, Stop, run_sheet};
use std::process::ExitCode;
use std::{env, fs, io};
use types::TypeBench;

fn main(rt: HostRuntime) -> io::Result<ExitCode> {
    let mut wrong: u32 = 0;
    let mut over = None;
    for word in env::args(&rt)?.skip(1) {
        over = match over {
            None => Some(word),
            Some(kind) => {
                let found = run_file(&rt, kind.as_str(), word.as_str())?;
                wrong = wrong.saturating_add(found);
                None
            }
        };
    }
    if wrong == 0 {
        return Ok(ExitCode::SUCCESS);
    }
    println!(rt; "{wrong} wrong")?;
    Ok(ExitCode::from(1))
}

// How many calls of the sheet are wrong.
fn run_file(rt: &HostRuntime, over: &str, name: &str) -> io::Result<u32> {
    println!(rt; "{name} of {over}")?;
    let mut report = Report::new(rt.alloc());
    let text = fs::read(rt, name)?;
    let ended = match std::str::from_utf8(&text) {
        Ok(sheet) => run_over(rt, over, sheet, &mut report),
        Err(_) => Err(Stop::Unknown),
    };
    print_report(rt, name, &report)?;
    match ended {
        Ok(()) => Ok(report.wrong),
        Err(Stop::Unknown) => {
            println!(rt; "  can't be run")?;
            Ok(1)
        }
        Err(Stop::NoMemory) => {
            println!(rt; "  out of memory")?;
            Ok(1)
        }
    }
}

fn run_over(rt: &HostRuntime, over: &str, sheet: &str, report: &mut Report) -> Result<(), Stop> {
    let alloc = rt.alloc();
    match over {
        "types" => run_sheet(alloc, &mut TypeBench::new(alloc), sheet, report),
        "gvariant" => run_sheet(alloc, &mut GvariantBench, sheet, report),
        "objects" => run_sheet(alloc, &mut ObjectBench, sheet, report),
        "configs" => run_sheet(alloc, &mut ConfigBench, sheet, report),
        "layout" => run_sheet(alloc, &mut LayoutBench, sheet, report),
        _ => Err(Stop::Unknown),
    }
}

// What is wrong stands in the errors, too, which the gate tells.
fn print_report(rt: &HostRuntime, name: &str, report: &Report) -> io::Result<()> {
    let text = std::str::from_utf8(&report.text).unwrap_or("bytes that are no text\n");
    if report.wrong > 0 {
        eprint!(rt; "{name}\n{text}")?;
    }
    print!(rt; "{text}")
}
