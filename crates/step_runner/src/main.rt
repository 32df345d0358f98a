//! The program `step_runner`: prints the most reading and the most changing calls of a step of each task, and of an act of commands.
//! A step with more than two of the one or more than one of the other makes it fail.
#![tactic(auto)]

mod acts;
mod cases;
mod limits;
mod system;

use cases::run_text;
use std::process::ExitCode;
use std::{env, fs, io};
use task_steps::{Report, Stop, step_tasks};

fn main(rt: HostRuntime) -> io::Result<ExitCode> {
    let mut is_within = tell(&rt, "the tasks", step_tasks(rt.alloc()))?;
    for name in env::args(&rt)?.skip(1) {
        let text = fs::read(&rt, name.as_str())?;
        is_within = tell(&rt, name.as_str(), run_text(&rt, rt.alloc(), &text))? && is_within;
    }
    if is_within {
        Ok(ExitCode::SUCCESS)
    } else {
        Ok(ExitCode::from(1))
    }
}

// Whether each step keeps within the bounds.
fn tell(rt: &HostRuntime, name: &str, stepped: Result<Report, Stop>) -> io::Result<bool> {
    match stepped {
        Ok(report) => print_report(rt, &report),
        Err(stop) => {
            eprintln!(rt; "{name}: {stop:?}")?;
            Ok(false)
        }
    }
}

fn print_report(rt: &HostRuntime, report: &Report) -> io::Result<bool> {
    print!(rt; "{}", report.text)?;
    eprint!(rt; "{}", report.wrong)?;
    Ok(report.wrong.is_empty())
}
