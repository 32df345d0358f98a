//! The program `cut_runner`: runs scripts of calls over the machine's file system on a disk in memory, cuts the power after each call of the machine, and compares what is found then with the images of the file system in memory.
#![tactic(auto)]

mod call;
mod moment;
mod names;
mod random;
mod run;
mod script;
mod stop;
mod tree;

use run::{Counts, run_script};
use std::process::ExitCode;
use std::{env, io};
use stop::Stop;

fn main(rt: HostRuntime) -> io::Result<ExitCode> {
    let mut scripts: u64 = 200;
    let mut tells_counts = false;
    for word in env::args(&rt)?.skip(1) {
        match word.as_str().parse::<u64>() {
            Ok(count) => scripts = count,
            Err(_) => tells_counts = true,
        }
    }
    run_scripts(&rt, scripts, tells_counts)
}

fn run_scripts(rt: &HostRuntime, scripts: u64, tells_counts: bool) -> io::Result<ExitCode> {
    let mut counts = Counts::none();
    for number in 0..scripts {
        match run_script(rt.alloc(), number) {
            Ok(more) => counts.add(more),
            Err(stop) => return tell(rt, number, &stop),
        }
    }
    println!(rt; "{scripts} scripts")?;
    if tells_counts {
        println!(rt;
            "{} calls, {} cuts, {} starts",
            counts.calls, counts.cuts, counts.starts
        )?;
    }
    Ok(ExitCode::SUCCESS)
}

fn tell(rt: &HostRuntime, number: u64, stop: &Stop) -> io::Result<ExitCode> {
    match stop {
        Stop::Wrong(text) => print_twice(rt, text.as_str())?,
        Stop::Refused(_) => print_stop(rt, number, "a look was refused")?,
        Stop::NoMemory => print_stop(rt, number, "out of memory")?,
    }
    Ok(ExitCode::from(1))
}

fn print_stop(rt: &HostRuntime, number: u64, why: &str) -> io::Result<()> {
    eprintln!(rt; "script {number}: {why}")?;
    println!(rt; "script {number}: {why}")
}

// What is wrong stands in the errors, too, which the gate tells.
fn print_twice(rt: &HostRuntime, text: &str) -> io::Result<()> {
    eprintln!(rt; "{text}")?;
    println!(rt; "{text}")
}
