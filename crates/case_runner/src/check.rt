//! What is expected of a call.
use crate::bench::Bench;
use crate::call::Ran;
use crate::disk::CaseDisk;
use crate::nodes::{check_nodes, lists, stands_at};
use crate::say::{say_crash, say_other, say_outcomes};
use crate::stop::Stop;
use case_book::{Check, Crash, Outcome, Plan, Printed};
use fs_memory::{Choice, MemFs};
use ost_types::{Bytes, FsPath};
use std::alloc::Global;
use std::thread::Threads;

impl<'a, R: Threads + Sync> Bench<'a, R> {
    /// Whether what came of a call is one of these, and all holds that it says; where the number of its outcome is told, that one.
    pub fn check_outcomes<D: CaseDisk>(
        &mut self,
        outcomes: &[Outcome],
        ran: Ran<D>,
        wanted: Option<usize>,
    ) -> Result<D, Stop> {
        let mut ran = ran;
        match place_of(outcomes, &ran, wanted) {
            Some(outcome) => self.check_all(&outcome.checks, &mut ran)?,
            None => return Err(Stop::Differs(say_outcomes(self.alloc, outcomes, &ran)?)),
        }
        Ok(ran.fs)
    }

    fn check_all<D: CaseDisk>(&mut self, checks: &[Check], ran: &mut Ran<D>) -> Result<(), Stop> {
        for check in checks {
            self.check_one(check, ran)?;
        }
        Ok(())
    }

    fn check_one<D: CaseDisk>(&mut self, check: &Check, ran: &mut Ran<D>) -> Result<(), Stop> {
        match check {
            Check::Holds(nodes) => check_nodes(self.alloc, &mut ran.fs, nodes),
            Check::There(at) => wanted(
                self.alloc,
                stands_at(&mut ran.fs, at)?,
                "nothing stands at",
                at,
            ),
            Check::Absent(at) => wanted(
                self.alloc,
                !stands_at(&mut ran.fs, at)?,
                "something stands at",
                at,
            ),
            Check::Same(one, other) => {
                let is_same = ran.fs.same(one, other)?;
                wanted(self.alloc, is_same, "another inode stands at", one)
            }
            Check::Lists(at, names) => {
                let is_listing = lists(&mut ran.fs, at, names)?;
                wanted(self.alloc, is_listing, "there are other names in", at)
            }
            Check::Changes(count) => counted(self.alloc, ran.changes(), *count, "changes"),
            Check::Lasting(count) => counted(self.alloc, ran.lasting, *count, "lasting"),
            Check::Pending(is_pending) => counted(
                self.alloc,
                ran.is_pending as u64,
                *is_pending as u64,
                "pending",
            ),
            Check::Crash(crash) => self.check_crash(crash, ran),
        }
    }

    // From the last moment back.
    fn check_crash<D: CaseDisk>(&mut self, crash: &Crash, ran: &Ran<D>) -> Result<(), Stop> {
        let changes = ran.changes();
        for back in crash.backs.first..=crash.backs.last.unwrap_or(changes) {
            for picks in &crash.choices {
                self.check_image(crash, ran, back, picks)?;
            }
        }
        Ok(())
    }

    // On what is left, where a crash is to be had.
    fn check_image<D: CaseDisk>(
        &mut self,
        crash: &Crash,
        ran: &Ran<D>,
        back: u64,
        picks: &[u32],
    ) -> Result<(), Stop> {
        match left_of(self.alloc, &ran.fs, back, picks)? {
            Some(left) => self.check_left(left, crash, back, picks),
            None => Ok(()),
        }
    }

    fn check_left<D: CaseDisk>(
        &mut self,
        left: D,
        crash: &Crash,
        back: u64,
        picks: &[u32],
    ) -> Result<(), Stop> {
        let input = self.input(&crash.asked)?;
        let plan = no_plan(self.alloc);
        let again = self.call(left, &crash.asked, input, &plan)?;
        if is_one_printed(&crash.printed, &again) {
            return Ok(());
        }
        let text = say_crash(self.alloc, crash, &again, back, picks)?;
        Err(Stop::Differs(text))
    }
}

fn left_of<D: CaseDisk>(
    alloc: Global,
    fs: &D,
    back: u64,
    picks: &[u32],
) -> Result<Option<MemFs>, Stop> {
    let choice = Choice {
        picks: Vec::from_slice(alloc, picks)?,
        fill: 1,
    };
    fs.left(back, &choice)
}

fn is_one_printed<F>(printed: &[Printed], ran: &Ran<F>) -> bool {
    for printed in printed {
        if is_printed(printed, ran) {
            return true;
        }
    }
    false
}

fn no_plan(alloc: Global) -> Plan {
    Plan {
        source: Vec::new(alloc),
        sink: Vec::new(alloc),
        room: None,
        objects: None,
    }
}

fn place_of<'a, F>(
    outcomes: &'a [Outcome],
    ran: &Ran<F>,
    wanted: Option<usize>,
) -> Option<&'a Outcome> {
    match wanted {
        Some(place) => match outcomes.get(place) {
            Some(outcome) if is_printed(&outcome.printed, ran) => Some(outcome),
            _ => None,
        },
        None => {
            for outcome in outcomes {
                if is_printed(&outcome.printed, ran) {
                    return Some(outcome);
                }
            }
            None
        }
    }
}

/// Whether the call printed this, with this status.
fn is_printed<F>(printed: &Printed, ran: &Ran<F>) -> bool {
    let text = printed.text.as_slice();
    let is_text = if printed.is_front {
        ran.output.starts_with(text)
    } else {
        ran.output.as_slice() == text
    };
    is_text && ran.status == printed.status
}

fn wanted(alloc: Global, holds: bool, what: &str, at: &FsPath) -> Result<(), Stop> {
    if holds {
        return Ok(());
    }
    Err(Stop::Differs(say_other(alloc, what, at)?))
}

fn counted(alloc: Global, found: u64, expected: u64, what: &str) -> Result<(), Stop> {
    if found == expected {
        return Ok(());
    }
    let line = format!(in alloc; "  {what} {found} for {expected}\n")?;
    Err(Stop::Differs(Bytes::from_slice(alloc, line.as_bytes())?))
}
