//! What differs, in lines.
use crate::call::Ran;
use crate::stop::Stop;
use case_book::{Call, Crash, Outcome, Printed};
use fs_memory::FailAt;
use fs_trait::Fs;
use ost_types::{Bytes, FsPath};
use std::alloc::Global;

/// Which of a family a call is.
#[derive(Drop)]
pub enum Member<'a> {
    Alone,
    /// The call of the disk that failed.
    Failing(FailAt),
    /// The call of the disk before which the leaf was removed.
    Removed(u64),
    /// The line, or the schedule.
    Line(&'a [u8]),
    /// The place of the byte that was left out.
    Byte(usize),
}

/// The line of the call, its words and which of its family it is, before the text.
pub fn say_call(alloc: Global, call: &Call, member: &Member, text: &Bytes) -> Result<Bytes, Stop> {
    let mut said = Bytes::new(alloc);
    let line = format!(in alloc; "  line {}:", call.line)?;
    said.append(line.as_bytes())?;
    for word in &call.asked.words {
        said.push(b' ')?;
        said.append(word.as_slice())?;
    }
    append_member(alloc, &mut said, member)?;
    said.push(b'\n')?;
    said.append(text.as_slice())?;
    Ok(said)
}

fn append_member(alloc: Global, said: &mut Bytes, member: &Member) -> Result<(), Stop> {
    match member {
        Member::Alone => Ok(()),
        Member::Failing(plan) => {
            let way = if plan.done { "done" } else { "undone" };
            let text = format!(in alloc; ", where call {} of the disk fails, {way}", plan.call)?;
            Ok(said.append(text.as_bytes())?)
        }
        Member::Removed(number) => {
            let text = format!(in alloc;
                ", where the leaf is removed before call {number} of the disk"
            )?;
            Ok(said.append(text.as_bytes())?)
        }
        Member::Line(line) => {
            said.append(b", with ")?;
            Ok(said.append(line)?)
        }
        Member::Byte(place) => {
            let text = format!(in alloc; ", without the byte {place}")?;
            Ok(said.append(text.as_bytes())?)
        }
    }
}

/// What came of a call, and what was expected.
pub fn say_outcomes<F: Fs>(
    alloc: Global,
    outcomes: &[Outcome],
    ran: &Ran<F>,
) -> Result<Bytes, Stop> {
    let mut said = Bytes::new(alloc);
    append_output(alloc, &mut said, "printed, with", ran.status, &ran.output)?;
    for outcome in outcomes {
        append_printed(alloc, &mut said, &outcome.printed)?;
    }
    Ok(said)
}

/// The same of a call behind a crash.
pub fn say_crash<F: Fs>(
    alloc: Global,
    crash: &Crash,
    ran: &Ran<F>,
    back: u64,
    picks: &[u32],
) -> Result<Bytes, Stop> {
    let mut said = Bytes::new(alloc);
    let line = format!(in alloc; "  behind a crash {back} changes before the end, by the choice")?;
    said.append(line.as_bytes())?;
    for pick in picks {
        let text = format!(in alloc; " {pick}")?;
        said.append(text.as_bytes())?;
    }
    said.push(b'\n')?;
    append_output(alloc, &mut said, "printed, with", ran.status, &ran.output)?;
    for printed in &crash.printed {
        append_printed(alloc, &mut said, printed)?;
    }
    Ok(said)
}

fn append_printed(alloc: Global, said: &mut Bytes, printed: &Printed) -> Result<(), Stop> {
    let text = printed.text.as_slice();
    append_output(alloc, said, "expected, with", printed.status, text)?;
    if printed.is_front {
        said.append(b"  ...\n")?;
    }
    Ok(())
}

fn append_output(
    alloc: Global,
    said: &mut Bytes,
    what: &str,
    status: u8,
    text: &[u8],
) -> Result<(), Stop> {
    let line = format!(in alloc; "  {what} status {status}:\n")?;
    said.append(line.as_bytes())?;
    append_lines(said, text)
}

// Each line behind a bar.
fn append_lines(said: &mut Bytes, text: &[u8]) -> Result<(), Stop> {
    match text.split_last() {
        None => Ok(()),
        Some((b'\n', lines)) => append_pieces(said, lines),
        Some(_) => {
            append_pieces(said, text)?;
            Ok(said.append(b"  whose last line has no end\n")?)
        }
    }
}

fn append_pieces(said: &mut Bytes, lines: &[u8]) -> Result<(), Stop> {
    for line in lines.split(|byte| *byte == b'\n') {
        said.append(b"  |")?;
        said.append(line)?;
        said.push(b'\n')?;
    }
    Ok(())
}

/// What isn't so at a path.
pub fn say_other(alloc: Global, what: &str, at: &FsPath) -> Result<Bytes, Stop> {
    let mut said = Bytes::from_slice(alloc, b"  ")?;
    said.append(what.as_bytes())?;
    said.push(b' ')?;
    said.append(at.text()?.as_slice())?;
    said.push(b'\n')?;
    Ok(said)
}
