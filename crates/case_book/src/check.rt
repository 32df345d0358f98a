//! What holds after a call.
use crate::block::Block;
use crate::book::{Check, Crash, Outcome, Printed};
use crate::draft::{asked, printed};
use crate::fault::LineFault;
use crate::fields::{choices, names, number, path, range};
use crate::keyword::CheckWord;
use crate::nodes::read_nodes;
use std::alloc::Global;

pub(crate) fn read_check(
    alloc: Global,
    word: CheckWord,
    fields: &[&[u8]],
    block: &Block,
) -> Result<Check, LineFault> {
    match word {
        CheckWord::Holds => Ok(Check::Holds(read_nodes(alloc, block.text.as_slice())?)),
        CheckWord::There => Ok(Check::There(path(alloc, only(fields)?)?)),
        CheckWord::Absent => Ok(Check::Absent(path(alloc, only(fields)?)?)),
        CheckWord::Same => read_same(alloc, fields),
        CheckWord::Lists => read_lists(alloc, fields),
        CheckWord::Changes => Ok(Check::Changes(number(only(fields)?)?)),
        CheckWord::Lasting => Ok(Check::Lasting(number(only(fields)?)?)),
        CheckWord::Pending => Ok(Check::Pending(number(only(fields)?)? != 0)),
        CheckWord::Crash => read_crash(alloc, fields, block),
    }
}

fn only<'a>(fields: &[&'a [u8]]) -> Result<&'a [u8], LineFault> {
    match fields {
        [field] => Ok(*field),
        _ => Err(LineFault::Bad),
    }
}

fn read_same(alloc: Global, fields: &[&[u8]]) -> Result<Check, LineFault> {
    match fields {
        [one, other] => Ok(Check::Same(path(alloc, one)?, path(alloc, other)?)),
        _ => Err(LineFault::Bad),
    }
}

fn read_lists(alloc: Global, fields: &[&[u8]]) -> Result<Check, LineFault> {
    match fields {
        [at, fields @ ..] => Ok(Check::Lists(path(alloc, at)?, names(alloc, fields)?)),
        [] => Err(LineFault::Bad),
    }
}

// How far back, the choices, the status and the words.
fn read_crash(alloc: Global, fields: &[&[u8]], block: &Block) -> Result<Check, LineFault> {
    let [backs, picks, told @ ..] = fields else {
        return Err(LineFault::Bad);
    };
    let [_, words @ ..] = told else {
        return Err(LineFault::Bad);
    };
    let first = printed(told, block)?;
    Ok(Check::Crash(Crash {
        backs: range(backs)?,
        choices: choices(alloc, picks)?,
        asked: asked(alloc, words)?,
        printed: vec![in alloc; first]?,
    }))
}

/// Adds what the call behind the last crash may print, too.
pub(crate) fn or_crash(outcome: &mut Outcome, printed: Printed) -> Result<(), LineFault> {
    match outcome.checks.last_mut() {
        Some(Check::Crash(crash)) => Ok(crash.printed.push(printed)?),
        _ => Err(LineFault::Bad),
    }
}
