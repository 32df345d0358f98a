//! A command from the words of a command line, or from the fields of a line.
ghost use Rattle.std.specs.Prelude.{◌≡◌, ◌≢◌, ◌∷◌, [], List, ℕ, map, IfOk, MatchOption, MatchResult, Ok, Err};
ghost use Rattle.script.specs.Words.{AreNoCommand, IsWritten, ReadsWords, spelled};

use crate::command::{Command, Lane, Written};
use crate::fault::ScriptFault;
use crate::read::{
    read_cat, read_checkout, read_cleanup, read_commit_words, read_drop, read_log, read_ls,
    read_prune, read_refs, read_reset, read_rev_parse, read_status,
};
use ost_types::{NoMemory, Text};
use std::alloc::Global;

/// The one lane with the one command that the words are. Words that are none are `BadLine(1)`. There is no tree that a
/// commit could be of, so it is `UnknownTree`.
pub fn read_words(alloc: Global, words: &[Text]) -> Result<Vec<Lane>, ScriptFault>
    ensures { MatchResult result (λ lanes. ReadsWords words.now (Ok (map (λ lane. lane.commands.items) lanes.items))) (λ e. ReadsWords words.now (Err e)) }
{
    let fields = slices(alloc, words)?;
    match read_written(alloc, &fields)? {
        Some(Written::Command(command)) => Ok(alone(alloc, command)?),
        Some(Written::Commit(line)) => Err(ScriptFault::UnknownTree(line.tree)),
        None => Err(ScriptFault::BadLine(1)),
    }
}

fn slices(alloc: Global, words: &[Text]) -> Result<Vec<&[u8]>, NoMemory>
    ensures { IfOk result (λ v. map (λ x. x.now) v.items ≡ words.now) }
{
    let mut fields = Vec::with_capacity(alloc, words.len())?;
    for word in words {
        fields.push(word.as_slice())?;
    }
    Ok(fields)
}

fn alone(alloc: Global, command: Command) -> Result<Vec<Lane>, NoMemory>
    ensures { IfOk result (λ lanes. map (λ lane. lane.commands.items) lanes.items ≡ (command ∷ []) ∷ []) }
{
    let mut commands = Vec::with_capacity(alloc, 1)?;
    commands.push(command)?;
    let mut lanes = Vec::with_capacity(alloc, 1)?;
    lanes.push(Lane { commands })?;
    Ok(lanes)
}

/// The command whose keyword and fields these are, or None where they are no command's.
pub fn read_written(alloc: Global, words: &[&[u8]]) -> Result<Option<Written>, NoMemory>
    ensures { IfOk result (λ o. MatchOption o (AreNoCommand (map (λ w. w.now) words.now)) (IsWritten (map (λ w. w.now) words.now))) }
{
    let [keyword, fields @ ..] = words else {
        return Ok(None);
    };
    match keyword_of(keyword) {
        Some(Keyword::Refs) => Ok(read_refs(fields)),
        Some(Keyword::Status) => Ok(read_status(fields)),
        Some(Keyword::RevParse) => read_rev_parse(alloc, fields),
        Some(Keyword::Log) => read_log(alloc, fields),
        Some(Keyword::Ls) => read_ls(alloc, fields),
        Some(Keyword::Cat) => read_cat(alloc, fields),
        Some(Keyword::Checkout) => read_checkout(alloc, fields),
        Some(Keyword::Reset) => read_reset(alloc, fields),
        Some(Keyword::DropRef) => read_drop(alloc, fields),
        Some(Keyword::Prune) => read_prune(alloc, fields),
        Some(Keyword::Cleanup) => Ok(read_cleanup(fields)),
        Some(Keyword::Commit) => read_commit_words(alloc, fields),
        None => Ok(None),
    }
}

/// The first word of a command.
#[derive(Clone, Copy, Debug, PartialEq, Eq)]
enum Keyword {
    Refs,
    Status,
    RevParse,
    Log,
    Ls,
    Cat,
    Checkout,
    Reset,
    DropRef,
    Prune,
    Cleanup,
    Commit,
}

fn keyword_of(word: &[u8]) -> Option<Keyword>
    ensures { MatchOption result ((k : Keyword) → word.now ≢ spelled k) (λ k. word.now ≡ spelled k) }
{
    match word {
        b"refs" => Some(Keyword::Refs),
        b"status" => Some(Keyword::Status),
        b"rev-parse" => Some(Keyword::RevParse),
        b"log" => Some(Keyword::Log),
        b"ls" => Some(Keyword::Ls),
        b"cat" => Some(Keyword::Cat),
        b"checkout" => Some(Keyword::Checkout),
        b"reset" => Some(Keyword::Reset),
        b"drop" => Some(Keyword::DropRef),
        b"prune" => Some(Keyword::Prune),
        b"cleanup" => Some(Keyword::Cleanup),
        b"commit" => Some(Keyword::Commit),
        _ => None,
    }
}
