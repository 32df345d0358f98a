//! Scripts, from their first line to their last.
ghost use Rattle.std.specs.Prelude.{◌≡◌, ◌≢◌, ◌<◌, ◌≤◌, ◌++◌, ◌∷◌, [], List, length, map, All, IfErr, IfSome, MatchOption, MatchResult};
ghost use Rattle.script.specs.declared.fault.ScriptFault.TheVariants.{BadLine, NoMemory};
ghost use Rattle.script_reader.specs.Drafts.{state_of, StartsLine};
ghost use Rattle.script_reader.specs.Script.{between, lines_of, script_limit, Commands, EndsBadly, IsFault, IsScript, Tree};

use crate::draft::Draft;
use crate::step::follow;
use script::{Lane, ScriptFault};
use std::alloc::Global;

/// How many bytes a script has at most.
pub const SCRIPT_LIMIT: usize = 4_194_304;

/// The lanes of a script, or the first thing that is wrong with it. Lines are counted from 1.
pub fn read_script(alloc: Global, bytes: &[u8]) -> Result<Vec<Lane>, ScriptFault>
    ensures answer { MatchResult result (λ lanes. IsScript bytes.now (map (λ lane. lane.commands.items) lanes.items)) (IsFault bytes.now) }
    ensures exact { (lanes : List Commands) → IsScript bytes.now lanes → IfErr result (λ e. e ≡ NoMemory) }
{
    if bytes.len() > SCRIPT_LIMIT {
        return Err(ScriptFault::TooLong);
    }
    read_lines(alloc, bytes)
}

fn read_lines(alloc: Global, bytes: &[u8]) -> Result<Vec<Lane>, ScriptFault>
    requires { length bytes.now ≤ script_limit }
    ensures { MatchResult result (λ lanes. IsScript bytes.now (map (λ lane. lane.commands.items) lanes.items)) (IsFault bytes.now) }
{
    let mut draft = Draft::Start;
    let mut number = 1;
    let mut rest = bytes;
    while let Some((line, behind)) = split_line(rest) {
        draft = match follow(alloc, draft, line, number) {
            Ok(next) => next,
            Err(fault) => return Err(fault),
        };
        number += 1;
        rest = behind;
    }
    finish(draft, rest, number)
}

/// The first line without its newline, and what stands behind it.
fn split_line(text: &[u8]) -> Option<(&[u8], &[u8])>
    ensures lines { MatchOption result (lines_of text.now ≡ text.now ∷ []) (λ p. lines_of text.now ≡ p.0.now ∷ lines_of p.1.now) }
    ensures shorter { IfSome result (λ p. length p.1.now < length text.now) }
{
    let (line, rest) = split_newline(text);
    match rest.split_first() {
        Some((_, behind)) => Some((line, behind)),
        None => None,
    }
}

/// What stands before the first newline, and the text from it on.
fn split_newline(text: &[u8]) -> (&[u8], &[u8])
    ensures whole { text.now ≡ result.0.now ++ result.1.now }
    ensures line { All (λ b. b ≢ 10) result.0.now }
    ensures rest { StartsLine result.1.now }
{
    let end = text
        .iter()
        .position(|byte| *byte == b'\n')
        .unwrap_or(text.len());
    text.split_at(end)
}

/// The lanes, where no section is open and nothing stands behind the last line.
fn finish(draft: Draft, rest: &[u8], number: u32) -> Result<Vec<Lane>, ScriptFault>
    ensures { MatchResult result (λ lanes. (rest.now ≡ []) × (trees : List Tree) × (state_of draft ≡ between trees (map (λ lane. lane.commands.items) lanes.items))) (λ e. (e ≡ BadLine number) × EndsBadly (state_of draft) rest.now) }
{
    match draft {
        Draft::Between(sections) => {
            if rest.is_empty() {
                Ok(sections.lanes)
            } else {
                Err(ScriptFault::BadLine(number))
            }
        }
        Draft::Start | Draft::Tree(..) | Draft::Lane(..) => Err(ScriptFault::BadLine(number)),
    }
}
