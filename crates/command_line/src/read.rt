ghost use Rattle.std.specs.Prelude.{◌≡◌, ◌⊎◌, ℕ, List, Option, IfOk, MatchResult, map, option_map};
ghost use Rattle.std.specs.String.{string_bytes};
ghost use Rattle.schedule.specs.declared.turns.Turns.{Turns};
ghost use Rattle.command_line.specs.Command.{AreNoLine, IsLine};
ghost use Rattle.command_line.specs.Words.{Says, SayNothing};
ghost use Rattle.command_line.specs.declared.fault.LineFault.TheVariants as fault;

use crate::split::split;
use crate::values::{fields_in, helpers_in, schedule_in};
use crate::{Line, LineFault};
use clap::ArgMatches;
use std::alloc::Global;

/// What the words behind the program's name say: `[--helpers N] [--schedule LIST] COMMAND [FIELD]...`, with the options before, between or
/// behind the fields, each at most once. An option's value stands behind `=`, or is the next word. Behind `--` every word is a field; before
/// it, a word of two or more bytes that begins with `-` is none.
pub fn read_words(alloc: Global, words: &[String]) -> Result<Line, LineFault>
    ensures line { MatchResult result (λ l. Says (map (λ word. string_bytes word) words.now) l.helpers (option_map (λ v. v.items) l.schedule) (map (λ word. string_bytes word) l.fields.items)) (λ e. (e ≡ fault.NoMemory) ⊎ ((e ≡ fault.Usage) × SayNothing (map (λ word. string_bytes word) words.now))) }
    ensures one { IfOk result (λ l. (count : ℕ) (turns : Option (List Turns)) (fields : List (List ℕ)) → Says (map (λ word. string_bytes word) words.now) count turns fields → fields ≡ map (λ word. string_bytes word) l.fields.items) }
{
    match split(alloc, words) {
        Ok(matches) => line_of(alloc, &matches),
        Err(fault) => Err(fault),
    }
}

fn line_of(alloc: Global, matches: &ArgMatches) -> Result<Line, LineFault>
    ensures { MatchResult result (λ l. IsLine matches.now l.helpers (option_map (λ v. v.items) l.schedule) (map (λ word. string_bytes word) l.fields.items)) (λ e. (e ≡ fault.NoMemory) ⊎ ((e ≡ fault.Usage) × AreNoLine matches.now)) }
{
    let Some(helpers) = helpers_in(matches) else {
        return Err(LineFault::Usage);
    };
    let schedule = match schedule_in(alloc, matches) {
        Ok(schedule) => schedule,
        Err(fault) => return Err(fault),
    };
    match fields_in(alloc, matches) {
        Ok(fields) => Ok(Line {
            helpers,
            schedule,
            fields,
        }),
        Err(fault) => Err(fault),
    }
}
