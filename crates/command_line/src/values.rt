//! The values that were found, as what they stand for.
ghost use Rattle.std.specs.Prelude.{◌≡◌, ◌≢◌, ◌≤◌, ◌⊎◌, ◌∷◌, ℕ, List, [], Option, IfOk, MatchOption, MatchResult, codes, map, option_map};
ghost use Rattle.std.specs.String.{string_bytes};
ghost use Rattle.std.specs.Fmt.{decimal};
ghost use Rattle.schedule.specs.declared.turns.Turns.{Turns};
ghost use Rattle.command_line.specs.Command.{values_of};
ghost use Rattle.command_line.specs.Words.{AreHelpers, AreSchedule};
ghost use Rattle.command_line.specs.declared.fault.LineFault.TheVariants as fault;

use crate::LineFault;
use clap::ArgMatches;
use ost_types::NoMemory;
use schedule::{ScheduleFault, Turns, number_within, read_schedule};
use std::alloc::Global;

/// The number of helpers that was found, or 4.
pub fn helpers_in(matches: &ArgMatches) -> Option<u8>
    ensures { MatchOption result ((count : ℕ) → ¬ (AreHelpers (values_of (codes "helpers") matches.now) count)) (AreHelpers (values_of (codes "helpers") matches.now)) }
{
    match matches.get_strs("helpers") {
        Some(values) => helpers_of(values),
        None => Some(4),
    }
}

/// The schedule that was found, if there is one.
pub fn schedule_in(alloc: Global, matches: &ArgMatches) -> Result<Option<Vec<Turns>>, LineFault>
    ensures { MatchResult result (λ o. AreSchedule (values_of (codes "schedule") matches.now) (option_map (λ v. v.items) o)) (λ e. (e ≡ fault.NoMemory) ⊎ ((e ≡ fault.Usage) × ((turns : Option (List Turns)) → ¬ (AreSchedule (values_of (codes "schedule") matches.now) turns)))) }
{
    match matches.get_strs("schedule") {
        Some(values) => schedule_of(alloc, values),
        None => Ok(None),
    }
}

/// The fields that were found, of which there is one at least.
pub fn fields_in(alloc: Global, matches: &ArgMatches) -> Result<Vec<String>, LineFault>
    ensures { MatchResult result (λ v. (values_of (codes "fields") matches.now ≢ []) × (map (λ word. string_bytes word) v.items ≡ values_of (codes "fields") matches.now)) (λ e. (e ≡ fault.NoMemory) ⊎ ((e ≡ fault.Usage) × (values_of (codes "fields") matches.now ≡ []))) }
{
    match matches.get_strs("fields") {
        Some(values) => fields_of(alloc, values),
        None => Err(LineFault::Usage),
    }
}

// 4 without a value, else one from 0 to 8
fn helpers_of(values: &[&str]) -> Option<u8>
    ensures { MatchOption result ((count : ℕ) → ¬ (AreHelpers (map (λ value. value.now) values.now) count)) (AreHelpers (map (λ value. value.now) values.now)) }
{
    match values {
        [] => Some(4),
        [value] => digit_of(value),
        _ => None,
    }
}

fn digit_of(value: &str) -> Option<u8>
    ensures { MatchOption result ((n : ℕ) → n ≤ 8 → value.now ≢ decimal n) (λ n. (value.now ≡ decimal n) × (n ≤ 8)) }
{
    let number = number_within(value.as_bytes(), 0, 8)?;
    Some(number as u8)
}

fn schedule_of(alloc: Global, values: &[&str]) -> Result<Option<Vec<Turns>>, LineFault>
    ensures { MatchResult result (λ o. AreSchedule (map (λ value. value.now) values.now) (option_map (λ v. v.items) o)) (λ e. (e ≡ fault.NoMemory) ⊎ ((e ≡ fault.Usage) × ((turns : Option (List Turns)) → ¬ (AreSchedule (map (λ value. value.now) values.now) turns)))) }
{
    match values {
        [] => Ok(None),
        [value] => turns_of(alloc, value),
        _ => Err(LineFault::Usage),
    }
}

fn turns_of(alloc: Global, value: &str) -> Result<Option<Vec<Turns>>, LineFault>
    ensures { MatchResult result (λ o. AreSchedule (value.now ∷ []) (option_map (λ v. v.items) o)) (λ e. (e ≡ fault.NoMemory) ⊎ ((e ≡ fault.Usage) × ((turns : Option (List Turns)) → ¬ (AreSchedule (value.now ∷ []) turns)))) }
{
    match read_schedule(alloc, value.as_bytes()) {
        Ok(schedule) => Ok(Some(schedule)),
        Err(ScheduleFault::Malformed) => Err(LineFault::Usage),
        Err(ScheduleFault::NoMemory) => Err(LineFault::NoMemory),
    }
}

fn fields_of(alloc: Global, values: &[&str]) -> Result<Vec<String>, LineFault>
    ensures { MatchResult result (λ v. (map (λ value. value.now) values.now ≢ []) × (map (λ word. string_bytes word) v.items ≡ map (λ value. value.now) values.now)) (λ e. (e ≡ fault.NoMemory) ⊎ ((e ≡ fault.Usage) × (map (λ value. value.now) values.now ≡ []))) }
{
    if values.is_empty() {
        return Err(LineFault::Usage);
    }
    match copied(alloc, values) {
        Ok(fields) => Ok(fields),
        Err(NoMemory) => Err(LineFault::NoMemory),
    }
}

fn copied(alloc: Global, values: &[&str]) -> Result<Vec<String>, NoMemory>
    ensures { IfOk result (λ v. map (λ word. string_bytes word) v.items ≡ map (λ value. value.now) values.now) }
{
    let mut fields = Vec::with_capacity(alloc, values.len())?;
    for value in values {
        fields.push(String::from_str(alloc, value)?)?;
    }
    Ok(fields)
}
