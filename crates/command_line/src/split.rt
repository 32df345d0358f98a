//! The words as `clap` splits them.
ghost use Rattle.std.specs.Prelude.{◌≡◌, ◌≢◌, ◌⊎◌, IfOk, MatchResult, false, map};
ghost use Rattle.std.specs.String.{string_bytes};
ghost use Rattle.clap.specs.Simple.{app_of};
ghost use Rattle.clap.specs.Values.{kind_of};
ghost use Rattle.clap.specs.Walk.{rule_of};
ghost use Rattle.clap.specs.declared.error.kind.ErrorKind.TheVariants.{OutOfMemory};
ghost use Rattle.command_line.specs.Command.{IsNoSplit, IsSplit, app, bare, fields_rule, option_rule};
ghost use Rattle.command_line.specs.declared.fault.LineFault.TheVariants as fault;

use crate::LineFault;
use clap::error::ErrorKind;
use clap::{Arg, ArgAction, ArgMatches, Command, Error};
use std::alloc::{AllocError, Global};

/// What `clap` finds in the words.
pub fn split<'a>(alloc: Global, words: &'a [String]) -> Result<ArgMatches<'a>, LineFault>
    ensures { MatchResult result (IsSplit (map (λ word. string_bytes word) words.now)) (λ e. (e ≡ fault.NoMemory) ⊎ ((e ≡ fault.Usage) × IsNoSplit (map (λ word. string_bytes word) words.now))) }
{
    match command(alloc)?.try_get_matches_from(words) {
        Ok(matches) => Ok(matches),
        Err(error) => Err(fault_of(&error)),
    }
}

fn fault_of(error: &Error) -> LineFault
    ensures { ((kind_of error.now ≡ OutOfMemory) × (result ≡ fault.NoMemory)) ⊎ ((kind_of error.now ≢ OutOfMemory) × (result ≡ fault.Usage)) }
{
    match error.kind() {
        ErrorKind::OutOfMemory => LineFault::NoMemory,
        _ => LineFault::Usage,
    }
}

fn command<'a>(alloc: Global) -> Result<Command<'a>, AllocError>
    ensures { IfOk result (λ c. app_of c ≡ app) }
{
    bare(alloc)
        .arg(option(alloc, "helpers"))?
        .arg(option(alloc, "schedule"))?
        .arg(fields(alloc))
}

fn bare<'a>(alloc: Global) -> Command<'a>
    ensures { app_of result ≡ bare }
{
    Command::new(alloc, "ostree_cli")
        .no_binary_name(true)
        .disable_help_flag(true)
        .disable_version_flag(true)
}

fn option<'a>(alloc: Global, name: &'a str) -> Arg<'a>
    ensures rule { rule_of result ≡ option_rule name.now }
    ensures local { result.global ≡ false }
{
    Arg::new(alloc, name).long(name).action(ArgAction::Set)
}

fn fields<'a>(alloc: Global) -> Arg<'a>
    ensures rule { rule_of result ≡ fields_rule }
    ensures local { result.global ≡ false }
{
    Arg::new(alloc, "fields").action(ArgAction::Append)
}
