//! The next command of a lane.
ghost use Rattle.std.specs.Prelude.{◌≡◌, ◌≢◌, ◌<◌, ◌++◌, ◌∷◌, [], List, codes, length, IfOk, MatchResult};
ghost use Rattle.script.specs.Words.{Resolves};
ghost use Rattle.script.specs.declared.command.Command.{Command};
ghost use Rattle.script.specs.declared.command.Written.TheVariants as written;
ghost use Rattle.script_reader.specs.Script.{command_limit, in_lane, IsCommandLine, Refuses, RefusesTree};

use crate::cut::cut;
use ost_forms::TreeItem;
use ost_types::{Items, NoMemory, TryCopy};
use script::{Command, CommitLine, ScriptFault, Written, read_written};
use std::alloc::Global;

/// How many commands a lane has at most.
pub const COMMAND_LIMIT: usize = 64;

/// The commands with that of the line, or why it can't stand here.
pub fn next_command(
    alloc: Global,
    trees: &[Items<TreeItem>],
    commands: Vec<Command>,
    line: &[u8],
    number: u32,
) -> Result<Vec<Command>, ScriptFault>
    requires { line.now ≢ codes "end" }
    ensures { MatchResult result (λ more. (command : Command) × (length commands.items < command_limit) × IsCommandLine trees.now line.now command × (more.items ≡ commands.items ++ command ∷ [])) (λ e. (lanes : List (List Command)) → Refuses (in_lane trees.now lanes commands.items) line.now number e) }
{
    let fields = cut(alloc, line, b' ')?;
    let Some(written) = read_written(alloc, &fields)? else {
        return Err(ScriptFault::BadLine(number));
    };
    if commands.len() >= COMMAND_LIMIT {
        return Err(ScriptFault::TooManyCommands);
    }
    let command = resolve(alloc, trees, written)?;
    Ok(push(commands, command)?)
}

fn push(mut commands: Vec<Command>, command: Command) -> Result<Vec<Command>, NoMemory>
    ensures { IfOk result (λ more. more.items ≡ commands.items ++ command ∷ []) }
{
    commands.push(command)?;
    Ok(commands)
}

/// The command that is written, with the tree of its number.
fn resolve(
    alloc: Global,
    trees: &[Items<TreeItem>],
    written: Written,
) -> Result<Command, ScriptFault>
    ensures { MatchResult result (Resolves trees.now written) (RefusesTree (length trees.now) written) }
{
    match written {
        Written::Command(command) => Ok(command),
        Written::Commit(line) => commit_of(alloc, trees, line),
    }
}

fn commit_of(
    alloc: Global,
    trees: &[Items<TreeItem>],
    line: CommitLine,
) -> Result<Command, ScriptFault>
    ensures { MatchResult result (Resolves trees.now (written.Commit line)) (RefusesTree (length trees.now) (written.Commit line)) }
{
    let Some(tree) = trees.get(line.tree as usize) else {
        return Err(ScriptFault::UnknownTree(line.tree));
    };
    let tree = tree.copy()?.into_vec();
    let CommitLine {
        branch,
        subject,
        body,
        time,
        ..
    } = line;
    Ok(Command::Commit {
        branch,
        tree,
        subject,
        body,
        time,
    })
}
