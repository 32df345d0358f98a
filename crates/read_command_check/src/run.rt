//! A command that nobody interrupts.
ghost use Rattle.std.specs.Prelude.{◌≡◌, Some, IfOk, IfErr, MatchOption};
ghost use Rattle.fs_trait.specs.View.{View};
ghost use Rattle.fs_trait.specs.Effect.{OfNone};
ghost use Rattle.read_command.specs.Asked.{Answers, asked};
ghost use Rattle.read_command.specs.Commands.{IsNew};

use fs_trait::{Fs, FsErr, StepResult};
use read_command::{ReadAnswer, ReadCommand};
use rely_guarantee::CommandTask;

/// What a new command answers.
pub fn run_alone<F: Fs>(fs: &mut F, command: ReadCommand) -> Result<Option<ReadAnswer>, FsErr>
    requires { IsNew command }
    ensures told { (v : View) → F.view fs.old ≡ Some v → IfOk result (λ o. MatchOption o ⊥ (λ a. Answers v.now (asked command) a)) }
    ensures named { (v : View) → F.view fs.old ≡ Some v → IfErr result OfNone }
    ensures same { (v : View) → F.view fs.old ≡ Some v → IfOk result (λ o. F.view fs.new ≡ Some v) }
{
    let mut command = command;
    'steps: loop {
        match command.advance(0, fs)? {
            StepResult::More => {}
            StepResult::Done(()) => return Ok(command.into_answer()),
        }
    }
}
