//! Whether a commit is there, and without a mark.
ghost use Rattle.std.specs.Prelude.{◌≡◌, ◌≤◌, ◌+◌, Some, IfOk, IfErr, IsErrOf};
ghost use Rattle.fs_trait.specs.declared.types.FsErr.TheVariants as err;
ghost use Rattle.fs_trait.specs.View.{View};
ghost use Rattle.fs_trait.specs.Image.{Told};
ghost use Rattle.fs_trait.specs.Change.{Nothing, Writes};
ghost use Rattle.fs_trait.specs.Effect.{Elapses, HasCause, OfNone};
ghost use Rattle.repo_layout.specs.RefFile.{IsSum};
ghost use Rattle.ref_command.specs.Commands.{pin_wants};
ghost use Rattle.ref_command.specs.Found.{IsFound};
ghost use Rattle.read_command.specs.Finding.{found_in};

use fs_trait::{Fs, FsErr};
use ost_types::{Csum, Kind, ObjName};
use ref_command::{Found, RefAnswer, RefCommand};
use rely_guarantee::{CommandTask, Wants};
use std::alloc::Global;

/// A pin of the commit.
pub fn pin_wants(commit: &Csum) -> Wants
    ensures { result ≡ pin_wants commit.now }
{
    Wants {
        exclusive: false,
        turn: false,
        shared: false,
        sysroot: false,
        hold: None,
        pin: Some(ObjName {
            csum: *commit,
            kind: Kind::Commit,
        }),
    }
}

/// What names a commit is a sum.
pub fn sum_of_commit(commit: &Csum)
    ensures { IsSum commit.now }
{
    let _bytes = commit.as_slice();
}

/// Looks the commit up as `rev-parse` does.
pub fn look_up<F: Fs>(alloc: Global, actor: u8, fs: &mut F, commit: Csum) -> Result<Found, FsErr>
    ensures writes { (v : View) → F.view fs.old ≡ Some v → Told (F.view fs.new) (λ w. Writes Nothing v w) }
    ensures unchanged { (v : View) → F.view fs.old ≡ Some v → IsErrOf result err.NoMemory → F.view fs.new ≡ Some v }
    ensures told { (v : View) → F.view fs.old ≡ Some v → IfOk result (λ found. (F.view fs.new ≡ Some v) × IsFound v.now commit found) }
    ensures named { (v : View) → F.view fs.old ≡ Some v → IfErr result OfNone }
    ensures time { Elapses (F.clock fs.old) (F.clock fs.new) (F.was fs.old) (F.was fs.new) (F.view fs.new) }
    ensures cause { HasCause (F.faults fs.old) (F.faults fs.new) result }
    ensures room { F.spare fs.old ≤ F.spare fs.new + 1 }
{
    let mut parse = RefCommand::parse(alloc, commit);
    match parse.advance(actor, fs) {
        Ok(_) => Ok(found_in(parse.into_answer())),
        Err(e) => Err(e),
    }
}

fn found_in(answer: Option<RefAnswer>) -> Found
    ensures { result ≡ found_in answer }
{
    match answer {
        Some(RefAnswer::NoCommit(_)) => Found::Missing,
        Some(RefAnswer::Partial(_)) => Found::Partial,
        _ => Found::Whole,
    }
}
