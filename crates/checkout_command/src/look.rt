//! The first step, which looks the commit up.
ghost use Rattle.std.specs.Prelude.{◌≡◌, ◌≤◌, ◌+◌, Some, IfOk, IfErr, IsErrOf};
ghost use Rattle.fs_trait.specs.declared.types.FsErr.TheVariants as err;
ghost use Rattle.fs_trait.specs.View.{View};
ghost use Rattle.fs_trait.specs.Image.{Told};
ghost use Rattle.fs_trait.specs.Change.{Nothing, Writes};
ghost use Rattle.fs_trait.specs.Effect.{Elapses, HasCause, OfNone};
ghost use Rattle.checkout_command.specs.LookSteps.{IsLookStepped, LookTells};

use crate::{CheckoutAnswer, CheckoutCommand, Read, Request};
use fs_trait::{Fs, FsErr};
use read_command::look_up;
use ref_command::Found;

impl Request {
    /// What comes next: where the commit can't be read, an answer.
    pub(crate) fn look<F: Fs>(&self, actor: u8, fs: &mut F) -> Result<CheckoutCommand, FsErr>
        ensures writes { (v : View) → F.view fs.old ≡ Some v → Told (F.view fs.new) (λ w. Writes Nothing v w) }
        ensures unchanged { (v : View) → F.view fs.old ≡ Some v → IsErrOf result err.NoMemory → F.view fs.new ≡ Some v }
        ensures told { (v : View) → F.view fs.old ≡ Some v → IfOk result (λ next. (F.view fs.new ≡ Some v) × LookTells v.now self.now next) }
        ensures stepped { IfOk result (IsLookStepped self.now) }
        ensures named { (v : View) → F.view fs.old ≡ Some v → IfErr result OfNone }
        ensures time { Elapses (F.clock fs.old) (F.clock fs.new) (F.was fs.old) (F.was fs.new) (F.view fs.new) }
        ensures cause { HasCause (F.faults fs.old) (F.faults fs.new) result }
        ensures room { F.spare fs.old ≤ F.spare fs.new + 1 }
    {
        let read = Read::new(self.copied()?);
        Ok(match look_up(self.alloc, actor, fs, self.commit)? {
            Found::Missing => CheckoutCommand::Ended(CheckoutAnswer::NoCommit(self.commit)),
            Found::Partial => CheckoutCommand::Ended(CheckoutAnswer::Partial(self.commit)),
            Found::Whole => CheckoutCommand::Read(read),
        })
    }
}
