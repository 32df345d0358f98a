//! A look at one path.
ghost use Rattle.std.specs.Prelude.{◌≡◌, ◌⊎◌, ◌≤◌, ◌+◌, Some, OnOk, IfOk, IfErr, IsErrOf};
ghost use Rattle.fs_trait.specs.View.{View};
ghost use Rattle.fs_trait.specs.Image.{Told};
ghost use Rattle.fs_trait.specs.Effect.{Elapses, HasCause, Next, OfFinding, OfNone};
ghost use Rattle.fs_trait.specs.declared.types.FsErr.TheVariants as err;
ghost use Rattle.checkout.specs.RemoveSteps.{Finds, MayTake};

use fs_trait::{Fs, FsErr};
use ost_types::{FsPath, Names};
use ref_room::{Stands, look_at};

/// What a look at a path found, once a leaf that stood there is gone.
#[derive(Drop, Debug)]
pub(crate) enum Found {
    /// Nothing stands there.
    Nothing,
    /// A folder with these names.
    Folder(Names),
}

/// Looks at a path. A leaf that stands there is unlinked.
pub(crate) fn take_leaf<F: Fs>(fs: &mut F, at: &FsPath) -> Result<Found, FsErr>
    ensures leaves { (v : View) → F.view fs.old ≡ Some v → Told (F.view fs.new) (MayTake at.now v) }
    ensures told { (v : View) → F.view fs.old ≡ Some v → IfOk result (λ found. Told (F.view fs.new) (λ w. Finds at.now v w found)) }
    ensures fails { (v : View) → F.view fs.old ≡ Some v → IfErr result OfNone }
    ensures unchanged { (v : View) → F.view fs.old ≡ Some v → IsErrOf result err.NoMemory → F.view fs.new ≡ Some v }
    ensures named { IfErr result OfFinding }
    ensures time { Elapses (F.clock fs.old) (F.clock fs.new) (F.was fs.old) (F.was fs.new) (F.view fs.new) }
    ensures ticks { OnOk result (Next (F.clock fs.old) (F.clock fs.new) ⊎ (F.clock fs.new ≡ F.clock fs.old)) }
    ensures cause { HasCause (F.faults fs.old) (F.faults fs.new) result }
    ensures room { F.spare fs.old ≤ F.spare fs.new + 1 }
{
    match look_at(fs, at)? {
        Stands::Nothing => Ok(Found::Nothing),
        Stands::Folder => Ok(Found::Folder(fs.list(at)?)),
        Stands::Leaf => {
            fs.unlink(at)?;
            Ok(Found::Nothing)
        }
    }
}
