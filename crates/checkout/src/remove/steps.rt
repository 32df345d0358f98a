//! The steps of a removal.
ghost use Rattle.std.specs.Prelude.{◌≡◌, ◌≢◌, ◌≤◌, ◌<◌, ◌+◌, reverse, Option, Some, OnOk, OnErr, IfOk, IfErr, IsErrOf};
ghost use Rattle.ost_types.specs.Path.{Path, IsPath};
ghost use Rattle.fs_trait.specs.View.{View};
ghost use Rattle.fs_trait.specs.Image.{Told};
ghost use Rattle.fs_trait.specs.Effect.{Elapses, HasCause, OfEmptying};
ghost use Rattle.fs_trait.specs.Change.{Writes};
ghost use Rattle.fs_trait.specs.declared.types.FsErr.TheVariants as err;
ghost use Rattle.checkout.specs.Remove.{Removing, Looks, Closes, IsStepped, OnMore, Takes, act, entered, left, passed, turn_in};
ghost use Rattle.checkout.specs.RemoveSteps.{IsBarredIn, Leaves, Needs, Refuses, Tells, WritesOf};

use super::RemoveTask;
use super::folder::OpenFolder;
use super::look::{Found, take_leaf};
use super::phase::Phase;
use fs_trait::{Fs, FsErr, StepResult};
use ost_types::{FsPath, Names, NoMemory, TryCopy};
use std::mem;

impl RemoveTask {
    /// Does the next step: at most one changing call and two reading ones. It is done once nothing stands at the path. After an
    /// error the task is unchanged, so that the step may be tried again.
    pub fn step<F: Fs>(&mut self, fs: &mut F) -> Result<StepResult<()>, FsErr>
        requires { (v : View) → F.view fs.old ≡ Some v → Needs self.old v }
        ensures writes { (v : View) → F.view fs.old ≡ Some v → Told (F.view fs.new) (λ w. Writes (WritesOf self.old v) v w) }
        ensures leaves { (v : View) → F.view fs.old ≡ Some v → Told (F.view fs.new) (Leaves self.old v) }
        ensures after { (v : View) → F.view fs.old ≡ Some v → OnOk result (Told (F.view fs.new) (λ w. Needs self.new w)) }
        ensures tells { (v : View) → F.view fs.old ≡ Some v → OnOk result (Told (F.view fs.new) (λ w. Tells self.old self.new v w)) }
        ensures fails { (v : View) → F.view fs.old ≡ Some v → IfErr result (Refuses self.old v) }
        ensures unchanged { (v : View) → F.view fs.old ≡ Some v → IsErrOf result err.NoMemory → F.view fs.new ≡ Some v }
        ensures named { IfErr result OfEmptying }
        ensures stepped { IsStepped self.old result self.new }
        ensures falls { OnMore result (left self.new < left self.old) }
        ensures time { Elapses (F.clock fs.old) (F.clock fs.new) (F.was fs.old) (F.was fs.new) (F.view fs.new) }
        ensures ticks { OnOk result (Takes (act self.old) (F.clock fs.old) (F.clock fs.new)) }
        ensures cause { HasCause (F.faults fs.old) (F.faults fs.new) result }
        ensures room { F.spare fs.old ≤ F.spare fs.new + 1 }
    {
        match &self.phase {
            Phase::Look => self.look(fs),
            Phase::Inside(folder) => {
                if folder.count() > 0 {
                    self.look(fs)
                } else {
                    self.close(fs)
                }
            }
            Phase::Ended => Ok(StepResult::Done(())),
        }
    }

    // looks at the next path
    fn look<F: Fs>(&mut self, fs: &mut F) -> Result<StepResult<()>, FsErr>
        requires act { (p : Path) × (act self.old ≡ Looks p) }
        requires needs { (v : View) → F.view fs.old ≡ Some v → Needs self.old v }
        ensures writes { (v : View) → F.view fs.old ≡ Some v → Told (F.view fs.new) (λ w. Writes (WritesOf self.old v) v w) }
        ensures leaves { (v : View) → F.view fs.old ≡ Some v → Told (F.view fs.new) (Leaves self.old v) }
        ensures after { (v : View) → F.view fs.old ≡ Some v → OnOk result (Told (F.view fs.new) (λ w. Needs self.new w)) }
        ensures tells { (v : View) → F.view fs.old ≡ Some v → OnOk result (Told (F.view fs.new) (λ w. Tells self.old self.new v w)) }
        ensures fails { (v : View) → F.view fs.old ≡ Some v → IfErr result (Refuses self.old v) }
        ensures unchanged { (v : View) → F.view fs.old ≡ Some v → IsErrOf result err.NoMemory → F.view fs.new ≡ Some v }
        ensures named { IfErr result OfEmptying }
        ensures stepped { IsStepped self.old result self.new }
        ensures falls { OnMore result (left self.new < left self.old) }
        ensures time { Elapses (F.clock fs.old) (F.clock fs.new) (F.was fs.old) (F.was fs.new) (F.view fs.new) }
        ensures ticks { OnOk result (Takes (act self.old) (F.clock fs.old) (F.clock fs.new)) }
        ensures cause { HasCause (F.faults fs.old) (F.faults fs.new) result }
        ensures room { F.spare fs.old ≤ F.spare fs.new + 1 }
    {
        let at = self.next()?;
        match take_leaf(fs, &at)? {
            Found::Nothing => {
                self.pass();
                Ok(self.turn())
            }
            Found::Folder(names) => {
                self.enter(at, names)?;
                Ok(StepResult::More)
            }
        }
    }

    // removes the innermost folder
    fn close<F: Fs>(&mut self, fs: &mut F) -> Result<StepResult<()>, FsErr>
        requires act { (p : Path) × (act self.old ≡ Closes p) }
        requires needs { (v : View) → F.view fs.old ≡ Some v → Needs self.old v }
        ensures writes { (v : View) → F.view fs.old ≡ Some v → Told (F.view fs.new) (λ w. Writes (WritesOf self.old v) v w) }
        ensures leaves { (v : View) → F.view fs.old ≡ Some v → Told (F.view fs.new) (Leaves self.old v) }
        ensures after { (v : View) → F.view fs.old ≡ Some v → OnOk result (Told (F.view fs.new) (λ w. Needs self.new w)) }
        ensures tells { (v : View) → F.view fs.old ≡ Some v → OnOk result (Told (F.view fs.new) (λ w. Tells self.old self.new v w)) }
        ensures fails { (v : View) → F.view fs.old ≡ Some v → IfErr result (Refuses self.old v) }
        ensures unchanged { (v : View) → F.view fs.old ≡ Some v → IsErrOf result err.NoMemory → F.view fs.new ≡ Some v }
        ensures named { IfErr result OfEmptying }
        ensures stepped { IsStepped self.old result self.new }
        ensures falls { OnMore result (left self.new < left self.old) }
        ensures time { Elapses (F.clock fs.old) (F.clock fs.new) (F.was fs.old) (F.was fs.new) (F.view fs.new) }
        ensures ticks { OnOk result (Takes (act self.old) (F.clock fs.old) (F.clock fs.new)) }
        ensures cause { HasCause (F.faults fs.old) (F.faults fs.new) result }
        ensures room { F.spare fs.old ≤ F.spare fs.new + 1 }
    {
        let Phase::Inside(folder) = &self.phase else {
            unreachable!()
        };
        let path = folder.path();
        let _names = path.names();
        fs.rmdir(path)?;
        match self.outer.pop() {
            Some(outer) => {
                self.phase = Phase::Inside(outer);
                Ok(StepResult::More)
            }
            None => {
                self.phase = Phase::Ended;
                Ok(StepResult::Done(()))
            }
        }
    }

    // the path that the next step looks at
    fn next(&self) -> Result<FsPath, FsErr>
        requires { (p : Path) × (act self.now ≡ Looks p) }
        ensures ok { IfOk result (λ p. act self.now ≡ Looks p) }
        ensures path { IfOk result IsPath }
        ensures err { IfErr result (IsBarredIn self.now.phase) }
    {
        match &self.phase {
            Phase::Inside(folder) => folder.next(),
            _ => {
                let _names = self.at.names();
                Ok(self.at.copy()?)
            }
        }
    }

    // nothing stands at the path that was looked at
    fn pass(&mut self)
        requires { (p : Path) × (act self.old ≡ Looks p) }
        ensures value { self.new ≡ passed self.old }
    {
        match &mut self.phase {
            Phase::Inside(folder) => folder.pass(),
            _ => self.phase = Phase::Ended,
        }
    }

    // a folder with these names stands there
    fn enter(&mut self, at: FsPath, names: Names) -> Result<(), NoMemory>
        requires { act self.old ≡ Looks at }
        ensures ok { OnOk result (self.new ≡ entered at (reverse names) self.old) }
        ensures err { OnErr result (self.new ≡ self.old) }
        ensures falls { OnOk result (left self.new < left self.old) }
    {
        let Some(room) = self.room.checked_sub(1) else {
            return Err(NoMemory);
        };
        self.outer.reserve(1)?;
        let inner = OpenFolder {
            path: at,
            names: names.into_vec(),
        };
        self.room = room;
        match mem::replace(&mut self.phase, Phase::Inside(inner)) {
            Phase::Inside(mut folder) => {
                folder.pass();
                let Ok(()) = self.outer.push(folder) else {
                    unreachable!()
                };
                Ok(())
            }
            _ => Ok(()),
        }
    }

    // whether there is more to do
    fn turn(&self) -> StepResult<()>
        ensures { result ≡ turn_in self.now.phase }
    {
        match self.phase {
            Phase::Ended => StepResult::Done(()),
            _ => StepResult::More,
        }
    }
}
