//! What a task tells of its object and its path.
ghost use Rattle.std.specs.Prelude.{◌≡◌, ◌≤◌, ℕ, Option, Some, IfOk, IfErr};
ghost use Rattle.fs_trait.specs.View.{View};
ghost use Rattle.fs_trait.specs.Effect.{HasCause, IsQuiet, OfNone};
ghost use Rattle.obj_store.specs.Putting.{Putting, put_in};
ghost use Rattle.obj_store.specs.Steps.{MayStore, WouldStore};

use super::PutTask;
use crate::phase::{Phase, Put};
use fs_trait::{Fs, FsErr};
use ost_types::ObjName;

impl PutTask {
    /// The object's name.
    pub fn name(&self) -> &ObjName
        ensures { result.now ≡ self.now.name }
    {
        &self.name
    }

    /// What came of the object, once its path is seen to.
    pub fn came(&self) -> Option<Put>
        ensures { result ≡ put_in self.now.phase }
    {
        match self.phase {
            Phase::Unlink(put) | Phase::Ended(put) => Some(put),
            _ => None,
        }
    }

    /// Whether the next step is the one that puts the object at its path, and nothing stands there. Makes at most one reading
    /// call.
    pub fn would_store<F: Fs>(&self, fs: &mut F) -> Result<bool, FsErr>
        ensures told { (v : View) → F.view fs.old ≡ Some v → IfOk result (WouldStore self.now v) }
        ensures links { IfOk result (MayStore self.now.phase) }
        ensures named { IfErr result OfNone }
        ensures quiet { IsQuiet (F.clock fs.old) (F.clock fs.new) (F.was fs.old) (F.was fs.new) (F.view fs.old) (F.view fs.new) }
        ensures keeps_room { F.spare fs.old ≤ F.spare fs.new }
        ensures cause { HasCause (F.faults fs.old) (F.faults fs.new) result }
    {
        match self.phase {
            Phase::Link => {
                let node = fs.stat(&self.at)?;
                Ok(node.is_none())
            }
            _ => Ok(false),
        }
    }
}
