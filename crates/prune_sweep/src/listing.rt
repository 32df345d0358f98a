//! The names of all objects, a folder a step.
ghost use Rattle.std.specs.Prelude.{◌≡◌, ◌-◌, ◌≤◌, [], Some, OnOk, IfErr};
ghost use Rattle.fs_trait.specs.View.{View};
ghost use Rattle.fs_trait.specs.Effect.{HasCause, IsQuiet, OfNone};
ghost use Rattle.store_check.specs.Listing.{AreBelow};
ghost use Rattle.prune_sweep.specs.Listing.{IsListed};

use fs_trait::{Fs, FsErr, StepResult};
use obj_store::list_part;
use ost_types::ObjName;
use std::alloc::Global;
use std::marker::Model;

/// Lists the names of all objects of a store, ascending: each step one of the 256 folders.
#[derive(Drop, Debug)]
pub struct Listing {
    alloc: Global,
    names: Vec<ObjName>,
    // the folders before this one are listed
    first: u16,
}

impl Model for Listing {
    ghost use Rattle.std.specs.Prelude.{◌≤◌};
    ghost use Rattle.prune_sweep.specs.Listing.{Listed};

    ghost Value = { Listed };

    ghost view = { λ a. record { names = a.names.items; first = a.first } };

    ghost invariant = { λ a. a.first ≤ 256 };
}

impl Listing {
    /// Nothing is listed yet.
    pub fn new(alloc: Global) -> Listing
        ensures { result ≡ record { names = []; first = 0 } }
    {
        Listing {
            alloc,
            names: Vec::new(alloc),
            first: 0,
        }
    }

    /// Lists the next folder. After an error nothing is otherwise, so that the step may be tried again.
    pub fn step<F: Fs>(&mut self, fs: &mut F) -> Result<StepResult<()>, FsErr>
        ensures told { (v : View) → F.view fs.old ≡ Some v → AreBelow v.now self.old.first self.old.names → OnOk result (AreBelow v.now self.new.first self.new.names) }
        ensures listed { IsListed self.old result self.new }
        ensures named { IfErr result OfNone }
        ensures quiet { IsQuiet (F.clock fs.old) (F.clock fs.new) (F.was fs.old) (F.was fs.new) (F.view fs.old) (F.view fs.new) }
        ensures keeps_room { F.spare fs.old ≤ F.spare fs.new }
        ensures cause { HasCause (F.faults fs.old) (F.faults fs.new) result }
    {
        if self.first >= 256 {
            return Ok(StepResult::Done(()));
        }
        let part = list_part(self.alloc, fs, self.first as u8)?;
        self.names.extend_from_slice(part.as_slice())?;
        self.first += 1;
        Ok(StepResult::More)
    }

    /// At most so many steps go on.
    pub fn left(&self) -> u16
        ensures { result ≡ 256 - self.now.first }
    {
        256 - self.first
    }

    /// The names so far.
    pub fn into_names(self) -> Vec<ObjName>
        ensures { result.items ≡ self.names }
    {
        self.names
    }
}
