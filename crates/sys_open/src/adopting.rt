ghost use Rattle.std.specs.Prelude.{◌≡◌, ◌≤◌, Some, IfOk, IfErr};
ghost use Rattle.fs_trait.specs.View.{View, all_synced};
ghost use Rattle.fs_trait.specs.Image.{Told};
ghost use Rattle.fs_trait.specs.Count.{Rose};
ghost use Rattle.fs_trait.specs.Effect.{IsQuiet, Next};
ghost use Rattle.obj_store.specs.Lookup.{HasCauseOf, Loads};
ghost use Rattle.fs_trait.specs.Change.{Left};
ghost use Rattle.rely_guarantee.specs.State.{first};
ghost use Rattle.sys_open.specs.declared.fault.OpenFault.TheVariants as fault;
ghost use Rattle.boot_read.specs.Rows.{AreRowsOf};
ghost use Rattle.store_check.specs.Listing.{AreAll};
ghost use Rattle.sys_open.specs.Changes.{Changes, Works};
ghost use Rattle.sys_open.specs.Damages.{IsGood};
ghost use Rattle.sys_open.specs.Opened.{AreCheckouts, IsListed, IsOpened, KeepsGood, KeepsRows};
ghost use Rattle.sys_open.specs.Opening.{AreAscending, Begins, IsGoodSince, IsToldOf, KeepsSince, StaysOnDamage};

use crate::checkouts::checkouts;
use crate::fault::OpenFault;
use crate::opening::open;
use boot_read::BootRow;
use fs_trait::Fs;
use obj_store::{LoadFault, load};
use ost_objects::Checked;
use ost_types::{Csum, Limits, Names, ObjName};
use repo_layout::RefName;
use std::alloc::Global;
use std::marker::Model;
use std::thread::Threads;

/// An open repository, on which a system can begin.
///
/// Each value keeps, for any file system that tells its view: all is synced, the folders of the layout and the configuration are
/// there, nothing stands at a staging path or is what no list boots, all that stands at the paths of deployments and of what boots
/// them is within the bounds of paths, these are the names of all objects and of the checkouts and the list that boots, whose
/// deployments are whole, its objects, commits and refs are good, and each crash since the first barrier left a good disk with these
/// refs and this list, which opens again with them.
#[derive(Drop)]
pub struct Opened<F: Fs> {
    fs: F,
    refs: Vec<(RefName, Csum)>,
    clock: u64,
    faults: u64,
    limits: Limits,
    objects: Vec<ObjName>,
    rows: Vec<BootRow>,
    checkouts: Names,
}

impl<F: Fs> Model for Opened<F> {
    ghost use Rattle.sys_open.specs.Opened.{AreCheckouts, IsListed, IsOpened, KeepsGood, KeepsRows, Opened};

    ghost Value = { Opened F };

    ghost view = { λ o. record { fs = o.fs; refs = o.refs.items; clock = o.clock; faults = o.faults; limits = o.limits; objects = o.objects.items; rows = o.rows.items; checkouts = o.checkouts } };

    ghost invariant = { λ o. IsOpened F.view F.clock F.was o.fs o.clock o.refs.items × IsListed F.view o.fs o.objects.items × KeepsGood F.view F.was o.fs o.clock o.limits o.refs.items × AreCheckouts F.view o.fs o.checkouts × KeepsRows F.view F.was o.fs o.clock o.limits o.rows.items };
}

/// What an open repository is taken apart into, for a system that begins on it.
#[derive(Drop)]
pub struct OpenedParts<F> {
    pub fs: F,
    /// Ascending by the bytes of the names.
    pub refs: Vec<(RefName, Csum)>,
    /// The file system's clock after the first barrier.
    pub clock: u64,
    /// The file system's count of faults before the opening.
    pub faults: u64,
    pub limits: Limits,
    /// The names of all objects, ascending.
    pub objects: Vec<ObjName>,
    /// The list of deployments that boots, the one that boots first coming first.
    pub rows: Vec<BootRow>,
    /// The names of the checkouts, ascending.
    pub checkouts: Names,
}

impl<F: Fs> Opened<F> {
    /// The refs, ascending by the bytes of their names.
    pub fn refs(&self) -> &[(RefName, Csum)]
        ensures refs { result.now ≡ self.now.refs }
        ensures ascending { AreAscending self.now.refs }
    {
        &self.refs
    }

    /// The names of all objects, ascending, each once.
    pub fn objects(&self) -> &[ObjName]
        ensures objects { result.now ≡ self.now.objects }
        ensures listed { IsListed F.view self.now.fs self.now.objects }
    {
        &self.objects
    }

    /// The list of deployments that boots, the one that boots first coming first.
    pub fn rows(&self) -> &[BootRow]
        ensures rows { result.now ≡ self.now.rows }
        ensures keeps { KeepsRows F.view F.was self.now.fs self.now.clock self.now.limits self.now.rows }
    {
        &self.rows
    }

    /// The names in the folder of checkouts, ascending.
    pub fn checkouts(&self) -> &Names
        ensures checkouts { result.now ≡ self.now.checkouts }
        ensures named { AreCheckouts F.view self.now.fs self.now.checkouts }
    {
        &self.checkouts
    }

    /// The object of this name, or None where nothing stands at its path.
    pub fn load(&mut self, alloc: Global, name: &ObjName) -> Result<Option<Checked>, LoadFault>
        ensures told { (v : View) → F.view self.old.fs ≡ Some v → Loads v.now name.now self.old.limits.content result }
        ensures still { self.new ≡ record self.old { fs = self.new.fs } }
        ensures quiet { IsQuiet (F.clock self.old.fs) (F.clock self.new.fs) (F.was self.old.fs) (F.was self.new.fs) (F.view self.old.fs) (F.view self.new.fs) }
        ensures cause { HasCauseOf (F.faults self.old.fs) (F.faults self.new.fs) result }
    {
        load(alloc, &mut self.fs, name, &self.limits)
    }

    /// The file system's count of faults.
    pub fn faults(&self) -> u64
        ensures { result ≡ F.faults self.now.fs }
    {
        self.fs.faults()
    }

    pub fn into_fs(self) -> F
        ensures { result ≡ self.fs }
    {
        let Opened {
            fs,
            refs: _,
            clock: _,
            faults: _,
            limits: _,
            objects: _,
            rows: _,
            checkouts: _,
        } = self;
        fs
    }

    /// All that a system begins with.
    pub fn into_parts(self) -> OpenedParts<F>
        ensures fs { result.fs ≡ self.fs }
        ensures refs { result.refs.items ≡ self.refs }
        ensures clock { result.clock ≡ self.clock }
        ensures faults { result.faults ≡ self.faults }
        ensures limits { result.limits ≡ self.limits }
        ensures objects { result.objects.items ≡ self.objects }
        ensures rows { result.rows.items ≡ self.rows }
        ensures checkouts { result.checkouts ≡ self.checkouts }
        ensures opened { IsOpened F.view F.clock F.was result.fs result.clock result.refs.items }
        ensures listed { IsListed F.view result.fs result.objects.items }
        ensures good { KeepsGood F.view F.was result.fs result.clock result.limits result.refs.items }
        ensures named { AreCheckouts F.view result.fs result.checkouts }
        ensures boots { KeepsRows F.view F.was result.fs result.clock result.limits result.rows.items }
    {
        let Opened {
            fs,
            refs,
            clock,
            faults,
            limits,
            objects,
            rows,
            checkouts,
        } = self;
        OpenedParts {
            fs,
            refs,
            clock,
            faults,
            limits,
            objects,
            rows,
            checkouts,
        }
    }
}

/// Opens the repository of a file system; where it isn't opened the file system comes back. No damage is told of a good disk, so
/// what a crash left since the first barrier opens again, with the same refs.
pub fn adopt<R: Threads + Sync, F: Fs>(
    rt: &R,
    alloc: Global,
    fs: F,
    limits: Limits,
) -> Result<Opened<F>, (F, OpenFault)>
    ensures good { (v : View) → F.view fs ≡ Some v → IfOk result (λ o. IsGood limits v.now × AreRowsOf v.now o.rows) }
    ensures begins { (v : View) → F.view fs ≡ Some v → IfOk result (λ o. Told (F.view o.fs) (Begins o.refs v)) }
    ensures keeps { (v : View) → F.view fs ≡ Some v → IfOk result (λ o. KeepsSince (Left (F.was o.fs)) o.clock v.now) }
    ensures since { (v : View) → F.view fs ≡ Some v → IfOk result (λ o. IsGoodSince (Left (F.was o.fs)) o.clock limits (first o.refs)) }
    ensures told { (v : View) → F.view fs ≡ Some v → IfErr result (λ e. IsToldOf limits v.now e.1) }
    ensures still { (v : View) → F.view fs ≡ Some v → IfErr result (λ e. StaysOnDamage e.1 (F.view e.0 ≡ Some (all_synced v))) }
    ensures works { (v : View) → F.view fs ≡ Some v → IfOk result (λ o. Works (Changes v.now) v (F.clock fs) (F.clock o.fs) (F.was fs) (F.was o.fs) (F.view o.fs)) }
    ensures undone { (v : View) → F.view fs ≡ Some v → IfErr result (λ e. Works (Changes v.now) v (F.clock fs) (F.clock e.0) (F.was fs) (F.was e.0) (F.view e.0)) }
    ensures objects { (v : View) → F.view fs ≡ Some v → IfOk result (λ o. Told (F.view o.fs) (λ w. AreAll w.now o.objects)) }
    ensures stands { IfOk result (λ o. AreCheckouts F.view o.fs o.checkouts × KeepsRows F.view F.was o.fs o.clock o.limits o.rows) }
    ensures ascending { IfOk result (λ o. AreAscending o.refs) }
    ensures opened { IfOk result (λ o. Next (F.clock fs) o.clock) }
    ensures begun { IfOk result (λ o. (o.faults ≡ F.faults fs) × (o.limits ≡ limits)) }
    ensures later { IfOk result (λ o. F.faults fs ≤ F.faults o.fs) }
    ensures disk { IfErr result (λ e. e.1 ≡ fault.Disk → Rose (F.faults fs) (F.faults e.0)) }
{
    let mut fs = fs;
    let faults = fs.faults();
    match open(rt, alloc, &mut fs, &limits) {
        Ok(found) => match checkouts(alloc, &mut fs) {
            Ok(checkouts) => Ok(Opened {
                fs,
                refs: found.refs,
                clock: found.clock,
                faults,
                limits,
                objects: found.objects,
                rows: found.rows,
                checkouts,
            }),
            Err(fault) => Err((fs, fault)),
        },
        Err(fault) => Err((fs, fault)),
    }
}
