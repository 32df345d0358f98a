//! The checks of an opening.
ghost use Rattle.std.specs.Prelude.{◌≡◌, [], Some, IfOk};
ghost use Rattle.fs_trait.specs.View.{View};
ghost use Rattle.fs_trait.specs.Effect.{IsQuiet};
ghost use Rattle.repo_layout.specs.Paths.{heads};
ghost use Rattle.rely_guarantee.specs.State.{first};
ghost use Rattle.rely_guarantee.specs.Disks.{Logical};
ghost use Rattle.boot_read.specs.Rows.{AreRowsOf};
ghost use Rattle.store_check.specs.Listing.{AreAll};
ghost use Rattle.sys_open.specs.declared.fault.Why.TheVariants.{BadRef, WrongKind};
ghost use Rattle.sys_open.specs.Faults.{HasReason};
ghost use Rattle.layout_rules.specs.Checks.{Asks, HoldsRefs, Kinds};
ghost use Rattle.sys_open.specs.LeftOver.{AreLeftOvers};
ghost use Rattle.sys_open.specs.Walk.{Walked};
ghost use Rattle.sys_open.specs.Opening.{Answers, AreAscending, AreRefsOf};
ghost use Rattle.sys_open.specs.Stored.{ToldOfStore};

use crate::boot_list::read_boot_list;
use crate::config::check_config;
use crate::deployments::check_deployments;
use crate::fault::{OpenFault, Why};
use crate::found::Found;
use crate::inside::check_inside;
use crate::kinds::check_kinds;
use crate::least::{damage, lesser};
use crate::refs::read_refs;
use crate::removal::check_left_overs;
use crate::store::{look_at_commits, read_objects};
use boot_read::BootRow;
use fs_trait::Fs;
use ost_types::{Csum, FsPath, Limits, ObjName};
use repo_layout::{Folder, RefName, folder_path};
use std::alloc::Global;
use std::thread::Threads;

/// What a disk that passes all checks has.
#[derive(Drop)]
pub struct Contents {
    /// Ascending by the bytes of the names.
    pub refs: Vec<(RefName, Csum)>,
    /// The names of all objects, ascending.
    pub objects: Vec<ObjName>,
    /// The list that boots, the one that boots first coming first.
    pub rows: Vec<BootRow>,
    /// The paths of what no list boots.
    pub left_overs: Vec<FsPath>,
}

// Looks at each place of the layout. The least one is told at which something stands that it doesn't allow.
fn check_places<F: Fs>(alloc: Global, fs: &mut F) -> Result<(), OpenFault>
    ensures told { (v : View) → F.view fs.old ≡ Some v → Walked (Asks Kinds v.now) WrongKind [] result }
    ensures quiet { IsQuiet (F.clock fs.old) (F.clock fs.new) (F.was fs.old) (F.was fs.new) (F.view fs.old) (F.view fs.new) }
    ensures reason { HasReason (F.faults fs.old) (F.faults fs.new) result }
{
    let fixed = damage(check_kinds(alloc, fs))?;
    let inside = check_inside(alloc, fs)?;
    match lesser(fixed, inside) {
        None => Ok(()),
        Some(path) => Err(OpenFault::Damaged(path, Why::WrongKind)),
    }
}

// The refs, ascending by the bytes of their names.
fn refs_of<F: Fs>(alloc: Global, fs: &mut F) -> Result<Vec<(RefName, Csum)>, OpenFault>
    ensures told { (v : View) → F.view fs.old ≡ Some v → Walked (HoldsRefs v.now) BadRef heads result }
    ensures refs { (v : View) → F.view fs.old ≡ Some v → IfOk result (λ refs. Logical v.now (first refs.items)) }
    ensures ascending { IfOk result (λ refs. AreAscending refs.items) }
    ensures quiet { IsQuiet (F.clock fs.old) (F.clock fs.new) (F.was fs.old) (F.was fs.new) (F.view fs.old) (F.view fs.new) }
    ensures reason { HasReason (F.faults fs.old) (F.faults fs.new) result }
{
    let mut found = Found::new(alloc);
    let heads = folder_path(alloc, Folder::Heads)?;
    read_refs(alloc, fs, &heads, &mut found)?;
    Ok(found.into_vec(alloc)?)
}

// The names of all objects. Each object is read, and then what the commits and these refs name.
fn objects_of<R: Threads + Sync, F: Fs>(
    rt: &R,
    alloc: Global,
    fs: &mut F,
    refs: &[(RefName, Csum)],
    limits: &Limits,
) -> Result<Vec<ObjName>, OpenFault>
    requires { (v : View) → F.view fs.old ≡ Some v → AreRefsOf v.now refs.now }
    ensures told { (v : View) → F.view fs.old ≡ Some v → ToldOfStore limits.now v.now result }
    ensures all { (v : View) → F.view fs.old ≡ Some v → IfOk result (λ names. AreAll v.now names.items) }
    ensures quiet { IsQuiet (F.clock fs.old) (F.clock fs.new) (F.was fs.old) (F.was fs.new) (F.view fs.old) (F.view fs.new) }
    ensures reason { HasReason (F.faults fs.old) (F.faults fs.new) result }
{
    let found = read_objects(rt, alloc, fs, limits)?;
    look_at_commits(alloc, fs, &found, refs, limits)?;
    Ok(found.names)
}

/// Makes all checks, in their order.
pub fn check<R: Threads + Sync, F: Fs>(
    rt: &R,
    alloc: Global,
    fs: &mut F,
    limits: &Limits,
) -> Result<Contents, OpenFault>
    ensures told { (v : View) → F.view fs.old ≡ Some v → Answers limits.now v.now result }
    ensures refs { (v : View) → F.view fs.old ≡ Some v → IfOk result (λ c. Logical v.now (first c.refs.items)) }
    ensures objects { (v : View) → F.view fs.old ≡ Some v → IfOk result (λ c. AreAll v.now c.objects.items) }
    ensures rows { (v : View) → F.view fs.old ≡ Some v → IfOk result (λ c. AreRowsOf v.now c.rows.items) }
    ensures left_overs { (v : View) → F.view fs.old ≡ Some v → IfOk result (λ c. AreLeftOvers v.now c.left_overs.items) }
    ensures ascending { IfOk result (λ c. AreAscending c.refs.items) }
    ensures quiet { IsQuiet (F.clock fs.old) (F.clock fs.new) (F.was fs.old) (F.was fs.new) (F.view fs.old) (F.view fs.new) }
    ensures reason { HasReason (F.faults fs.old) (F.faults fs.new) result }
{
    check_places(alloc, fs)?;
    check_config(alloc, fs)?;
    let refs = refs_of(alloc, fs)?;
    let objects = objects_of(rt, alloc, fs, refs.as_slice(), limits)?;
    let rows = read_boot_list(alloc, fs)?;
    check_deployments(alloc, fs, limits, rows.as_slice())?;
    let left_overs = check_left_overs(alloc, fs, rows.as_slice())?;
    Ok(Contents {
        refs,
        objects,
        rows,
        left_overs,
    })
}
