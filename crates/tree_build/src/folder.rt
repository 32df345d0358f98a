//! The objects of a folder.

ghost use Rattle.std.specs.Prelude.{◌≡◌, IfOk};
ghost use Rattle.ost_types.specs.Mode.{IsFolderMode};
ghost use Rattle.ost_forms.specs.DirMeta.{dirmeta_form};
ghost use Rattle.ost_forms.specs.DirTree.{tree_form};
ghost use Rattle.tree_build.specs.Items.{IsTree};
ghost use Rattle.tree_build.specs.Objects.{bytes_of, meta_bytes, meta_object, tree_object};
ghost use Rattle.tree_build.specs.Makeable.{IsSmall};
ghost use Rattle.tree_build.specs.Building.{IsBuildable, IsProgress, IsFolderNext, IsHalfNext, Steps, object_of};

use crate::entries::{entries_of, first_in};
use crate::progress::{Done, Progress};
use crate::sums::Sums;
use ost_forms::{DirMeta, DirTree, TreeItem};
use ost_objects::{Checked, MakeFault};
use ost_types::{Limits, Meta, NoMemory, TryCopy};
use std::alloc::Global;

/// The entries of the folder before `at`, which are the last of what lies in no folder yet.
pub(crate) fn give_entries(
    alloc: Global,
    items: &[TreeItem],
    limits: &Limits,
    progress: &mut Progress,
) -> Result<Checked, NoMemory>
    requires items { IsBuildable items.now limits.now }
    requires tree { IsTree items.now }
    requires progress { IsProgress items.now progress.old }
    requires folder { IsFolderNext items.now progress.old }
    ensures { Steps items.now limits.now.content progress.old progress.new result }
{
    let folder = &items[progress.at - 1].path;
    let start = first_in(items, &progress.made, folder);
    let object = tree_object(
        alloc,
        &entries_of(alloc, items, &progress.made[start..], folder)?,
        limits,
    )?;
    progress.made.truncate(start);
    progress.half = Some(object.name().csum);
    progress.done += 1;
    Ok(object)
}

/// The attributes of the folder before `at`, whose entries were given.
pub(crate) fn give_attributes(
    alloc: Global,
    items: &[TreeItem],
    limits: &Limits,
    progress: &mut Progress,
) -> Result<Checked, NoMemory>
    requires items { IsBuildable items.now limits.now }
    requires progress { IsProgress items.now progress.old }
    requires half { IsHalfNext progress.old }
    ensures { Steps items.now limits.now.content progress.old progress.new result }
{
    let Some(tree) = progress.half else {
        unreachable!()
    };
    let at = progress.at - 1;
    let object = meta_object(alloc, &items[at].meta, limits)?;
    let sums = Sums::Folder {
        tree,
        meta: object.name().csum,
    };
    progress.made.push(Done { at, sums })?;
    progress.at = at;
    progress.half = None;
    progress.done += 1;
    Ok(object)
}

fn tree_object(alloc: Global, entries: &DirTree, limits: &Limits) -> Result<Checked, NoMemory>
    requires { IsSmall (tree_form (record { files = entries.now.files; folders = entries.now.folders })) }
    ensures object { IfOk result (λ c. object_of c ≡ tree_object (bytes_of (tree_form (record { files = entries.now.files; folders = entries.now.folders })))) }
    ensures limit { IfOk result (λ c. c.limit ≡ limits.now.content) }
{
    match Checked::of_dirtree(alloc, entries, limits) {
        Ok(object) => Ok(object),
        Err(MakeFault::TooLarge(_)) => unreachable!(),
        Err(MakeFault::NoMemory) => Err(NoMemory),
    }
}

fn meta_object(alloc: Global, meta: &Meta, limits: &Limits) -> Result<Checked, NoMemory>
    requires mode { IsFolderMode meta.now.mode }
    requires small { IsSmall (dirmeta_form meta.now) }
    ensures object { IfOk result (λ c. object_of c ≡ meta_object (meta_bytes meta.now)) }
    ensures limit { IfOk result (λ c. c.limit ≡ limits.now.content) }
{
    let attributes = DirMeta { meta: meta.copy()? };
    match Checked::of_dirmeta(alloc, &attributes, limits) {
        Ok(object) => Ok(object),
        Err(MakeFault::TooLarge(_)) => unreachable!(),
        Err(MakeFault::NoMemory) => Err(NoMemory),
    }
}
