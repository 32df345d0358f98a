//! Checked objects of values.

ghost use Rattle.std.specs.Prelude.{◌≡◌, ◌≤◌, ◌<◌, ◌^◌, ◌⊎◌, length};
ghost use Rattle.ost_types.specs.declared.object.Kind.TheVariants as kinds;
ghost use Rattle.ost_forms.specs.DirMeta.{object_limit, dirmeta_form};
ghost use Rattle.ost_forms.specs.DirTree.{tree_form, HasSums, HasNames, IsSorted};
ghost use Rattle.ost_forms.specs.Stream.{content_form};
ghost use Rattle.ost_forms.specs.Commit.{commit_form, parent_bytes, HasCommitSums};
ghost use Rattle.ost_forms.specs.CommitRow.{parts_of};
ghost use Rattle.ost_objects.specs.Object.{HasForm};
ghost use Rattle.ost_objects.specs.Checks.{Makes, Names};

use crate::checked::Checked;
use crate::fault::MakeFault;
use ost_forms::{
    Commit, Content, DirMeta, DirTree, OBJECT_LIMIT, ObjFault, sum_of, test_content, write_commit,
    write_content, write_dirmeta, write_dirtree,
};
use ost_types::{Bytes, Csum, Kind, Limits, Meta, ObjName};
use std::alloc::Global;

impl Checked {
    /// The object of a commit.
    pub fn of_commit(alloc: Global, value: &Commit, limits: &Limits) -> Result<Checked, MakeFault>
        ensures { Makes kinds.Commit limits.now.content (commit_form (parts_of value.now)) result }
    {
        commit_sums(value);
        let bytes = write_commit(alloc, value)?;
        named(Kind::Commit, bytes, limits)
    }

    /// The object of a folder's entries.
    pub fn of_dirtree(alloc: Global, value: &DirTree, limits: &Limits) -> Result<Checked, MakeFault>
        ensures { Makes kinds.DirTree limits.now.content (tree_form (record { files = value.now.files; folders = value.now.folders })) result }
    {
        tree_rules(value);
        let bytes = write_dirtree(alloc, value)?;
        named(Kind::DirTree, bytes, limits)
    }

    /// The object of a folder's attributes.
    pub fn of_dirmeta(alloc: Global, value: &DirMeta, limits: &Limits) -> Result<Checked, MakeFault>
        ensures { Makes kinds.DirMeta limits.now.content (dirmeta_form value.now.meta) result }
    {
        meta_numbers(&value.meta);
        let bytes = write_dirmeta(alloc, value)?;
        named(Kind::DirMeta, bytes, limits)
    }

    /// The object of a file, which is its content stream.
    pub fn of_content(alloc: Global, value: &Content, limits: &Limits) -> Result<Checked, MakeFault>
        ensures { Makes kinds.File limits.now.content (content_form value.now.meta value.now.body) result }
    {
        meta_numbers(&value.meta);
        let bytes = write_content(alloc, value)?;
        match test_content(alloc, bytes.as_slice(), limits) {
            Ok(()) => Ok(checked_of(Kind::File, bytes, limits)),
            Err(ObjFault::TooLarge(count)) => Err(MakeFault::TooLarge(count)),
            Err(ObjFault::NoMemory) => Err(MakeFault::NoMemory),
            Err(ObjFault::NotNormal) => unreachable!(),
            Err(ObjFault::BadMode) => unreachable!(),
            Err(ObjFault::BadSumLength) => unreachable!(),
            Err(ObjFault::BadName) => unreachable!(),
            Err(ObjFault::NotSorted) => unreachable!(),
        }
    }
}

/// The numbers of attributes have 32 bits.
pub(crate) fn meta_numbers(meta: &Meta)
    ensures uid { meta.now.uid < 2 ^ 32 }
    ensures gid { meta.now.gid < 2 ^ 32 }
    ensures mode { meta.now.mode < 2 ^ 32 }
{
    let _uid = meta.uid;
    let _gid = meta.gid;
    let _mode = meta.mode;
}

/// The sums of a commit are sums, and its time has 64 bits.
pub(crate) fn commit_sums(value: &Commit)
    ensures sums { HasCommitSums (parts_of value.now) }
    ensures time { value.now.time < 2 ^ 64 }
{
    let _time = value.time;
    parent_sum(&value.parent);
    let _tree = value.tree.as_slice();
    let _meta = value.meta.as_slice();
}

fn parent_sum(parent: &Option<Csum>)
    ensures { (length (parent_bytes parent.now) ≡ 0) ⊎ (length (parent_bytes parent.now) ≡ 32) }
{
    if let Some(sum) = parent {
        let _sum = sum.as_slice();
    }
}

/// Entries keep the rules of a folder's object.
pub(crate) fn tree_rules(value: &DirTree)
    ensures sums { HasSums (record { files = value.now.files; folders = value.now.folders }) }
    ensures names { HasNames (record { files = value.now.files; folders = value.now.folders }) }
    ensures sorted { IsSorted (record { files = value.now.files; folders = value.now.folders }) }
{
    let _files = value.files.as_slice();
    let _folders = value.folders.as_slice();
}

/// The object of these bytes, unless they are too many.
fn named(kind: Kind, bytes: Bytes, limits: &Limits) -> Result<Checked, MakeFault>
    requires { length bytes ≤ object_limit → HasForm kind limits.now.content bytes }
    ensures { Names kind limits.now.content bytes result }
{
    let count = bytes.as_slice().len();
    if count > OBJECT_LIMIT {
        return Err(MakeFault::TooLarge(count as u64));
    }
    Ok(checked_of(kind, bytes, limits))
}

fn checked_of(kind: Kind, bytes: Bytes, limits: &Limits) -> Checked
    requires { HasForm kind limits.now.content bytes }
    ensures kind { result.name.kind ≡ kind }
    ensures bytes { result.bytes ≡ bytes }
    ensures limit { result.limit ≡ limits.now.content }
{
    let csum = sum_of(bytes.as_slice());
    Checked {
        name: ObjName { csum, kind },
        bytes,
        limit: limits.content,
    }
}
