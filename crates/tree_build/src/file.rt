//! The object of a file.

ghost use Rattle.std.specs.Prelude.{◌≡◌, ◌≢◌, ◌<◌, ◌-◌, ◌^◌, ◌++◌, Some, None, IfOk, All, drop, slice_index_or, replicate, length};
ghost use Rattle.ost_types.specs.declared.limits.Limits.{Limits};
ghost use Rattle.ost_types.specs.declared.object.Kind.TheVariants as kinds;
ghost use Rattle.ost_forms.specs.declared.tree_item.TreeItem.{TreeItem};
ghost use Rattle.ost_forms.specs.Stream.{FitsMode, bytes_of, content_form};
ghost use Rattle.ost_objects.specs.Object.{HasForm};
ghost use Rattle.tree_build.specs.Items.{AreItems, body_of};
ghost use Rattle.tree_build.specs.Objects.{file_bytes, file_object};
ghost use Rattle.tree_build.specs.Makeable.{AreMakeable, IsSmallFile};
ghost use Rattle.tree_build.specs.Building.{IsBuildable, IsProgress, IsFileNext, Steps, object_of};

use crate::build::numbers_of;
use crate::progress::{Done, Progress};
use crate::sums::Sums;
use ost_forms::{Body, BodySpec, Content, ObjFault, TreeItem, sum_of, test_content, write_content};
use ost_objects::Checked;
use ost_types::{Bytes, Kind, Limits, Meta, NoMemory, ObjName, TryCopy};
use std::alloc::Global;

/// The object of the item before `at`.
pub(crate) fn give_file(
    alloc: Global,
    items: &[TreeItem],
    limits: &Limits,
    progress: &mut Progress,
) -> Result<Checked, NoMemory>
    requires items { IsBuildable items.now limits.now }
    requires progress { IsProgress items.now progress.old }
    requires file { IsFileNext items.now progress.old }
    ensures { Steps items.now limits.now.content progress.old progress.new result }
{
    let at = progress.at - 1;
    let item = &items[at];
    let object = match &item.body {
        Some(body) => file_object(alloc, &item.meta, body, limits)?,
        None => unreachable!(),
    };
    progress.made.push(Done {
        at,
        sums: Sums::File(object.name().csum),
    })?;
    progress.at = at;
    progress.done += 1;
    Ok(object)
}

fn file_object(
    alloc: Global,
    meta: &Meta,
    body: &BodySpec,
    limits: &Limits,
) -> Result<Checked, NoMemory>
    requires mode { FitsMode meta.now.mode (body_of body.now) }
    requires small { IsSmallFile limits.now.content meta.now (body_of body.now) }
    ensures object { IfOk result (λ c. object_of c ≡ file_object (file_bytes meta.now body.now)) }
    ensures limit { IfOk result (λ c. c.limit ≡ limits.now.content) }
{
    numbers_of(meta);
    let bytes = stream_of(alloc, meta, body)?;
    match test_content(alloc, bytes.as_slice(), limits) {
        Ok(()) => Ok(file_named(bytes, limits)),
        Err(ObjFault::NoMemory) => Err(NoMemory),
        Err(ObjFault::TooLarge(_)) => unreachable!(),
        Err(ObjFault::NotNormal) => unreachable!(),
        Err(ObjFault::BadMode) => unreachable!(),
        Err(ObjFault::BadSumLength) => unreachable!(),
        Err(ObjFault::BadName) => unreachable!(),
        Err(ObjFault::NotSorted) => unreachable!(),
    }
}

fn file_named(bytes: Bytes, limits: &Limits) -> Checked
    requires { HasForm kinds.File limits.now.content bytes }
    ensures object { object_of result ≡ file_object bytes }
    ensures limit { result.limit ≡ limits.now.content }
{
    let csum = sum_of(bytes.as_slice());
    Checked {
        name: ObjName {
            csum,
            kind: Kind::File,
        },
        bytes,
        limit: limits.content,
    }
}

/// The content stream of the file. The content is made at its end, so that no other copy of it is held.
fn stream_of(alloc: Global, meta: &Meta, body: &BodySpec) -> Result<Bytes, NoMemory>
    requires mode { FitsMode meta.now.mode (body_of body.now) }
    requires few { length (bytes_of (body_of body.now)) < 2 ^ 62 }
    ensures { IfOk result (λ b. content_form meta.now (body_of body.now) ≡ Some b) }
{
    match body {
        BodySpec::Given(given) => {
            let mut bytes = written(alloc, meta, Body::Regular(Bytes::new(alloc)))?;
            bytes.append(given.as_slice())?;
            Ok(bytes)
        }
        BodySpec::Fill { len, byte } => {
            let bytes = written(alloc, meta, Body::Regular(Bytes::new(alloc)))?;
            filled(bytes, *len, *byte)
        }
        BodySpec::Target(target) => written(alloc, meta, Body::Symlink(target.copy()?)),
    }
}

fn written(alloc: Global, meta: &Meta, body: Body) -> Result<Bytes, NoMemory>
    requires { FitsMode meta.now.mode body }
    ensures { IfOk result (λ b. content_form meta.now body ≡ Some b) }
{
    let meta = meta.copy()?;
    write_content(alloc, &Content { meta, body })
}

/// The byte so many times behind the others.
fn filled(bytes: Bytes, len: u64, byte: u8) -> Result<Bytes, NoMemory>
    requires { len < 2 ^ 62 }
    ensures { IfOk result (λ b. b ≡ bytes ++ replicate len byte) }
{
    let mut bytes = bytes.into_vec();
    let whole = bytes.len() + len as usize;
    bytes.resize(whole, byte)?;
    Ok(Bytes::from_vec(bytes))
}
