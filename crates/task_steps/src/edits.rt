//! Edits of paths in an `etc`.
ghost use Rattle.std.specs.Prelude.{◌≡◌, ◌⊎◌, ◌∷◌, [], IfOk, codes};
ghost use Rattle.host_edit.specs.Edit.{IsFit, IsFitLeaf, path_of};

use crate::bench::Bench;
use crate::stop::Stop;
use crate::trees::child_of;
use disk_fixtures::{file_meta, folder_meta};
use fs_trait::Fs;
use host_edit::{Edit, EditTask, NewLeaf};
use ost_types::{Bytes, FsPath, Text, Xattrs};
use std::alloc::Global;

/// A folder is made, a file put in it and a link in the file's place, and then all is removed from within.
pub fn edit_etc<F: Fs>(bench: &mut Bench<F>) -> Result<(), Stop> {
    bench.make_folder(b"/etc")?;
    make_folder(bench)?;
    let leaf = file(bench.alloc)?;
    put(bench, "a file that is put in an etc", leaf)?;
    let leaf = link(bench.alloc)?;
    put(bench, "a link that takes its place", leaf)?;
    let path = outer(bench.alloc)?;
    remove(bench, "a folder of an etc that has names", path)?;
    let path = inner(bench.alloc)?;
    remove(bench, "a leaf of an etc that goes", path)?;
    let path = outer(bench.alloc)?;
    remove(bench, "a folder of an etc that goes", path)
}

fn make_folder<F: Fs>(bench: &mut Bench<F>) -> Result<(), Stop> {
    let path = outer(bench.alloc)?;
    let meta = folder_meta(bench.alloc, 0);
    step_edit(
        bench,
        "a folder that is made in an etc",
        Edit::MakeFolder { path, meta },
    )
}

fn put<F: Fs>(bench: &mut Bench<F>, name: &str, leaf: NewLeaf) -> Result<(), Stop>
    requires { IsFitLeaf leaf }
{
    let path = inner(bench.alloc)?;
    step_edit(bench, name, Edit::Put { path, leaf })
}

fn remove<F: Fs>(bench: &mut Bench<F>, name: &str, path: FsPath) -> Result<(), Stop>
    requires { (path ≡ codes "a" ∷ []) ⊎ (path ≡ codes "a" ∷ codes "b" ∷ []) }
{
    step_edit(bench, name, Edit::Remove { path })
}

fn step_edit<F: Fs>(bench: &mut Bench<F>, name: &str, edit: Edit) -> Result<(), Stop>
    requires fit { IsFit edit }
    requires path { (path_of edit ≡ codes "a" ∷ []) ⊎ (path_of edit ≡ codes "a" ∷ codes "b" ∷ []) }
{
    let root = FsPath::root(bench.alloc);
    let stage = child_of(bench.alloc, &root, b"stage")?;
    let etc = child_of(bench.alloc, &root, b"etc")?;
    let mut task = EditTask::new(bench.alloc, stage, &etc, edit)?;
    bench.measure(name, &mut task)
}

fn outer(alloc: Global) -> Result<FsPath, Stop>
    ensures { IfOk result (λ p. p ≡ codes "a" ∷ []) }
{
    child_of(alloc, &FsPath::root(alloc), b"a")
}

fn inner(alloc: Global) -> Result<FsPath, Stop>
    ensures { IfOk result (λ p. p ≡ codes "a" ∷ codes "b" ∷ []) }
{
    child_of(alloc, &outer(alloc)?, b"b")
}

fn file(alloc: Global) -> Result<NewLeaf, Stop>
    ensures { IfOk result IsFitLeaf }
{
    Ok(NewLeaf::File {
        meta: file_meta(alloc),
        bytes: Bytes::from_slice(alloc, b"one line\n")?,
    })
}

fn link(alloc: Global) -> Result<NewLeaf, Stop>
    ensures { IfOk result IsFitLeaf }
{
    let target = Text::parse(alloc, b"usr/bin")?.ok_or(Stop::Unmade)?;
    if target.as_slice().is_empty() {
        return Err(Stop::Unmade);
    }
    Ok(NewLeaf::Link {
        uid: 0,
        gid: 0,
        xattrs: Xattrs::new(alloc),
        target,
    })
}
