//! One file of the root folder.

ghost use Rattle.std.specs.Prelude.{◌≡◌, ◌∷◌, [], false, Some, IfOk, IfSome, OnOk};
ghost use Rattle.ost_types.specs.Path.{under};
ghost use Rattle.fs_trait.specs.View.{View};
ghost use Rattle.fs_trait.specs.Image.{is_folder, EachImage, Told};
ghost use Rattle.fs_trait.specs.Seen.{shows};
ghost use Rattle.fs_trait.specs.Change.{Writes};
ghost use Rattle.staged_file.specs.Steps.{IsFileWith, Needs};
ghost use Rattle.staged_file.specs.Whole.{MayBegin, Written};
ghost use Rattle.staged_file_check.specs.Files.{file_meta};

use fs_trait::{Fs, FsErr, Need};
use ost_types::{Bytes, FsPath, Meta, Name, NoMemory, Xattrs};
use staged_file::{Phase, Plan, StagedFile};
use std::alloc::Global;

fn file_meta(alloc: Global) -> Meta
    ensures { result ≡ file_meta }
{
    Meta {
        uid: 0,
        gid: 0,
        mode: 0o100644,
        xattrs: Xattrs::new(alloc),
    }
}

/// A name in the root folder.
fn at_root(alloc: Global, name: &[u8]) -> Result<Option<FsPath>, NoMemory>
    ensures { IfOk result (λ p. IfSome p (λ p. p ≡ under [] name.now)) }
{
    let root = FsPath::root(alloc);
    let Some(name) = Name::parse(alloc, name)? else {
        return Ok(None);
    };
    if !root.can_hold(&name) {
        return Ok(None);
    }
    Ok(Some(root.child(&name)?))
}

/// The file at `/a`, staged at `/s`.
fn plan(alloc: Global, bytes: &[u8]) -> Result<Option<Plan>, NoMemory>
    ensures { IfOk result (λ p. IfSome p (λ p. (p.stage ≡ under [] (115 ∷ [])) × (p.folder ≡ []) × (p.at ≡ under [] (97 ∷ [])) × (p.meta ≡ file_meta) × (p.bytes ≡ bytes.now))) }
{
    let (Some(stage), Some(at)) = (at_root(alloc, b"s")?, at_root(alloc, b"a")?) else {
        return Ok(None);
    };
    Ok(Some(Plan {
        stage,
        folder: FsPath::root(alloc),
        at,
        meta: file_meta(alloc),
        bytes: Bytes::from_slice(alloc, bytes)?,
        lock: Need::RefLock,
    }))
}

/// Puts a file with these bytes at `/a`, staged at `/s`.
pub fn put<F: Fs>(fs: &mut F, alloc: Global, bytes: &[u8]) -> Result<(), FsErr>
    requires { (v : View) → F.view fs.old ≡ Some v → is_folder (v.now.at (under [] (115 ∷ []))) ≡ false }
    ensures leaf { (v : View) → F.view fs.new ≡ Some v → is_folder (v.now.at (under [] (115 ∷ []))) ≡ false }
    ensures done { (v : View) → F.view fs.old ≡ Some v → OnOk result (Told (F.view fs.new) (λ w. EachImage w (λ d. IsFileWith file_meta bytes.now (shows d (under [] (97 ∷ [])))))) }
{
    match plan(alloc, bytes)? {
        Some(plan) => sync_and_put(fs, StagedFile::new(plan)),
        None => Err(FsErr::NoMemory),
    }
}

fn sync_and_put<F: Fs>(fs: &mut F, task: StagedFile) -> Result<(), FsErr>
    requires { (v : View) → F.view fs.old ≡ Some v → MayBegin task v.now }
    ensures writes { (v : View) → F.view fs.old ≡ Some v → Told (F.view fs.new) (λ w. Writes (Written task) v w) }
    ensures done { (v : View) → F.view fs.old ≡ Some v → OnOk result (Told (F.view fs.new) (λ w. EachImage w (λ d. IsFileWith task.meta task.bytes (shows d task.at)))) }
{
    fs.sync_all()?;
    step_on(fs, task)
}

fn step_on<F: Fs>(fs: &mut F, task: StagedFile) -> Result<(), FsErr>
    requires { (v : View) → F.view fs.old ≡ Some v → Needs task v }
    ensures writes { (v : View) → F.view fs.old ≡ Some v → Told (F.view fs.new) (λ w. Writes (Written task) v w) }
    ensures done { (v : View) → F.view fs.old ≡ Some v → OnOk result (Told (F.view fs.new) (λ w. EachImage w (λ d. IsFileWith task.meta task.bytes (shows d task.at)))) }
{
    let mut task = task;
    while task.phase() != Phase::Ended {
        task.step(fs)?;
    }
    Ok(())
}
