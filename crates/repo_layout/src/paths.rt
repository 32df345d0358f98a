//! Where things stand in a repository.
ghost use Rattle.std.specs.Prelude.{◌≡◌, ◌<◌, IfOk, Ok};
ghost use Rattle.ost_types.specs.Parse.{IsParsed};
ghost use Rattle.repo_layout.specs.Paths.{config_path, deploy_path, ending, mark_path, object_path, objects_folder_path, ref_path, stage_path};

use crate::known::known_path;
use crate::{OsName, RefName};
use ost_types::{Bytes, Csum, FsPath, Kind, NoMemory, ObjName};
use std::alloc::Global;

/// Where the repository's configuration stands: `/ostree/repo/config`.
pub fn config_path(alloc: Global) -> Result<FsPath, NoMemory>
    ensures { IfOk result (λ p. p ≡ config_path) }
{
    known_path(alloc, b"/ostree/repo/config")
}

/// Where the ref stands: `/ostree/repo/refs/heads/` and its name.
pub fn ref_path(alloc: Global, name: &RefName) -> Result<FsPath, NoMemory>
    ensures { IfOk result (λ p. p ≡ ref_path name.now) }
{
    let mut text = Bytes::from_slice(alloc, b"/ostree/repo/refs/heads/")?;
    text.append(name.as_slice())?;
    known_path(alloc, text.as_slice())
}

/// Where the objects stand whose sums have these first two digits: `/ostree/repo/objects/<2 digits>`.
pub fn objects_folder_path(alloc: Global, csum: &Csum) -> Result<FsPath, NoMemory>
    ensures { IfOk result (λ p. p ≡ objects_folder_path csum.now) }
{
    let mut text = Bytes::from_slice(alloc, b"/ostree/repo/objects/")?;
    text.append(&csum.to_hex()[..2])?;
    known_path(alloc, text.as_slice())
}

/// Where the object stands: `/ostree/repo/objects/<2 digits>/<62 digits>` and the ending of its kind.
pub fn object_path(alloc: Global, name: &ObjName) -> Result<FsPath, NoMemory>
    ensures { IfOk result (λ p. p ≡ object_path name.now.kind name.now.csum) }
{
    known_path(alloc, object_text(alloc, name)?.as_slice())
}

fn object_text(alloc: Global, name: &ObjName) -> Result<Bytes, NoMemory>
    ensures { IfOk result (λ t. IsParsed t (Ok (object_path name.now.kind name.now.csum))) }
{
    let digits = name.csum.to_hex();
    let (folder, file) = digits.split_at(2);
    let mut text = Bytes::from_slice(alloc, b"/ostree/repo/objects/")?;
    text.append(folder)?;
    text.push(b'/')?;
    text.append(file)?;
    text.append(ending(name.kind))?;
    Ok(text)
}

fn ending(kind: Kind) -> &'static [u8]
    ensures { result.now ≡ ending kind }
{
    match kind {
        Kind::Commit => b".commit",
        Kind::DirTree => b".dirtree",
        Kind::DirMeta => b".dirmeta",
        Kind::File => b".file",
    }
}

/// Where the mark stands that says that objects of a commit may be missing: `/ostree/repo/state/<commit>.commitpartial`.
pub fn mark_path(alloc: Global, commit: &Csum) -> Result<FsPath, NoMemory>
    ensures { IfOk result (λ p. p ≡ mark_path commit.now) }
{
    known_path(alloc, mark_text(alloc, commit)?.as_slice())
}

fn mark_text(alloc: Global, commit: &Csum) -> Result<Bytes, NoMemory>
    ensures { IfOk result (λ t. IsParsed t (Ok (mark_path commit.now))) }
{
    let mut text = Bytes::from_slice(alloc, b"/ostree/repo/state/")?;
    text.append(&commit.to_hex())?;
    text.append(b".commitpartial")?;
    Ok(text)
}

/// Where one of the 16 actors makes its files before they get their names: `/ostree/repo/tmp/actor-<n>`, in decimal.
pub fn stage_path(alloc: Global, actor: u8) -> Result<FsPath, NoMemory>
    requires { actor < 16 }
    ensures { IfOk result (λ p. p ≡ stage_path actor) }
{
    let text = format!(in alloc; "/ostree/repo/tmp/actor-{actor}")?;
    known_path(alloc, text.as_bytes())
}

/// Where a deployment's files stand: `/ostree/deploy/<stateroot>/deploy/<commit>.<serial>`, the serial in decimal.
pub fn deploy_path(
    alloc: Global,
    os: &OsName,
    commit: &Csum,
    serial: u32,
) -> Result<FsPath, NoMemory>
    ensures { IfOk result (λ p. p ≡ deploy_path os.now commit.now serial) }
{
    known_path(alloc, deploy_text(alloc, os, commit, serial)?.as_slice())
}

fn deploy_text(alloc: Global, os: &OsName, commit: &Csum, serial: u32) -> Result<Bytes, NoMemory>
    ensures { IfOk result (λ t. IsParsed t (Ok (deploy_path os.now commit.now serial))) }
{
    let mut text = Bytes::from_slice(alloc, b"/ostree/deploy/")?;
    text.append(os.as_slice())?;
    text.append(b"/deploy/")?;
    text.append(&commit.to_hex())?;
    text.push(b'.')?;
    text.append(serial.to_string(alloc)?.as_bytes())?;
    Ok(text)
}
