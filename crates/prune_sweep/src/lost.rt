//! Marks whose commits go, or are gone.
ghost use Rattle.std.specs.Prelude.{◌≡◌, ◌≤◌, ◌++◌, ◌↔◌, ℕ, List, [], Some, IfOk, IfErr, IfSome, IsTrue, codes};
ghost use Rattle.ost_types.specs.Csum.{hex_of};
ghost use Rattle.ost_types.specs.declared.object.Kind.TheVariants as kinds;
ghost use Rattle.fs_trait.specs.View.{View};
ghost use Rattle.fs_trait.specs.Effect.{HasCause, IsQuiet, OfFinding, OfNone};
ghost use Rattle.repo_layout.specs.RefFile.{IsSum};
ghost use Rattle.obj_store.specs.Listing.{IsGone};
ghost use Rattle.prune_mark.specs.Flags.{AreAscending, IsMarked};
ghost use Rattle.prune_sweep.specs.Lost.{AreLost, AreLostOf, IsLost};

use fs_trait::{Fs, FsErr};
use ost_types::{Csum, FsPath, Kind, Names, NoMemory, ObjName};
use prune_mark::Marking;
use repo_layout::{Folder, folder_path, mark_path};
use std::alloc::Global;

/// Where marks stand whose commits aren't marked to stay and that nobody has pinned.
pub(crate) fn lost_marks<F: Fs>(
    alloc: Global,
    fs: &mut F,
    marking: &Marking,
    pins: &[ObjName],
) -> Result<Vec<FsPath>, FsErr>
    ensures told { (v : View) → F.view fs.old ≡ Some v → AreAscending marking.now.names → IfOk result (λ marks. AreLost v.now (IsMarked marking.now.names marking.now.flags) pins.now marks.items) }
    ensures named { IfErr result OfNone }
    ensures quiet { IsQuiet (F.clock fs.old) (F.clock fs.new) (F.was fs.old) (F.was fs.new) (F.view fs.old) (F.view fs.new) }
    ensures keeps_room { F.spare fs.old ≤ F.spare fs.new }
    ensures cause { HasCause (F.faults fs.old) (F.faults fs.new) result }
{
    let folder = folder_path(alloc, Folder::State)?;
    match fs.list(&folder) {
        Ok(names) => Ok(marks_of(alloc, &names, marking, pins)?),
        Err(refusal) => unlisted(alloc, refusal),
    }
}

/// No marks, where no folder is there.
fn unlisted(alloc: Global, refusal: FsErr) -> Result<Vec<FsPath>, FsErr>
    requires { OfFinding refusal }
    ensures none { IfOk result (λ marks. (marks.items ≡ []) × IsGone refusal) }
    ensures err { IfErr result (λ e. (e ≡ refusal) × OfNone e) }
{
    match refusal {
        FsErr::Missing => Ok(Vec::new(alloc)),
        FsErr::NotFolder => Ok(Vec::new(alloc)),
        refusal => Err(refusal),
    }
}

/// Those of the names in the folder of marks.
fn marks_of(
    alloc: Global,
    names: &Names,
    marking: &Marking,
    pins: &[ObjName],
) -> Result<Vec<FsPath>, NoMemory>
    ensures { AreAscending marking.now.names → IfOk result (λ marks. AreLostOf names.now (IsMarked marking.now.names marking.now.flags) pins.now marks.items) }
{
    let mut marks = Vec::new(alloc);
    for name in names.as_slice() {
        if let Some(commit) = lost_commit(name.as_slice(), marking, pins) {
            marks.push(mark_path(alloc, &commit)?)?;
        }
    }
    Ok(marks)
}

/// The commit whose mark has this name, if it is one that goes.
fn lost_commit(name: &[u8], marking: &Marking, pins: &[ObjName]) -> Option<Csum>
    ensures some { AreAscending marking.now.names → IfSome result (λ c. (name.now ≡ hex_of c ++ codes ".commitpartial") × IsLost (IsMarked marking.now.names marking.now.flags) pins.now c) }
    ensures all { AreAscending marking.now.names → (commit : List ℕ) → name.now ≡ hex_of commit ++ codes ".commitpartial" → IsLost (IsMarked marking.now.names marking.now.flags) pins.now commit → result ≡ Some commit }
{
    let commit = commit_of(name)?;
    if is_lost(&commit, marking, pins) {
        Some(commit)
    } else {
        None
    }
}

fn is_lost(commit: &Csum, marking: &Marking, pins: &[ObjName]) -> bool
    requires { IsSum commit.now }
    ensures { AreAscending marking.now.names → IsTrue result ↔ IsLost (IsMarked marking.now.names marking.now.flags) pins.now commit.now }
{
    let name = ObjName {
        csum: *commit,
        kind: Kind::Commit,
    };
    !marking.marked(&name) && !pins.contains(&name)
}

/// The commit whose mark has this name.
fn commit_of(name: &[u8]) -> Option<Csum>
    ensures sum { IfSome result IsSum }
    ensures named { IfSome result (λ c. name.now ≡ hex_of c ++ codes ".commitpartial") }
    ensures all { (commit : List ℕ) → IsSum commit → name.now ≡ hex_of commit ++ codes ".commitpartial" → result ≡ Some commit }
{
    let digits = name.strip_suffix(b".commitpartial".as_slice())?;
    Csum::from_hex(digits)
}
