//! What stands at a path, as far as it makes a difference to edits.
ghost use Rattle.std.specs.Prelude.{◌≡◌, ◌≤◌, Some, IfOk, IfErr};
ghost use Rattle.ost_types.specs.Path.{Name, under};
ghost use Rattle.fs_trait.specs.View.{View};
ghost use Rattle.fs_trait.specs.Effect.{HasCause, IsQuiet, OfFinding, OfNone};
ghost use Rattle.ref_room.specs.Stands.{stands};
ghost use Rattle.ref_room.specs.declared.stands.Stands.TheVariants as stand;
ghost use Rattle.host_edit.specs.There.{IsThere};

use fs_trait::{Fs, FsErr};
use ost_types::FsPath;
use ref_room::{Stands, look_at};

/// What stands at a path.
#[derive(Clone, Copy, Debug, PartialEq, Eq)]
pub(crate) enum There {
    /// Nothing, nor a folder that it could be in.
    NoFolder,
    /// Nothing, in a folder.
    Vacant,
    Leaf,
    /// A folder without names.
    EmptyFolder,
    /// A folder with names.
    FullFolder,
}

/// Looks at a path in a folder: by two reading calls at most.
pub(crate) fn look<F: Fs>(fs: &mut F, folder: &FsPath, at: &FsPath) -> Result<There, FsErr>
    requires { (x : Name) × (at.now ≡ under folder.now x) }
    ensures told { (v : View) → F.view fs.old ≡ Some v → IfOk result (IsThere v.now at.now) }
    ensures fails { (v : View) → F.view fs.old ≡ Some v → IfErr result OfNone }
    ensures named { IfErr result OfFinding }
    ensures quiet { IsQuiet (F.clock fs.old) (F.clock fs.new) (F.was fs.old) (F.was fs.new) (F.view fs.old) (F.view fs.new) }
    ensures room { F.spare fs.old ≤ F.spare fs.new }
    ensures cause { HasCause (F.faults fs.old) (F.faults fs.new) result }
{
    match look_at(fs, at)? {
        Stands::Nothing => look_above(fs, folder, at),
        Stands::Leaf => Ok(There::Leaf),
        Stands::Folder => look_inside(fs, at),
    }
}

// looks at the folder of a path where nothing stands
fn look_above<F: Fs>(fs: &mut F, folder: &FsPath, at: &FsPath) -> Result<There, FsErr>
    requires inside { (x : Name) × (at.now ≡ under folder.now x) }
    requires nothing { (v : View) → F.view fs.old ≡ Some v → stands (v.now.at at.now) ≡ stand.Nothing }
    ensures told { (v : View) → F.view fs.old ≡ Some v → IfOk result (IsThere v.now at.now) }
    ensures fails { (v : View) → F.view fs.old ≡ Some v → IfErr result OfNone }
    ensures named { IfErr result OfFinding }
    ensures quiet { IsQuiet (F.clock fs.old) (F.clock fs.new) (F.was fs.old) (F.was fs.new) (F.view fs.old) (F.view fs.new) }
    ensures room { F.spare fs.old ≤ F.spare fs.new }
    ensures cause { HasCause (F.faults fs.old) (F.faults fs.new) result }
{
    match look_at(fs, folder)? {
        Stands::Folder => Ok(There::Vacant),
        Stands::Nothing => Ok(There::NoFolder),
        Stands::Leaf => Ok(There::NoFolder),
    }
}

// looks at the names of the folder that stands there
fn look_inside<F: Fs>(fs: &mut F, at: &FsPath) -> Result<There, FsErr>
    requires { (v : View) → F.view fs.old ≡ Some v → stands (v.now.at at.now) ≡ stand.Folder }
    ensures told { (v : View) → F.view fs.old ≡ Some v → IfOk result (IsThere v.now at.now) }
    ensures fails { (v : View) → F.view fs.old ≡ Some v → IfErr result OfNone }
    ensures named { IfErr result OfFinding }
    ensures quiet { IsQuiet (F.clock fs.old) (F.clock fs.new) (F.was fs.old) (F.was fs.new) (F.view fs.old) (F.view fs.new) }
    ensures room { F.spare fs.old ≤ F.spare fs.new }
    ensures cause { HasCause (F.faults fs.old) (F.faults fs.new) result }
{
    let names = fs.list(at)?;
    if names.as_slice().is_empty() {
        Ok(There::EmptyFolder)
    } else {
        Ok(There::FullFolder)
    }
}
