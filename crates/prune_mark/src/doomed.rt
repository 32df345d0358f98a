//! The names without a mark.
ghost use Rattle.std.specs.Prelude.{◌≡◌, ◌<◌, ◌↔◌, length, slice_index_or, Contains, IsTrue, IfOk};
ghost use Rattle.ost_types.specs.declared.object.ObjName.{ObjName as Name};
ghost use Rattle.prune_mark.specs.Flags.{AreAscending, IsDown, IsMarked};
ghost use Rattle.prune_mark.specs.Doomed.{AreDown, AreUnmarked, IsOfKind};

use ost_types::{Kind, NoMemory, ObjName};
use std::alloc::Global;

/// All names whose flags are down, the commits first, and then the others; each part in order.
pub fn doomed_of(alloc: Global, names: &[ObjName], flags: &[bool]) -> Result<Vec<ObjName>, NoMemory>
    requires { length flags.now ≡ length names.now }
    ensures order { IfOk result (λ v. AreUnmarked names.now flags.now v.items) }
    ensures exact { IfOk result (λ v. AreAscending names.now → (o : Name) → Contains v.items o ↔ (Contains names.now o × (IsMarked names.now flags.now o → ⊥))) }
{
    let mut all = down(alloc, names, flags, true)?;
    let mut others = down(alloc, names, flags, false)?;
    all.append(&mut others)?;
    Ok(all)
}

/// The commits whose flags are down, or the other objects.
fn down(
    alloc: Global,
    names: &[ObjName],
    flags: &[bool],
    commits: bool,
) -> Result<Vec<ObjName>, NoMemory>
    requires { length flags.now ≡ length names.now }
    ensures { IfOk result (λ v. AreDown names.now flags.now commits (length names.now) v.items) }
{
    let mut down = Vec::new(alloc);
    for at in 0..names.len() {
        if is_wanted(names, flags, at, commits) {
            down.push(names[at])?;
        }
    }
    Ok(down)
}

/// Whether the flag at this place is down, and the name there a commit's, or another's.
fn is_wanted(names: &[ObjName], flags: &[bool], at: usize, commits: bool) -> bool
    requires within { at < length names.now }
    requires long { length flags.now ≡ length names.now }
    ensures { (o : Name) → slice_index_or names.now at o ≡ o → (IsTrue result ↔ (IsDown names.now flags.now o at × IsOfKind commits o)) }
{
    if flags[at] {
        return false;
    }
    match names[at].kind {
        Kind::Commit => commits,
        Kind::DirTree | Kind::DirMeta | Kind::File => !commits,
    }
}
