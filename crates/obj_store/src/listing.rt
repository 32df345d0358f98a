//! The objects that a folder of the store has.
ghost use Rattle.std.specs.Prelude.{◌≡◌, ◌≢◌, ◌∷◌, ◌++◌, ◌≤◌, ℕ, [], List, Some, IfOk, IfErr, IfSome, MatchOption, drop, length, take};
ghost use Rattle.std.specs.List.Sorted.{IsStrictlySortedBy};
ghost use Rattle.ost_types.specs.Csum.{hex_of};
ghost use Rattle.ost_types.specs.declared.object.Kind.{Kind};
ghost use Rattle.ost_types.specs.declared.object.ObjName.{ObjName};
ghost use Rattle.fs_trait.specs.View.{View};
ghost use Rattle.fs_trait.specs.Effect.{HasCause, IsQuiet, OfFinding, OfNone};
ghost use Rattle.repo_layout.specs.Paths.{ending};
ghost use Rattle.repo_layout.specs.RefFile.{IsSum};
ghost use Rattle.obj_store.specs.Listing.{AreObjects, IsGone, IsList, file_name, name_cmp};

use fs_trait::{Fs, FsErr};
use ost_types::{Csum, Kind, Names, NoMemory, ObjName};
use repo_layout::objects_folder_path;
use std::alloc::Global;
use std::collections::BTreeSet;

/// The names of the objects whose sums begin with this byte, ascending. There are none where no folder is that has them; other
/// names in it are passed over.
pub fn list_part<F: Fs>(alloc: Global, fs: &mut F, first: u8) -> Result<Vec<ObjName>, FsErr>
    ensures told { (v : View) → F.view fs.old ≡ Some v → IfOk result (λ names. IsList v.now first names.items) }
    ensures named { IfErr result OfNone }
    ensures quiet { IsQuiet (F.clock fs.old) (F.clock fs.new) (F.was fs.old) (F.was fs.new) (F.view fs.old) (F.view fs.new) }
    ensures keeps_room { F.spare fs.old ≤ F.spare fs.new }
    ensures cause { HasCause (F.faults fs.old) (F.faults fs.new) result }
{
    let folder = objects_folder_path(alloc, &Csum::from_bytes([first; 32]))?;
    match fs.list(&folder) {
        Ok(names) => Ok(objects_in(alloc, first, &names)?),
        Err(refusal) => unlisted(alloc, refusal),
    }
}

/// No objects, where no folder is there.
fn unlisted(alloc: Global, refusal: FsErr) -> Result<Vec<ObjName>, FsErr>
    requires { OfFinding refusal }
    ensures none { IfOk result (λ objects. (objects.items ≡ []) × IsGone refusal) }
    ensures err { IfErr result (λ e. (e ≡ refusal) × OfNone e) }
{
    match refusal {
        FsErr::Missing => Ok(Vec::new(alloc)),
        FsErr::NotFolder => Ok(Vec::new(alloc)),
        refusal => Err(refusal),
    }
}

/// The objects whose files these names are, in a folder of sums that begin so.
fn objects_in(alloc: Global, first: u8, names: &Names) -> Result<Vec<ObjName>, NoMemory>
    ensures { IfOk result (λ found. AreObjects first names.now found.items) }
{
    let mut found = BTreeSet::new(alloc);
    for name in names.as_slice() {
        if let Some(object) = object_of(first, name.as_slice()) {
            found.insert(object)?;
        }
    }
    listed(alloc, &found)
}

fn listed(alloc: Global, found: &BTreeSet<ObjName>) -> Result<Vec<ObjName>, NoMemory>
    ensures all { IfOk result (λ objects. objects.items ≡ found.now.keys) }
    ensures ascending { IsStrictlySortedBy name_cmp found.now.keys }
{
    let mut objects = Vec::with_capacity(alloc, found.len())?;
    for object in found {
        objects.push(*object)?;
    }
    Ok(objects)
}

/// The object whose file this is, in a folder of sums that begin so.
fn object_of(first: u8, file: &[u8]) -> Option<ObjName>
    ensures some { IfSome result (λ o. IsSum o.csum × (take 1 o.csum ≡ first ∷ []) × (file.now ≡ file_name o)) }
    ensures all { (o : ObjName) → IsSum o.csum → take 1 o.csum ≡ first ∷ [] → file.now ≡ file_name o → result ≡ Some o }
{
    if file.len() < 62 {
        return None;
    }
    let (digits, end) = file.split_at(62);
    let kind = kind_of(end)?;
    let csum = sum_of(first, digits)?;
    Some(ObjName { csum, kind })
}

/// The sum that begins so, and whose other digits these are.
fn sum_of(first: u8, digits: &[u8]) -> Option<Csum>
    requires { length digits.now ≡ 62 }
    ensures sum { IfSome result IsSum }
    ensures text { IfSome result (λ c. hex_of c ≡ hex_of (first ∷ []) ++ digits.now) }
    ensures begins { IfSome result (λ c. take 1 c ≡ first ∷ []) }
    ensures rest { IfSome result (λ c. digits.now ≡ drop 2 (hex_of c)) }
    ensures all { (sum : List ℕ) → IsSum sum → take 1 sum ≡ first ∷ [] → digits.now ≡ drop 2 (hex_of sum) → result ≡ Some sum }
{
    Csum::from_hex(&digits_of(first, digits))
}

fn digits_of(first: u8, rest: &[u8]) -> [u8; 64]
    requires { length rest.now ≡ 62 }
    ensures { result ≡ hex_of (first ∷ []) ++ rest.now }
{
    let mut text = [0; 64];
    let Ok(()) = hex::encode_to_slice(&[first], &mut text[..2]) else {
        unreachable!()
    };
    text[2..].copy_from_slice(rest);
    text
}

/// The kind whose objects' files end so.
fn kind_of(end: &[u8]) -> Option<Kind>
    ensures { MatchOption result ((k : Kind) → end.now ≢ ending k) (λ k. end.now ≡ ending k) }
{
    match end {
        b".commit" => Some(Kind::Commit),
        b".dirtree" => Some(Kind::DirTree),
        b".dirmeta" => Some(Kind::DirMeta),
        b".file" => Some(Kind::File),
        _ => None,
    }
}
