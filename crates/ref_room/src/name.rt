//! The ref that has a path.
ghost use Rattle.std.specs.Prelude.{◌≡◌, ◌≢◌, ◌↔◌, ◌++◌, List, ℕ, IfOk, IfSome, None, IsTrue};
ghost use Rattle.repo_layout.specs.RefName.{IsRefName};
ghost use Rattle.repo_layout.specs.Paths.{ref_path};
ghost use Rattle.ref_room.specs.Clash.{IsNoRef, below_heads};

use ost_types::{FsPath, NoMemory};
use repo_layout::{RefName, ref_path};
use std::alloc::Global;

/// The ref whose file has this path, or None where no ref's has.
pub fn ref_at(alloc: Global, at: &FsPath) -> Result<Option<RefName>, NoMemory>
    ensures some { IfOk result (λ found. IfSome found (λ name. IsRefName name × (ref_path name ≡ at.now))) }
    ensures none { IfOk result (λ found. found ≡ None → IsNoRef at.now) }
{
    let text = at.text()?;
    let Some(name) = name_in(alloc, text.as_slice())? else {
        return Ok(None);
    };
    if is_at(alloc, &name, at)? {
        Ok(Some(name))
    } else {
        Ok(None)
    }
}

// the ref's name behind the text of the folder of all refs
fn name_in(alloc: Global, text: &[u8]) -> Result<Option<RefName>, NoMemory>
    ensures some { IfOk result (λ found. IfSome found (λ name. text.now ≡ below_heads ++ name)) }
    ensures none { IfOk result (λ found. found ≡ None → (name : List ℕ) → IsRefName name → text.now ≢ below_heads ++ name) }
{
    match text.strip_prefix(b"/ostree/repo/refs/heads/") {
        Some(name) => RefName::parse(alloc, name),
        None => Ok(None),
    }
}

fn is_at(alloc: Global, name: &RefName, at: &FsPath) -> Result<bool, NoMemory>
    ensures { IfOk result (λ same. IsTrue same ↔ (ref_path name.now ≡ at.now)) }
{
    Ok(ref_path(alloc, name)? == *at)
}
