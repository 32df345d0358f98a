ghost use Rattle.std.specs.Prelude.{◌≡◌, ◌≤◌, Some, Ok, Err, MatchResult};
ghost use Rattle.fs_trait.specs.View.{View};
ghost use Rattle.fs_trait.specs.Effect.{IsQuiet};
ghost use Rattle.repo_layout.specs.Fixed.{number};
ghost use Rattle.boot_model.specs.Listing.{Selects};
ghost use Rattle.boot_read.specs.Faults.{HasCauseOf, IsFault};
ghost use Rattle.boot_read.specs.Rows.{AreRowsOf};

use crate::fault::ListFault;
use crate::files::entry_files;
use crate::links::follow_all;
use crate::owned::owned_rows;
use crate::row::BootRow;
use crate::sorted::by_version;
use crate::texts::entry_texts;
use crate::versions::{selected, sub_version};
use fs_trait::Fs;
use repo_layout::Version;
use std::alloc::Global;

/// The list of deployments that the disk boots, the greatest version first, or what is first wrong with it. Nothing is changed.
///
/// Each entry is read once, and of a longer file no more than an entry may have and one byte.
pub fn read_list<F: Fs>(alloc: Global, fs: &mut F) -> Result<Vec<BootRow>, ListFault>
    ensures told { (v : View) → F.view fs.old ≡ Some v → MatchResult result (λ rows. AreRowsOf v.now rows.items) (IsFault v.now) }
    ensures quiet { IsQuiet (F.clock fs.old) (F.clock fs.new) (F.was fs.old) (F.was fs.new) (F.view fs.old) (F.view fs.new) }
    ensures room { F.spare fs.old ≤ F.spare fs.new }
    ensures cause { HasCauseOf (F.faults fs.old) (F.faults fs.new) result }
{
    match selected(alloc, fs)? {
        None => Ok(Vec::new(alloc)),
        Some(loader) => rows_of(alloc, fs, loader),
    }
}

// the rows of the selected version
fn rows_of<F: Fs>(alloc: Global, fs: &mut F, loader: Version) -> Result<Vec<BootRow>, ListFault>
    ensures told { (v : View) → F.view fs.old ≡ Some v → Selects v.now (number loader) → MatchResult result (λ rows. AreRowsOf v.now rows.items) (IsFault v.now) }
    ensures quiet { IsQuiet (F.clock fs.old) (F.clock fs.new) (F.was fs.old) (F.was fs.new) (F.view fs.old) (F.view fs.new) }
    ensures room { F.spare fs.old ≤ F.spare fs.new }
    ensures cause { HasCauseOf (F.faults fs.old) (F.faults fs.new) result }
{
    let sub = sub_version(alloc, fs, loader)?;
    let files = entry_files(alloc, fs, loader)?;
    let texts = entry_texts(alloc, loader, &files)?;
    let all = follow_all(alloc, fs, loader, sub, &texts)?;
    let rows = owned_rows(alloc, fs, loader, &all)?;
    let sorted = by_version(rows)?;
    Ok(sorted)
}
