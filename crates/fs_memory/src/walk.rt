ghost use Rattle.std.specs.Prelude.{◌≡◌, false};
ghost use Rattle.fs_trait.specs.Effect.{way, no_new, no_file, no_leaf, no_folder, inode_of, or_else, if_folder};
ghost use Rattle.memory_record.specs.Changes.{view_of};
ghost use Rattle.memory_record.specs.Seen.{value_of};
ghost use Rattle.memory_record.specs.Answer.{IsAnswer};

use fs_trait::FsErr;
use memory_record::{Found, Past};
use ost_types::FsPath;
use places::Place;

// Walks to the last name of a path.
fn walk(past: &Past, path: &FsPath, place: &Place) -> Result<(), FsErr>
    requires { place.now ≡ path.now }
    ensures { IsAnswer false (way (view_of past.now.changes.items).now path.now) (λ _. Unit {0}) result }
{
    let names = path.names();
    let text = place.text();
    let mut end = 0;
    let mut i = 0;
    while i + 1 < names.len() {
        end += names[i].as_slice().len() + 1;
        i += 1;
        past.value_at(&text[..end]).folder()?;
    }
    Ok(())
}

// What the last name of a path has.
fn last<'a>(past: &'a Past, path: &FsPath, place: &'a Place) -> Result<Found<'a>, FsErr>
    requires { place.now ≡ path.now }
    ensures { IsAnswer false (way (view_of past.now.changes.items).now path.now) (λ f. value_of f ≡ (view_of past.now.changes.items).now.at path.now) result }
{
    walk(past, path, place)?;
    Ok(past.value_at(place.text()))
}

/// Refused where something is at the path.
#[tactic(auto, unfolding(fs_trait::specs::Effect::no_new))]
pub fn free(past: &Past, path: &FsPath, place: &Place) -> Result<(), FsErr>
    requires { place.now ≡ path.now }
    ensures { IsAnswer false (no_new path.now (view_of past.now.changes.items).now) (λ _. Unit {0}) result }
{
    last(past, path, place)?.vacant()
}

/// The inode of the file at a path.
#[tactic(auto, unfolding(fs_trait::specs::Effect::no_file))]
pub fn file_at(past: &Past, path: &FsPath, place: &Place) -> Result<u64, FsErr>
    requires { place.now ≡ path.now }
    ensures { IsAnswer false (no_file path.now (view_of past.now.changes.items).now) (λ n. n ≡ inode_of ((view_of past.now.changes.items).now.at path.now)) result }
{
    last(past, path, place)?.file()
}

/// Refused where no leaf is at the path.
#[tactic(auto, unfolding(fs_trait::specs::Effect::no_leaf))]
pub fn leaf_at(past: &Past, path: &FsPath, place: &Place) -> Result<(), FsErr>
    requires { place.now ≡ path.now }
    ensures { IsAnswer false (no_leaf path.now (view_of past.now.changes.items).now) (λ _. Unit {0}) result }
{
    last(past, path, place)?.leaf()
}

/// Refused where a folder is at the path.
pub fn not_folder(past: &Past, path: &FsPath, place: &Place) -> Result<(), FsErr>
    requires { place.now ≡ path.now }
    ensures { IsAnswer false (or_else (way (view_of past.now.changes.items).now path.now) (if_folder ((view_of past.now.changes.items).now.at path.now))) (λ _. Unit {0}) result }
{
    last(past, path, place)?.no_folder()
}

/// Refused where no folder is at the path.
#[tactic(auto, unfolding(fs_trait::specs::Effect::no_folder))]
pub fn folder_at(past: &Past, path: &FsPath, place: &Place) -> Result<(), FsErr>
    requires { place.now ≡ path.now }
    ensures { IsAnswer false (no_folder path.now (view_of past.now.changes.items).now) (λ _. Unit {0}) result }
{
    last(past, path, place)?.folder()
}
