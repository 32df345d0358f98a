//! Which entries have a deployment of their own.
ghost use Rattle.std.specs.Prelude.{◌≡◌, ◌≤◌, ℕ, not, Some, IfErr, IfOk, MatchResult};
ghost use Rattle.std.specs.List.{list_any};
ghost use Rattle.fs_trait.specs.View.{Disk, View};
ghost use Rattle.fs_trait.specs.Image.{is_folder};
ghost use Rattle.fs_trait.specs.Effect.{HasCause, IsQuiet, OfNone};
ghost use Rattle.repo_layout.specs.Fixed.{number};
ghost use Rattle.boot_read.specs.Faults.{AreLinked, HasCauseOf, IsFault, IsOfNoCall};
ghost use Rattle.boot_read.specs.Rules.{Lacks};
ghost use Rattle.boot_read.specs.Steps.{AreFollowed, AreOwned, IsFollowed, IsOwned, TellsLack, is_folder_node, is_twin, leads_to};
ghost use Rattle.deploy_list.specs.Lists.{is_id};

use crate::fault::ListFault;
use crate::links::Followed;
use crate::places::entry_at;
use crate::row::BootRow;
use boot_model::DepId;
use fs_trait::{Fs, FsErr, Node};
use ost_types::{FsPath, Name, TryCopy};
use repo_layout::{Version, deploy_path};
use std::alloc::Global;

/// The rows of all entries, unless one has no deployment of its own.
pub(crate) fn owned_rows<F: Fs>(
    alloc: Global,
    fs: &mut F,
    loader: Version,
    all: &[Followed],
) -> Result<Vec<BootRow>, ListFault>
    ensures told { (v : View) (sub : ℕ) → F.view fs.old ≡ Some v → AreLinked v.now (number loader) sub → AreFollowed v.now (number loader) sub all.now → MatchResult result (λ rows. AreOwned v.now (number loader) sub rows.items) (IsFault v.now) }
    ensures quiet { IsQuiet (F.clock fs.old) (F.clock fs.new) (F.was fs.old) (F.was fs.new) (F.view fs.old) (F.view fs.new) }
    ensures room { F.spare fs.old ≤ F.spare fs.new }
    ensures cause { HasCauseOf (F.faults fs.old) (F.faults fs.new) result }
{
    let mut rows = Vec::with_capacity(alloc, all.len())?;
    for followed in all {
        let row = owned_row(alloc, fs, loader, all, followed)?;
        rows.push(row)?;
    }
    Ok(rows)
}

fn owned_row<F: Fs>(
    alloc: Global,
    fs: &mut F,
    loader: Version,
    all: &[Followed],
    followed: &Followed,
) -> Result<BootRow, ListFault>
    ensures told { (v : View) (sub : ℕ) → F.view fs.old ≡ Some v → AreFollowed v.now (number loader) sub all.now → IsFollowed v.now (number loader) sub followed.now → MatchResult result (λ row. (row.file ≡ followed.now.name) × IsOwned v.now (number loader) sub row) (TellsLack v.now (number loader) sub followed.now.name) }
    ensures quiet { IsQuiet (F.clock fs.old) (F.clock fs.new) (F.was fs.old) (F.was fs.new) (F.view fs.old) (F.view fs.new) }
    ensures room { F.spare fs.old ≤ F.spare fs.new }
    ensures cause { HasCauseOf (F.faults fs.old) (F.faults fs.new) result }
{
    match &followed.row {
        None => Err(no_deployment(alloc, loader, &followed.name)),
        Some(row) => checked_row(alloc, fs, loader, all, followed, row),
    }
}

// the row of this entry, if the deployment to which it leads is its own
fn checked_row<F: Fs>(
    alloc: Global,
    fs: &mut F,
    loader: Version,
    all: &[Followed],
    followed: &Followed,
    row: &BootRow,
) -> Result<BootRow, ListFault>
    requires { followed.now.row ≡ Some row.now }
    ensures told { (v : View) (sub : ℕ) → F.view fs.old ≡ Some v → AreFollowed v.now (number loader) sub all.now → IsFollowed v.now (number loader) sub followed.now → MatchResult result (λ row. (row.file ≡ followed.now.name) × IsOwned v.now (number loader) sub row) (TellsLack v.now (number loader) sub followed.now.name) }
    ensures quiet { IsQuiet (F.clock fs.old) (F.clock fs.new) (F.was fs.old) (F.was fs.new) (F.view fs.old) (F.view fs.new) }
    ensures room { F.spare fs.old ≤ F.spare fs.new }
    ensures cause { HasCauseOf (F.faults fs.old) (F.faults fs.new) result }
{
    if !is_alone(all, row) {
        return Err(no_deployment(alloc, loader, &followed.name));
    }
    let at = deploy_path(alloc, &row.id.os, &row.id.commit, row.id.serial)?;
    let there = has_folder(fs, &at)?;
    if !there {
        return Err(no_deployment(alloc, loader, &followed.name));
    }
    Ok(row.copy()?)
}

fn no_deployment(alloc: Global, loader: Version, file: &Name) -> ListFault
    ensures told { (d : Disk) (sub : ℕ) → Lacks d (number loader) sub file.now → TellsLack d (number loader) sub file.now result }
    ensures no_call { IsOfNoCall result }
{
    match entry_at(alloc, loader, file) {
        Ok(at) => ListFault::NoDeployment(at),
        Err(_) => ListFault::NoMemory,
    }
}

// no other entry has its version or leads to its deployment
fn is_alone(all: &[Followed], row: &BootRow) -> bool
    ensures { result ≡ not (list_any (is_twin row.now) all.now) }
{
    !has_twin(all, row)
}

fn has_twin(all: &[Followed], row: &BootRow) -> bool
    ensures { result ≡ list_any (is_twin row.now) all.now }
{
    all.iter().any(|other| is_twin(other, row))
}

fn is_twin(other: &Followed, row: &BootRow) -> bool
    ensures { result ≡ is_twin row.now other.now }
{
    other.name != row.file && (other.version == row.version || leads_to(&other.row, &row.id))
}

fn leads_to(row: &Option<BootRow>, id: &DepId) -> bool
    ensures { result ≡ leads_to id.now row.now }
{
    match row {
        Some(row) => is_same(&row.id, id),
        None => false,
    }
}

fn is_same(a: &DepId, b: &DepId) -> bool
    ensures { result ≡ is_id b.now.os b.now.commit b.now.serial a.now }
{
    a.os == b.os && a.commit == b.commit && a.serial == b.serial
}

// whether a folder stands there
fn has_folder<F: Fs>(fs: &mut F, at: &FsPath) -> Result<bool, FsErr>
    ensures told { (v : View) → F.view fs.old ≡ Some v → IfOk result (λ yes. yes ≡ is_folder (v.now.at at.now)) }
    ensures named { IfErr result OfNone }
    ensures quiet { IsQuiet (F.clock fs.old) (F.clock fs.new) (F.was fs.old) (F.was fs.new) (F.view fs.old) (F.view fs.new) }
    ensures room { F.spare fs.old ≤ F.spare fs.new }
    ensures cause { HasCause (F.faults fs.old) (F.faults fs.new) result }
{
    let node = fs.stat(at)?;
    Ok(is_some_folder(&node))
}

fn is_some_folder(node: &Option<Node>) -> bool
    ensures { result ≡ is_folder_node node.now }
{
    match node {
        Some(Node::Folder(_)) => true,
        Some(Node::Link { .. }) => false,
        Some(Node::File { .. }) => false,
        None => false,
    }
}
