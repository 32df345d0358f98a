//! The links that the entries name.
ghost use Rattle.std.specs.Prelude.{◌≡◌, ◌==◌, ◌≢◌, ◌≤◌, ℕ, List, Some, IfOk, IfErr, MatchOption, MatchResult};
ghost use Rattle.ost_types.specs.Path.{same_name};
ghost use Rattle.fs_trait.specs.View.{Disk, View};
ghost use Rattle.fs_trait.specs.Effect.{IsNode, IsQuiet};
ghost use Rattle.fs_trait.specs.Seen.{Vacant, shows};
ghost use Rattle.repo_layout.specs.Fixed.{number};
ghost use Rattle.boot_model.specs.declared.item.DepId.{DepId as Id};
ghost use Rattle.boot_read.specs.declared.fault.ListFault.TheVariants as fault;
ghost use Rattle.boot_read.specs.Entries.{IsRead};
ghost use Rattle.boot_read.specs.Faults.{HasCauseOf, HasFolders, IsFault, IsOfNoCall};
ghost use Rattle.boot_read.specs.Links.{IsItemLink};
ghost use Rattle.boot_read.specs.Steps.{AreFollowed, AreTexts, HasNoBad, IsFollowed, IsRowOf, NamesIt, NamesNothing, NodeLeads, TellsBadItem, TellsOther, row_of};
ghost use Rattle.boot_words.specs.Words.{IsNamedLink, LeadsNowhere, LeadsTo, NamesLink, NamesNoLink, NamesNone};

use crate::fault::ListFault;
use crate::places::item_link;
use crate::row::BootRow;
use crate::texts::EntryText;
use crate::words::other_words;
use bls_entry::{BlsEntry, ostree_value};
use boot_model::DepId;
use boot_words::{NamedLink, read_deploy_target, read_named_link};
use fs_trait::{Fs, Node};
use ost_types::{FsPath, Name, NoMemory, TryCopy};
use repo_layout::{OsName, Version};
use std::alloc::Global;

/// An entry whose link was looked for.
#[derive(Drop, Debug)]
pub(crate) struct Followed {
    pub name: Name,
    pub version: u32,
    /// None where it leads to no deployment.
    pub row: Option<BootRow>,
}

/// All entries, with the deployments to which they lead, unless a link is of another form.
pub(crate) fn follow_all<F: Fs>(
    alloc: Global,
    fs: &mut F,
    loader: Version,
    sub: Version,
    texts: &[EntryText],
) -> Result<Vec<Followed>, ListFault>
    ensures told { (v : View) → F.view fs.old ≡ Some v → HasFolders v.now (number loader) (number sub) → AreTexts v.now (number loader) texts.now → MatchResult result (λ all. AreFollowed v.now (number loader) (number sub) all.items) (IsFault v.now) }
    ensures quiet { IsQuiet (F.clock fs.old) (F.clock fs.new) (F.was fs.old) (F.was fs.new) (F.view fs.old) (F.view fs.new) }
    ensures room { F.spare fs.old ≤ F.spare fs.new }
    ensures cause { HasCauseOf (F.faults fs.old) (F.faults fs.new) result }
{
    let mut all = Vec::with_capacity(alloc, texts.len())?;
    for text in texts {
        let followed = follow(alloc, fs, loader, sub, text)?;
        all.push(followed)?;
    }
    Ok(all)
}

fn follow<F: Fs>(
    alloc: Global,
    fs: &mut F,
    loader: Version,
    sub: Version,
    text: &EntryText,
) -> Result<Followed, ListFault>
    ensures told { (v : View) → F.view fs.old ≡ Some v → IsRead v.now (number loader) text.now.name text.now.entry → MatchResult result (λ f. (f.name ≡ text.now.name) × IsFollowed v.now (number loader) (number sub) f) (TellsBadItem v.now (number loader) (number sub) text.now.name) }
    ensures quiet { IsQuiet (F.clock fs.old) (F.clock fs.new) (F.was fs.old) (F.was fs.new) (F.view fs.old) (F.view fs.new) }
    ensures room { F.spare fs.old ≤ F.spare fs.new }
    ensures cause { HasCauseOf (F.faults fs.old) (F.faults fs.new) result }
{
    let row = row_at(alloc, fs, loader, sub, text)?;
    let name = text.name.copy()?;
    Ok(Followed {
        name,
        version: text.entry.version,
        row,
    })
}

// the row of an entry, if it leads to a deployment
fn row_at<F: Fs>(
    alloc: Global,
    fs: &mut F,
    loader: Version,
    sub: Version,
    text: &EntryText,
) -> Result<Option<BootRow>, ListFault>
    ensures told { (v : View) → F.view fs.old ≡ Some v → IsRead v.now (number loader) text.now.name text.now.entry → MatchResult result (λ row. IsRowOf v.now (number loader) (number sub) text.now.name row × HasNoBad v.now (number loader) (number sub) text.now.name) (TellsBadItem v.now (number loader) (number sub) text.now.name) }
    ensures quiet { IsQuiet (F.clock fs.old) (F.clock fs.new) (F.was fs.old) (F.was fs.new) (F.view fs.old) (F.view fs.new) }
    ensures room { F.spare fs.old ≤ F.spare fs.new }
    ensures cause { HasCauseOf (F.faults fs.old) (F.faults fs.new) result }
{
    let named = link_of(alloc, loader, &text.entry)?;
    match named {
        None => Ok(None),
        Some(link) => row_by(alloc, fs, loader, sub, text, link),
    }
}

// the row of an entry that names this link
fn row_by<F: Fs>(
    alloc: Global,
    fs: &mut F,
    loader: Version,
    sub: Version,
    text: &EntryText,
    link: NamedLink,
) -> Result<Option<BootRow>, ListFault>
    ensures told { (v : View) → F.view fs.old ≡ Some v → IsRead v.now (number loader) text.now.name text.now.entry → NamesIt (number loader) text.now.entry link → MatchResult result (λ row. IsRowOf v.now (number loader) (number sub) text.now.name row × HasNoBad v.now (number loader) (number sub) text.now.name) (TellsBadItem v.now (number loader) (number sub) text.now.name) }
    ensures quiet { IsQuiet (F.clock fs.old) (F.clock fs.new) (F.was fs.old) (F.was fs.new) (F.view fs.old) (F.view fs.new) }
    ensures room { F.spare fs.old ≤ F.spare fs.new }
    ensures cause { HasCauseOf (F.faults fs.old) (F.faults fs.new) result }
{
    let at = item_link(alloc, loader, sub, &link.os, &link.bootcsum, link.number)?;
    let led = deployment_at(alloc, fs, at, &link.os)?;
    match led {
        None => Ok(None),
        Some(id) => led_row(alloc, text, &link, id),
    }
}

fn led_row(
    alloc: Global,
    text: &EntryText,
    link: &NamedLink,
    id: DepId,
) -> Result<Option<BootRow>, ListFault>
    ensures value { IfOk result (λ o. o ≡ Some (row_of text.now link.now id)) }
    ensures memory { IfErr result (λ e. e ≡ fault.NoMemory) }
{
    Ok(Some(row_of(alloc, text, link, id)?))
}

// the link of the version that the entry names
fn link_of(alloc: Global, loader: Version, entry: &BlsEntry) -> Result<Option<NamedLink>, NoMemory>
    ensures { IfOk result (λ o. MatchOption o (NamesNothing (number loader) entry.now) (NamesIt (number loader) entry.now)) }
{
    let Some(value) = ostree_value(entry.options.as_slice()) else {
        return Ok(None);
    };
    let link = read_named_link(alloc, value)?;
    Ok(of_version(link, loader))
}

fn of_version(link: Option<NamedLink>, loader: Version) -> Option<NamedLink>
    ensures { (text : List ℕ) → MatchOption link (NamesNone text) (IsNamedLink text) → MatchOption result (NamesNoLink text (number loader)) (λ l. NamesLink text (number loader) l.os l.bootcsum l.number) }
{
    match link {
        None => None,
        Some(link) => this_version(link, loader),
    }
}

fn this_version(link: NamedLink, loader: Version) -> Option<NamedLink>
    ensures { (text : List ℕ) → IsNamedLink text link → MatchOption result (NamesNoLink text (number loader)) (λ l. NamesLink text (number loader) l.os l.bootcsum l.number) }
{
    if is_same(link.version, loader) {
        Some(link)
    } else {
        None
    }
}

fn is_same(version: Version, other: Version) -> bool
    ensures { result ≡ (number version == number other) }
{
    match version {
        Version::Zero => is_zero(other),
        Version::One => !is_zero(other),
    }
}

fn is_zero(version: Version) -> bool
    ensures { result ≡ (number version == 0) }
{
    match version {
        Version::Zero => true,
        Version::One => false,
    }
}

fn row_of(alloc: Global, text: &EntryText, link: &NamedLink, id: DepId) -> Result<BootRow, NoMemory>
    ensures { IfOk result (λ row. row ≡ row_of text.now link.now id) }
{
    Ok(BootRow {
        file: text.name.copy()?,
        version: text.entry.version,
        id,
        kargs: other_words(alloc, &text.entry.options)?,
        bootcsum: link.bootcsum,
        number: link.number,
    })
}

// the deployment of this stateroot to which the link leads; none where nothing stands there
fn deployment_at<F: Fs>(
    alloc: Global,
    fs: &mut F,
    at: FsPath,
    os: &OsName,
) -> Result<Option<DepId>, ListFault>
    ensures told { (v : View) → F.view fs.old ≡ Some v → MatchResult result (λ o. MatchOption o (shows v.now at ≡ Vacant) (IsItemLink v.now at os.now)) (TellsOther v.now at os.now) }
    ensures quiet { IsQuiet (F.clock fs.old) (F.clock fs.new) (F.was fs.old) (F.was fs.new) (F.view fs.old) (F.view fs.new) }
    ensures room { F.spare fs.old ≤ F.spare fs.new }
    ensures cause { HasCauseOf (F.faults fs.old) (F.faults fs.new) result }
{
    let node = fs.stat(&at)?;
    match node {
        None => Ok(None),
        Some(node) => led_by(alloc, &node, at, os),
    }
}

// the deployment to which this leads that stands at the path
fn led_by(alloc: Global, node: &Node, at: FsPath, os: &OsName) -> Result<Option<DepId>, ListFault>
    ensures told { (d : Disk) → IsNode d (d.at at) (Some node.now) → MatchResult result (λ o. MatchOption o (shows d at ≡ Vacant) (IsItemLink d at os.now)) (TellsOther d at os.now) }
    ensures no_call { IfErr result IsOfNoCall }
{
    let led = deployment_of(alloc, node, os)?;
    match led {
        Some(id) => Ok(Some(id)),
        None => Err(ListFault::BadLink(at)),
    }
}

// the deployment of this stateroot to which a link leads
fn deployment_of(alloc: Global, node: &Node, os: &OsName) -> Result<Option<DepId>, NoMemory>
    ensures { IfOk result (λ o. MatchOption o ((id : Id) → ¬ (NodeLeads node.now os.now id)) (NodeLeads node.now os.now)) }
{
    let Node::Link { meta: _, target } = node else {
        return Ok(None);
    };
    let led = read_deploy_target(alloc, target.as_slice())?;
    Ok(of_stateroot(led, os))
}

fn of_stateroot(led: Option<DepId>, os: &OsName) -> Option<DepId>
    ensures { (target : List ℕ) → MatchOption led (LeadsNowhere target) (LeadsTo target) → MatchOption result ((id : Id) → LeadsTo target id → id.os ≢ os.now) (λ id. LeadsTo target id × (id.os ≡ os.now)) }
{
    match led {
        None => None,
        Some(id) => this_stateroot(id, os),
    }
}

fn this_stateroot(led: DepId, os: &OsName) -> Option<DepId>
    ensures { (target : List ℕ) → LeadsTo target led → MatchOption result ((id : Id) → LeadsTo target id → id.os ≢ os.now) (λ id. LeadsTo target id × (id.os ≡ os.now)) }
{
    if is_stateroot(&led.os, os) {
        Some(led)
    } else {
        None
    }
}

fn is_stateroot(one: &OsName, other: &OsName) -> bool
    ensures { result ≡ same_name one.now other.now }
{
    *one == *other
}
