//! The list that a disk boots, read by one who knows its paths and the lines of entries, and nothing of the code that writes them.
ghost use Rattle.std.specs.Prelude.{◌≤◌, length};

use crate::looks::{known, path_of};
use fs_memory::MemFs;
use fs_trait::{Fs, Node};
use ost_types::{FsPath, Names};
use sheet::{Stop, text};
use std::alloc::Global;

/// A member of the list, and the version of its entry.
#[derive(Drop)]
struct Row {
    version: u32,
    text: Vec<u8>,
}

/// The members by falling version, each as `members` tells it; `broken` where an entry leads to no deployment.
pub fn listing(alloc: Global, fs: &mut MemFs) -> Result<Vec<u8>, Stop> {
    match members(alloc, fs) {
        Err(Stop::Unknown) => text(alloc, "broken"),
        answer => answer,
    }
}

fn members(alloc: Global, fs: &mut MemFs) -> Result<Vec<u8>, Stop> {
    let Some(selected) = target_at(alloc, fs, "/boot/loader")? else {
        return text(alloc, "-");
    };
    let loader = match selected.as_str() {
        "loader.0" => "0",
        "loader.1" => "1",
        _ => return Err(Stop::Unknown),
    };
    let rows = rows(alloc, fs, loader)?;
    joined(alloc, &rows)
}

// The rows with `,` between them; `-` is none.
fn joined(alloc: Global, rows: &[Row]) -> Result<Vec<u8>, Stop> {
    if rows.is_empty() {
        return text(alloc, "-");
    }
    let mut all = Vec::new(alloc);
    for row in rows {
        if !all.is_empty() {
            all.push(b',')?;
        }
        all.extend_from_slice(&row.text)?;
    }
    Ok(all)
}

// The target of the link that stands there, if anything does.
fn target_at(alloc: Global, fs: &mut MemFs, at: &str) -> Result<Option<String>, Stop> {
    match known(fs.stat(&path_of(alloc, at)?))? {
        None => Ok(None),
        Some(Node::Link { target, .. }) => Ok(Some(format!(in alloc; "{}", target.as_str())?)),
        Some(_) => Err(Stop::Unknown),
    }
}

fn is_folder(alloc: Global, fs: &mut MemFs, at: &str) -> Result<bool, Stop> {
    Ok(match known(fs.stat(&path_of(alloc, at)?))? {
        Some(Node::Folder(_)) => true,
        _ => false,
    })
}

fn is_file(fs: &mut MemFs, at: &FsPath) -> Result<bool, Stop> {
    Ok(match known(fs.stat(at))? {
        Some(Node::File { .. }) => true,
        _ => false,
    })
}

// The greatest version first.
fn rows(alloc: Global, fs: &mut MemFs, loader: &str) -> Result<Vec<Row>, Stop> {
    let mut rows: Vec<Row> = Vec::new(alloc);
    let folder = format!(in alloc; "/boot/loader.{loader}/entries")?;
    if !is_folder(alloc, fs, folder.as_str())? {
        return Ok(rows);
    }
    let names = names_in(alloc, fs, folder.as_str())?;
    for name in names.as_slice() {
        if name.as_str().ends_with(".conf") {
            let entry = format!(in alloc; "{folder}/{}", name.as_str())?;
            add_row(alloc, fs, loader, entry.as_str(), &mut rows)?;
        }
    }
    Ok(rows)
}

fn names_in(alloc: Global, fs: &mut MemFs, folder: &str) -> Result<Names, Stop> {
    let folder = path_of(alloc, folder)?;
    known(fs.list(&folder))
}

// The entry that stands there, if it is a file.
fn add_row(
    alloc: Global,
    fs: &mut MemFs,
    loader: &str,
    entry: &str,
    rows: &mut Vec<Row>,
) -> Result<(), Stop> {
    let entry = path_of(alloc, entry)?;
    if is_file(fs, &entry)? {
        let row = row_at(alloc, fs, loader, &entry)?;
        let place = place_of(rows, row.version);
        rows.insert(place, row)?;
    }
    Ok(())
}

fn row_at(alloc: Global, fs: &mut MemFs, loader: &str, at: &FsPath) -> Result<Row, Stop> {
    let bytes = known(fs.read(at))?;
    row_of(alloc, fs, loader, bytes.as_slice())
}

fn place_of(rows: &[Row], version: u32) -> usize
    ensures { result ≤ length rows.now }
{
    rows.iter()
        .position(|row| row.version < version)
        .unwrap_or(rows.len())
}

fn row_of(alloc: Global, fs: &mut MemFs, loader: &str, bytes: &[u8]) -> Result<Row, Stop> {
    let entry = std::str::from_utf8(bytes).map_err(|_| Stop::Unknown)?;
    let version = version_in(entry)?;
    let options = value_of(entry, "options ")?;
    let link = link_in(options)?;
    let mut text = deployment(alloc, fs, loader, link)?;
    add_words(&mut text, options)?;
    Ok(Row { version, text })
}

fn version_in(entry: &str) -> Result<u32, Stop> {
    let version = value_of(entry, "version ")?;
    version.parse::<u32>().map_err(|_| Stop::Unknown)
}

// What the last word names that names a deployment.
fn link_in(options: &str) -> Result<&str, Stop> {
    let mut link = None;
    for word in options.split(' ') {
        if let Some(named) = word.strip_prefix("ostree=") {
            link = Some(named);
        }
    }
    link.ok_or(Stop::Unknown)
}

// Each other word behind a `:`.
fn add_words(text: &mut Vec<u8>, options: &str) -> Result<(), Stop> {
    for word in options.split(' ') {
        if !word.starts_with("ostree=") {
            text.push(b':')?;
            text.extend_from_slice(word.as_bytes())?;
        }
    }
    Ok(())
}

fn value_of<'a>(entry: &'a str, key: &str) -> Result<&'a str, Stop> {
    for line in entry.lines() {
        if let Some(value) = line.strip_prefix(key) {
            return Ok(value);
        }
    }
    Err(Stop::Unknown)
}

// What `/ostree/boot.<loader>/<stateroot>/<sum>/<number>` leads to.
fn deployment(alloc: Global, fs: &mut MemFs, loader: &str, named: &str) -> Result<Vec<u8>, Stop> {
    let link = format!(in alloc; "/ostree/boot.{loader}")?;
    let rest = rest_behind(named, link.as_str())?;
    let folder = links_at(alloc, fs, loader, link.as_str())?;
    let member = format!(in alloc; "/ostree/{folder}/{rest}")?;
    let place = place_at(alloc, fs, member.as_str())?;
    told_member(alloc, rest, place.as_str())
}

fn rest_behind<'a>(named: &'a str, link: &str) -> Result<&'a str, Stop> {
    let rest = named.strip_prefix(link).ok_or(Stop::Unknown)?;
    rest.strip_prefix('/').ok_or(Stop::Unknown)
}

fn told_member(alloc: Global, named: &str, place: &str) -> Result<Vec<u8>, Stop> {
    let (os, _) = named.split_once('/').ok_or(Stop::Unknown)?;
    told_place(alloc, os, place)
}

// The folder of links that a version's link names.
fn links_at(alloc: Global, fs: &mut MemFs, loader: &str, link: &str) -> Result<String, Stop> {
    let folder = target_at(alloc, fs, link)?.ok_or(Stop::Unknown)?;
    let digits = format!(in alloc; "boot.{loader}.")?;
    let is_known = match folder.as_str().strip_prefix(digits.as_str()) {
        Some("0") | Some("1") => true,
        _ => false,
    };
    if is_known {
        Ok(folder)
    } else {
        Err(Stop::Unknown)
    }
}

// The place of a deployment that a member's link names, where its folder stands.
fn place_at(alloc: Global, fs: &mut MemFs, link: &str) -> Result<String, Stop> {
    let target = target_at(alloc, fs, link)?.ok_or(Stop::Unknown)?;
    let place = target
        .as_str()
        .strip_prefix("../../../deploy/")
        .ok_or(Stop::Unknown)?;
    let folder = format!(in alloc; "/ostree/deploy/{place}")?;
    if !is_folder(alloc, fs, folder.as_str())? {
        return Err(Stop::Unknown);
    }
    Ok(format!(in alloc; "{place}")?)
}

// Of `<stateroot>/deploy/<commit>.<serial>` the commit's first two digits, where the stateroot is this one.
fn told_place(alloc: Global, os: &str, place: &str) -> Result<Vec<u8>, Stop> {
    let (stateroot, rest) = place.split_once('/').ok_or(Stop::Unknown)?;
    if stateroot != os {
        return Err(Stop::Unknown);
    }
    let (digits, serial) = digits_and_serial(rest)?;
    let told = format!(in alloc; "{os}:{digits}.{serial}")?;
    text(alloc, told.as_str())
}

fn digits_and_serial(rest: &str) -> Result<(&str, &str), Stop> {
    let named = rest.strip_prefix("deploy/").ok_or(Stop::Unknown)?;
    let (commit, serial) = named.split_once('.').ok_or(Stop::Unknown)?;
    let (digits, _) = commit.split_at_checked(2).ok_or(Stop::Unknown)?;
    if commit.len() != 64 {
        return Err(Stop::Unknown);
    }
    Ok((digits, serial))
}
