//! Calls that read.
use crate::meta::{add_meta, add_word, path};
use crate::word::{fault_word, word};
use fs_trait::{Fs, FsErr, Node};
use ost_types::{Bytes, FsPath, Meta, Names};
use sheet::{Fields, Stop, number, text, yes_or_no};
use std::alloc::Global;

pub fn look<F: Fs>(fs: &mut F, name: &str, fields: &mut Fields) -> Result<Vec<u8>, Stop> {
    match name {
        "faults" => number(fields.alloc(), fs.faults()),
        "clock" => number(fields.alloc(), fs.clock()),
        _ => look_at(fs, name, fields),
    }
}

fn look_at<F: Fs>(fs: &mut F, name: &str, fields: &mut Fields) -> Result<Vec<u8>, Stop> {
    let at = path(fields)?;
    match name {
        "part" => part(fs, &at, fields),
        "same" => same(fs, &at, fields),
        _ => see(fields.alloc(), fs, name, &at),
    }
}

fn part<F: Fs>(fs: &mut F, at: &FsPath, fields: &mut Fields) -> Result<Vec<u8>, Stop> {
    let from = fields.number()?;
    let max = fields.small()?;
    if max < 1 {
        return Err(Stop::Unknown);
    }
    told_bytes(fields.alloc(), fs.read_part(at, from, max))
}

fn same<F: Fs>(fs: &mut F, at: &FsPath, fields: &mut Fields) -> Result<Vec<u8>, Stop> {
    let other = path(fields)?;
    told_same(fields.alloc(), fs.same(at, &other))
}

fn told_same(alloc: Global, found: Result<bool, FsErr>) -> Result<Vec<u8>, Stop> {
    match found {
        Ok(is_same) => yes_or_no(alloc, is_same),
        Err(fault) => text(alloc, fault_word(fault)),
    }
}

// What needs no more than the path.
fn see<F: Fs>(alloc: Global, fs: &mut F, name: &str, at: &FsPath) -> Result<Vec<u8>, Stop> {
    match name {
        "read" | "read_part" | "list" => text(alloc, word(read(fs, name, at))),
        "kind" | "stat" | "mode" | "look" => see_node(alloc, fs, name, at),
        "bytes" => told_bytes(alloc, fs.read(at)),
        "names" => told_names(alloc, fs.list(at)),
        _ => Err(Stop::Unknown),
    }
}

fn read<F: Fs>(fs: &mut F, name: &str, at: &FsPath) -> Result<(), FsErr> {
    match name {
        "read" => fs.read(at).map(|_| ()),
        "read_part" => fs.read_part(at, 0, 1).map(|_| ()),
        _ => fs.list(at).map(|_| ()),
    }
}

fn told_bytes(alloc: Global, found: Result<Bytes, FsErr>) -> Result<Vec<u8>, Stop> {
    match found {
        Ok(bytes) => Ok(bytes.into_vec()),
        Err(fault) => text(alloc, fault_word(fault)),
    }
}

fn told_names(alloc: Global, found: Result<Names, FsErr>) -> Result<Vec<u8>, Stop> {
    match found {
        Ok(names) => joined(alloc, &names),
        Err(fault) => text(alloc, fault_word(fault)),
    }
}

// Each name behind a space.
fn joined(alloc: Global, names: &Names) -> Result<Vec<u8>, Stop> {
    let mut told = text(alloc, "names")?;
    for name in names.as_slice() {
        add_word(&mut told, name.as_slice())?;
    }
    Ok(told)
}

// What stands there: its kind; all that is known of it; its mode; or a file by its bytes.
fn see_node<F: Fs>(alloc: Global, fs: &mut F, how: &str, at: &FsPath) -> Result<Vec<u8>, Stop> {
    match fs.stat(at) {
        Ok(None) => text(alloc, "none"),
        Ok(Some(node)) => see_known(alloc, fs, how, at, &node),
        Err(fault) => text(alloc, fault_word(fault)),
    }
}

fn see_known<F: Fs>(
    alloc: Global,
    fs: &mut F,
    how: &str,
    at: &FsPath,
    node: &Node,
) -> Result<Vec<u8>, Stop> {
    match how {
        "kind" => text(alloc, kind_of(node)),
        "stat" => told_node(alloc, node),
        "mode" => told_mode(alloc, node),
        _ => held(alloc, fs, at, node),
    }
}

fn kind_of(node: &Node) -> &'static str {
    match node {
        Node::Folder(_) => "folder",
        Node::File { .. } => "file",
        Node::Link { .. } => "link",
    }
}

fn meta_of(node: &Node) -> &Meta {
    let (Node::Folder(meta) | Node::File { meta, .. } | Node::Link { meta, .. }) = node;
    meta
}

fn told_mode(alloc: Global, node: &Node) -> Result<Vec<u8>, Stop> {
    let mode = meta_of(node).mode;
    let told = format!(in alloc; "{mode:o}")?;
    text(alloc, told.as_str())
}

fn told_node(alloc: Global, node: &Node) -> Result<Vec<u8>, Stop> {
    let mut told = text(alloc, kind_of(node))?;
    add_own(alloc, &mut told, node)?;
    add_meta(alloc, &mut told, meta_of(node))?;
    Ok(told)
}

// What only a node of its kind has.
fn add_own(alloc: Global, told: &mut Vec<u8>, node: &Node) -> Result<(), Stop> {
    match node {
        Node::Folder(_) => Ok(()),
        Node::File { len, .. } => add_len(alloc, told, *len),
        Node::Link { target, .. } => add_word(told, target.as_slice()),
    }
}

fn add_len(alloc: Global, told: &mut Vec<u8>, len: u64) -> Result<(), Stop> {
    let len = number(alloc, len)?;
    add_word(told, &len)
}

fn held<F: Fs>(alloc: Global, fs: &mut F, at: &FsPath, node: &Node) -> Result<Vec<u8>, Stop> {
    match node {
        Node::File { len, .. } => held_bytes(alloc, fs.read(at), *len),
        other => text(alloc, kind_of(other)),
    }
}

fn held_bytes(alloc: Global, found: Result<Bytes, FsErr>, len: u64) -> Result<Vec<u8>, Stop> {
    match found {
        Ok(bytes) => told_file(alloc, bytes.as_slice(), len),
        Err(fault) => text(alloc, fault_word(fault)),
    }
}

fn told_file(alloc: Global, bytes: &[u8], len: u64) -> Result<Vec<u8>, Stop> {
    if bytes.len() as u64 != len {
        return text(alloc, "another length");
    }
    let mut told = text(alloc, "file")?;
    add_word(&mut told, bytes)?;
    Ok(told)
}
