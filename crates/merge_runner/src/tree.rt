//! Trees as text: a path, `:` and a node for each, with `,` between them. `F` is a folder of mode 755, `G` one of mode 700, and
//! any other letter a leaf.
ghost use Rattle.std.specs.Prelude.{◌≡◌, ◌∷◌, [], true, IfOk, Some};
ghost use Rattle.ost_types.specs.declared.meta.Meta.{Meta};
ghost use Rattle.ost_types.specs.declared.node.NodeName.TheVariants.{Folder};
ghost use Rattle.ost_types.specs.Path.{Name, Path, under};
ghost use Rattle.ost_types.specs.PathMap.{node_at};
ghost use Rattle.etc_merge.specs.Merging.{IsTreeMap};

use ost_types::{Csum, FsPath, Meta, Name, NodeName, PathMap, Xattrs, is_folder_mode};
use sheet::Stop;
use std::alloc::Global;

pub fn tree_of(alloc: Global, text: &str) -> Result<PathMap, Stop>
    ensures { IfOk result IsTreeMap }
{
    let mut tree = PathMap::new(alloc);
    for piece in text.split(',') {
        add_piece(alloc, &mut tree, piece)?;
    }
    if is_tree(&tree) {
        Ok(tree)
    } else {
        Err(Stop::Unknown)
    }
}

fn add_piece(alloc: Global, tree: &mut PathMap, piece: &str) -> Result<(), Stop> {
    let (path, node) = piece.split_once(':').ok_or(Stop::Unknown)?;
    let path = FsPath::parse(alloc, path.as_bytes()).map_err(|_| Stop::Unknown)?;
    if !tree.fits(&path) {
        return Err(Stop::Unknown);
    }
    match node {
        "F" => add_folder(alloc, tree, path, 0o040755),
        "G" => add_folder(alloc, tree, path, 0o040700),
        _ => {
            let letter = *node.as_bytes().first().ok_or(Stop::Unknown)?;
            tree.push(path, NodeName::Leaf(Csum::from_bytes([letter; 32])))?;
            Ok(())
        }
    }
}

fn add_folder(alloc: Global, tree: &mut PathMap, path: FsPath, mode: u32) -> Result<(), Stop> {
    if !is_folder_mode(mode) || !tree.fits(&path) {
        return Err(Stop::Unknown);
    }
    let meta = Meta {
        uid: 0,
        gid: 0,
        mode,
        xattrs: Xattrs::new(alloc),
    };
    tree.push(path, NodeName::Folder(meta))?;
    Ok(())
}

pub fn add_shown(text: &mut Vec<u8>, tree: &PathMap) -> Result<(), Stop> {
    let mut is_first = true;
    for (path, node) in tree.as_slice() {
        if !is_first {
            text.push(b',')?;
        }
        is_first = false;
        text.extend_from_slice(path.text()?.as_slice())?;
        text.push(b':')?;
        text.push(letter_of(node))?;
    }
    Ok(())
}

fn letter_of(node: &NodeName) -> u8 {
    match node {
        NodeName::Leaf(csum) => csum.bytes()[0],
        NodeName::Folder(meta) if meta.mode == 0o040700 => b'G',
        NodeName::Folder(_) => b'F',
    }
}

/// Whether the map is a tree.
fn is_tree(tree: &PathMap) -> bool
    ensures { result ≡ true → IsTreeMap tree.now }
{
    let entries = tree.as_slice();
    if !has_folder(entries, &[]) {
        return false;
    }
    let mut left = entries;
    while let Some((first, rest)) = left.split_first() {
        if !has_parent(entries, &first.0) {
            return false;
        }
        left = rest;
    }
    true
}

fn has_parent(entries: &[(FsPath, NodeName)], path: &FsPath) -> bool
    ensures { result ≡ true → (f : Path) (x : Name) → path.now ≡ under f x → (m : Meta) × (node_at entries.now f ≡ Some (Folder m)) }
{
    match path.names().split_last() {
        Some((_, parent)) => has_folder(entries, parent),
        None => true,
    }
}

fn has_folder(entries: &[(FsPath, NodeName)], names: &[Name]) -> bool
    ensures { result ≡ true → (m : Meta) × (node_at entries.now names.now ≡ Some (Folder m)) }
{
    let mut left = entries;
    while let Some((first, rest)) = left.split_first() {
        if first.0.names() == names {
            return is_folder(&first.1);
        }
        left = rest;
    }
    false
}

fn is_folder(node: &NodeName) -> bool
    ensures { result ≡ true → (m : Meta) × (node.now ≡ Folder m) }
{
    match node {
        NodeName::Folder(_) => true,
        NodeName::Leaf(_) => false,
    }
}
