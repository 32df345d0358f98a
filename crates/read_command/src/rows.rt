//! The rows of a listing.
ghost use Rattle.std.specs.Prelude.{◌≡◌, ◌++◌, ◌∷◌, [], IfOk, OnOk};
ghost use Rattle.ost_types.specs.Path.{is_below};
ghost use Rattle.read_command.specs.Listing.{row_of, rows_below};

use ost_types::{FsPath, NoMemory, NodeName, PathMap, TryCopy};
use script::LsRow;
use std::alloc::Global;

/// The rows of the path and of all below it, in their order.
pub(crate) fn rows_below(
    alloc: Global,
    tree: &PathMap,
    path: &FsPath,
) -> Result<Vec<LsRow>, NoMemory>
    ensures { IfOk result (λ rows. rows.items ≡ rows_below path.now tree.now) }
{
    let mut rows = Vec::new(alloc);
    for (at, node) in tree.as_slice() {
        push_row(&mut rows, path, at, node)?;
    }
    Ok(rows)
}

/// The row of the pair, where it is one of these.
fn push_row(
    rows: &mut Vec<LsRow>,
    path: &FsPath,
    at: &FsPath,
    node: &NodeName,
) -> Result<(), NoMemory>
    ensures { OnOk result (rows.new.items ≡ rows.old.items ++ rows_below path.now ((at.now, node.now) ∷ [])) }
{
    if is_below(path, at) {
        rows.push(row_of(at, node)?)?;
    }
    Ok(())
}

/// Whether the second path is the first one or lies below it.
fn is_below(path: &FsPath, at: &FsPath) -> bool
    ensures { result ≡ is_below path.now at.now }
{
    at.names().starts_with(path.names())
}

fn row_of(at: &FsPath, node: &NodeName) -> Result<LsRow, NoMemory>
    ensures { IfOk result (λ row. row ≡ row_of at.now node.now) }
{
    let path = at.copy()?;
    Ok(match node {
        NodeName::Folder(meta) => LsRow::Folder {
            uid: meta.uid,
            gid: meta.gid,
            mode: meta.mode % 0o10000,
            path,
        },
        NodeName::Leaf(file) => LsRow::Leaf { file: *file, path },
    })
}
