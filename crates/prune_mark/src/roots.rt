//! The roots are marked.
ghost use Rattle.std.specs.Prelude.{◌≡◌, ◌<◌, ◌≤◌, ◌+◌, length, vec_len, vec_capacity, Contains, IfOk};
ghost use Rattle.prune_mark.specs.Flags.{Begins, MarksRoot};

use crate::flags::{mark_commit, mark_leaf, mark_tree};
use crate::links::Near;
use ost_types::{Csum, Kind, NoMemory, ObjName};
use std::alloc::Global;

/// Flags beside names, the commits that were found, and the entries that wait.
#[derive(Drop)]
pub struct Begun {
    pub flags: Vec<bool>,
    pub found: Vec<Near>,
    pub pending: Vec<Csum>,
}

/// The roots that are among the names, which ascend, are marked.
pub fn begin(alloc: Global, names: &[ObjName], roots: &[ObjName]) -> Result<Begun, NoMemory>
    ensures { IfOk result (λ b. Begins names.now (Contains roots.now) b.flags.items b.found.items b.pending.items) }
{
    let count = names.len();
    let most = roots.len();
    let mut flags = Vec::with_capacity(alloc, count)?;
    flags.resize(count, false)?;
    let mut found = Vec::with_capacity(alloc, most)?;
    let mut pending = Vec::with_capacity(alloc, most)?;
    for root in roots {
        mark_root(names, &mut flags, &mut found, &mut pending, root);
    }
    Ok(Begun {
        flags,
        found,
        pending,
    })
}

fn mark_root(
    names: &[ObjName],
    flags: &mut Vec<bool>,
    found: &mut Vec<Near>,
    pending: &mut Vec<Csum>,
    root: &ObjName,
)
    requires long { length flags.old.items ≡ length names.now }
    requires found { vec_len found.old < vec_capacity found.old }
    requires pending { vec_len pending.old < vec_capacity pending.old }
    ensures marks { MarksRoot names.now root.now flags.old.items found.old.items pending.old.items flags.new.items found.new.items pending.new.items }
    ensures found { (vec_capacity found.new ≡ vec_capacity found.old) × (vec_len found.new ≤ vec_len found.old + 1) }
    ensures pending { (vec_capacity pending.new ≡ vec_capacity pending.old) × (vec_len pending.new ≤ vec_len pending.old + 1) }
{
    match root.kind {
        Kind::Commit => {
            let near = Near {
                distance: 0,
                commit: root.csum,
            };
            mark_commit(names, flags, found, near);
        }
        Kind::DirTree => mark_tree(names, flags, pending, root.csum),
        Kind::DirMeta | Kind::File => mark_leaf(names, flags, root),
    }
}
