//! The next node of a tree.
ghost use Rattle.std.specs.Prelude.{◌≡◌, ◌++◌, ◌∷◌, [], IfOk, MatchOption, true, false};
ghost use Rattle.ost_forms.specs.declared.tree_item.TreeItem.{TreeItem};
ghost use Rattle.script_reader.specs.Script.{Ascends, IsNextNode};

use crate::node::read_node;
use ost_forms::TreeItem;
use ost_types::{Items, NoMemory};
use std::alloc::Global;

/// The nodes with that of the line, or None where it is no node or stands in the wrong order.
pub fn next_node(
    alloc: Global,
    items: Items<TreeItem>,
    line: &[u8],
) -> Result<Option<Items<TreeItem>>, NoMemory>
    ensures { IfOk result (λ o. MatchOption o ((item : TreeItem) → ¬ (IsNextNode items line.now item)) (λ more. (item : TreeItem) × IsNextNode items line.now item × (more ≡ items ++ item ∷ []))) }
{
    match read_node(alloc, line)? {
        Some(item) => add_node(items, item),
        None => Ok(None),
    }
}

fn add_node(mut items: Items<TreeItem>, item: TreeItem) -> Result<Option<Items<TreeItem>>, NoMemory>
    ensures { IfOk result (λ o. MatchOption o (¬ (Ascends items item)) (λ more. Ascends items item × (more ≡ items ++ item ∷ []))) }
{
    if !ascends(items.as_slice(), &item) {
        return Ok(None);
    }
    items.push(item)?;
    Ok(Some(items))
}

/// Whether the path of the last node is less than that of this one.
fn ascends(items: &[TreeItem], item: &TreeItem) -> bool
    ensures yes { result ≡ true → Ascends items.now item.now }
    ensures no { result ≡ false → ¬ (Ascends items.now item.now) }
{
    match items.last() {
        Some(last) => last.path < item.path,
        None => true,
    }
}
