//! Texts that are looked for.
ghost use Rattle.std.specs.Prelude.{◌≡◌, ◌<◌, ◌≤◌, ◌↔◌, ◌++◌, ◌∷◌, ℕ, IfOk, IsTrue, Contains, length, true, false};
ghost use Rattle.repo_layout.specs.Fixed.{number};
ghost use Rattle.boot_model.specs.declared.item.BootItem.{BootItem as Item};
ghost use Rattle.boot_model.specs.Items.{IsAt};
ghost use Rattle.boot_compare.specs.Comparing.{AreAllTexts, IsTaken};

use boot_model::{BootItem, entry_text};
use ost_types::{Bytes, NoMemory};
use repo_layout::Version;
use std::alloc::Global;

/// The texts of the entries of a list, in its order.
pub(crate) fn all_texts(
    alloc: Global,
    loader: Version,
    items: &[BootItem],
) -> Result<Vec<Bytes>, NoMemory>
    ensures { IfOk result (λ v. AreAllTexts (number loader) items.now v.items) }
{
    let mut texts = Vec::with_capacity(alloc, items.len())?;
    for index in 0..items.len() {
        texts.push(entry_text(alloc, loader, items, index)?)?;
    }
    Ok(texts)
}

/// Takes a text away, the first that is this one; whether there was one.
pub(crate) fn take_text(texts: &mut Vec<Bytes>, text: &[u8]) -> bool
    ensures { IsTaken texts.old.items text.now result texts.new.items }
{
    for index in 0..texts.len() {
        if texts[index].as_slice() == text {
            texts.remove(index);
            return true;
        }
    }
    false
}
