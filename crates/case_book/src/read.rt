//! A book of cases, from its first line to its last.
use crate::block::{Block, read_blocks};
use crate::book::Book;
use crate::draft::Draft;
use crate::fault::{BookFault, LineFault};
use crate::fields::fields_of;
use crate::keyword::keyword_of;
use std::alloc::Global;

/// The book that a text is, or the first line that can't stand where it stands.
pub fn read_book(alloc: Global, text: &[u8]) -> Result<Book, BookFault> {
    let mut draft = Draft::new(alloc);
    let blocks = read_blocks(alloc, text)?;
    for block in &blocks {
        if let Err(fault) = take_block(alloc, &mut draft, block) {
            return Err(fault.at(block.line));
        }
    }
    Ok(draft.into_book())
}

fn take_block(alloc: Global, draft: &mut Draft, block: &Block) -> Result<(), LineFault> {
    let fields = fields_of(alloc, block.words.as_slice())?;
    let [word, fields @ ..] = fields.as_slice() else {
        return Err(LineFault::Bad);
    };
    match keyword_of(word) {
        Some(keyword) => draft.take(keyword, fields, block),
        None => Err(LineFault::Bad),
    }
}
