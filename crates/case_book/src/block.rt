//! A book as blocks: a line of words, and the text that stands below it.
use crate::fault::{BookFault, LineFault};
use ost_types::Bytes;
use script::{number_of, read_field};
use std::alloc::Global;

/// A line of words, and the text below it.
#[derive(Drop)]
pub(crate) struct Block {
    /// The number of the line in the book, from 1.
    pub line: u32,
    pub words: Bytes,
    pub text: Bytes,
    /// The text is only the front of what is meant.
    pub is_front: bool,
}

/// The blocks of a book. Empty lines, and those that begin with `#`, are passed over.
pub(crate) fn read_blocks(alloc: Global, book: &[u8]) -> Result<Vec<Block>, BookFault> {
    let mut blocks = Vec::new(alloc);
    let mut number: u32 = 0;
    for line in book.split(|byte| *byte == b'\n') {
        number = number.saturating_add(1);
        if let Err(fault) = take_line(alloc, &mut blocks, without_indent(line), number) {
            return Err(fault.at(number));
        }
    }
    Ok(blocks)
}

fn without_indent(line: &[u8]) -> &[u8] {
    let start = line
        .iter()
        .position(|byte| *byte != b' ')
        .unwrap_or(line.len());
    let (_, rest) = line.split_at(start);
    rest
}

fn take_line(
    alloc: Global,
    blocks: &mut Vec<Block>,
    line: &[u8],
    number: u32,
) -> Result<(), LineFault> {
    match line {
        [] | [b'#', ..] => Ok(()),
        [b'|', text @ ..] => take_text(blocks, text, true),
        [b'>', text @ ..] => take_text(blocks, text, false),
        [b'*', repeated @ ..] => take_repeated(alloc, blocks, repeated),
        [b'.', b'.', b'.'] => take_front(blocks),
        _ => open_block(alloc, blocks, line, number),
    }
}

fn open_block(
    alloc: Global,
    blocks: &mut Vec<Block>,
    line: &[u8],
    number: u32,
) -> Result<(), LineFault> {
    let block = Block {
        line: number,
        words: Bytes::from_slice(alloc, line)?,
        text: Bytes::new(alloc),
        is_front: false,
    };
    Ok(blocks.push(block)?)
}

fn take_text(blocks: &mut Vec<Block>, text: &[u8], is_line: bool) -> Result<(), LineFault> {
    let Some(block) = blocks.last_mut() else {
        return Err(LineFault::Bad);
    };
    block.text.append(text)?;
    if is_line {
        block.text.push(b'\n')?;
    }
    Ok(())
}

// A number, and a field that stands for what is repeated so often.
fn take_repeated(alloc: Global, blocks: &mut Vec<Block>, line: &[u8]) -> Result<(), LineFault> {
    let (count, text) = repeated(alloc, line)?;
    let Some(block) = blocks.last_mut() else {
        return Err(LineFault::Bad);
    };
    for _ in 0..count {
        block.text.append(text.as_slice())?;
    }
    Ok(())
}

fn repeated(alloc: Global, line: &[u8]) -> Result<(u64, Bytes), LineFault> {
    let end = line
        .iter()
        .position(|byte| *byte == b' ')
        .ok_or(LineFault::Bad)?;
    let (digits, rest) = line.split_at(end);
    let count = number_of(digits).ok_or(LineFault::Bad)?;
    let text = match rest {
        [_, field @ ..] => read_field(alloc, field)?,
        [] => None,
    };
    match text {
        Some(text) => Ok((count, text)),
        None => Err(LineFault::Bad),
    }
}

fn take_front(blocks: &mut Vec<Block>) -> Result<(), LineFault> {
    let Some(block) = blocks.last_mut() else {
        return Err(LineFault::Bad);
    };
    block.is_front = true;
    Ok(())
}
