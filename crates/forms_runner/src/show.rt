//! A value as text.
use crate::known::known;
use gv_core::{GvKind, Value};
use sheet::Stop;
use std::alloc::Global;

#[cycle(show)]
fn show_all(alloc: Global, out: &mut String, values: &[Value]) -> Result<(), Stop> {
    let mut left = values;
    while let Some((value, rest)) = left.split_first() {
        show(alloc, out, value)?;
        if !rest.is_empty() {
            out.push(',')?;
        }
        left = rest;
    }
    Ok(())
}

/// Adds the value: a letter for its type and the number, or its members in brackets.
#[cycle(show)]
pub fn show(alloc: Global, out: &mut String, value: &Value) -> Result<(), Stop> {
    match value {
        Value::Byte(n) => show_number(alloc, out, 'y', *n as i128),
        Value::Bool(b) => show_number(alloc, out, 'b', *b as i128),
        Value::I16(n) => show_number(alloc, out, 'n', *n as i128),
        Value::U16(n) => show_number(alloc, out, 'q', *n as i128),
        Value::I32(n) => show_number(alloc, out, 'i', *n as i128),
        Value::U32(n) => show_number(alloc, out, 'u', *n as i128),
        Value::I64(n) => show_number(alloc, out, 'x', *n as i128),
        Value::U64(n) => show_number(alloc, out, 't', *n as i128),
        Value::Handle(n) => show_number(alloc, out, 'h', *n as i128),
        Value::Double(bytes) => show_double(alloc, out, bytes),
        Value::Str(text) => show_text(out, text.as_slice()),
        Value::Array(items) => {
            out.push('[')?;
            show_all(alloc, out, items)?;
            end(out, ']')
        }
        Value::Tuple(items) => {
            out.push('(')?;
            show_all(alloc, out, items)?;
            end(out, ')')
        }
        Value::Entry(key, item) => {
            out.push('{')?;
            show(alloc, out, key)?;
            out.push(':')?;
            show(alloc, out, item)?;
            end(out, '}')
        }
        Value::Maybe(content) => match content {
            Some(item) => {
                out.push('+')?;
                show(alloc, out, item)
            }
            None => end(out, '-'),
        },
        Value::Variant(kind, item) => {
            begin_variant(out, kind)?;
            show(alloc, out, item)?;
            end(out, '>')
        }
    }
}

fn show_number(alloc: Global, out: &mut String, letter: char, n: i128) -> Result<(), Stop> {
    out.push(letter)?;
    out.push_str(&format!(in alloc; "{n}")?)?;
    Ok(())
}

fn show_text(out: &mut String, text: &[u8]) -> Result<(), Stop> {
    out.push('\'')?;
    out.push_str(str_of(text)?)?;
    out.push('\'')?;
    Ok(())
}

fn begin_variant(out: &mut String, kind: &GvKind) -> Result<(), Stop> {
    out.push('<')?;
    out.push_str(str_of(kind.text())?)?;
    out.push(' ')?;
    Ok(())
}

fn end(out: &mut String, mark: char) -> Result<(), Stop> {
    Ok(out.push(mark)?)
}

fn show_double(alloc: Global, out: &mut String, bytes: &[u8; 8]) -> Result<(), Stop> {
    out.push('d')?;
    for byte in bytes {
        out.push_str(&format!(in alloc; "{byte:02x}")?)?;
    }
    Ok(())
}

fn str_of(bytes: &[u8]) -> Result<&str, Stop> {
    known(std::str::from_utf8(bytes))
}
