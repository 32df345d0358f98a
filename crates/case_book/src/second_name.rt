//! Second names of leaves.
use crate::book::SecondName;
use crate::fault::LineFault;
use crate::fields::{fields_of, path};
use std::alloc::Global;

/// Those of lines that each have two paths.
pub(crate) fn read_second_names(alloc: Global, text: &[u8]) -> Result<Vec<SecondName>, LineFault> {
    let mut names = Vec::new(alloc);
    for line in text.split(|byte| *byte == b'\n') {
        if !line.is_empty() {
            names.push(second_name(alloc, line)?)?;
        }
    }
    Ok(names)
}

fn second_name(alloc: Global, line: &[u8]) -> Result<SecondName, LineFault> {
    let fields = fields_of(alloc, line)?;
    let [first, second] = fields.as_slice() else {
        return Err(LineFault::Bad);
    };
    Ok(SecondName {
        first: path(alloc, first)?,
        second: path(alloc, second)?,
    })
}
