//! A folder of many files.
use sheet::Stop;
use std::alloc::Global;

// The last bytes of a number, the lowest first.
fn put(bytes: &mut Vec<u8>, number: usize, width: usize) -> Result<(), Stop> {
    for byte in (number as u64).to_le_bytes().iter().take(width) {
        bytes.push(*byte)?;
    }
    Ok(())
}

fn add_row(
    bytes: &mut Vec<u8>,
    ends: &mut Vec<usize>,
    name: &[u8],
    sum: &[u8],
) -> Result<(), Stop> {
    bytes.extend_from_slice(name)?;
    bytes.push(0)?;
    bytes.extend_from_slice(sum)?;
    put(bytes, name.len().wrapping_add(1), 1)?;
    ends.push(bytes.len())?;
    Ok(())
}

/// The bytes of a folder of the files `f00000` to `f01558` and one of so many letters `g`, all with this sum.
pub fn many_files(alloc: Global, letters: u32, sum: &[u8]) -> Result<Vec<u8>, Stop> {
    let mut bytes = Vec::new(alloc);
    let mut ends = Vec::new(alloc);
    for i in 0..1559u32 {
        let name = format!(in alloc; "f{i:05}")?;
        add_row(&mut bytes, &mut ends, name.as_bytes(), sum)?;
    }
    let mut last = Vec::new(alloc);
    for _ in 0..letters {
        last.push(b'g')?;
    }
    add_row(&mut bytes, &mut ends, &last, sum)?;
    add_ends(&mut bytes, &ends)?;
    Ok(bytes)
}

// The offsets of the entries, and that of the list behind them.
fn add_ends(bytes: &mut Vec<u8>, ends: &[usize]) -> Result<(), Stop> {
    let width = if bytes.len() <= 62_415 { 2 } else { 4 };
    for end in ends {
        put(bytes, *end, width)?;
    }
    let all = bytes.len();
    put(bytes, all, if all <= 65_533 { 2 } else { 4 })
}
