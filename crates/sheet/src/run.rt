use crate::bytes::bytes_of;
use crate::fields::Fields;
use crate::report::Report;
use crate::stop::Stop;
use std::alloc::Global;

/// What makes the calls of a sheet.
pub trait Bench {
    /// What the call of this name answers.
    fn answer(&mut self, name: &str, fields: Fields) -> Result<Vec<u8>, Stop>;
}

/// Makes the calls of each row in turn. A row is calls with `;` between them, then ` = ` and the answer of each of them. A call
/// is a name, or names with `,` between them, and fields. `[NAME]` begins a part, and `#` a remark.
pub fn run_sheet<B: Bench>(
    alloc: Global,
    bench: &mut B,
    sheet: &str,
    report: &mut Report,
) -> Result<(), Stop> {
    let mut number: u32 = 0;
    for line in sheet.lines() {
        number = number.saturating_add(1);
        if let Some(name) = part_named(line) {
            report.begin_part(alloc, name)?;
        } else if !line.is_empty() && !line.starts_with('#') {
            run_row(alloc, bench, line, number, report)?;
        }
    }
    report.end_part(alloc)
}

fn part_named(line: &str) -> Option<&str> {
    line.strip_prefix('[')?.strip_suffix(']')
}

fn run_row<B: Bench>(
    alloc: Global,
    bench: &mut B,
    row: &str,
    number: u32,
    report: &mut Report,
) -> Result<(), Stop> {
    let Some((calls, wanted)) = calls_and_wanted(alloc, row)? else {
        return report.add_wrong(alloc, number, "no row");
    };
    for call in calls.split(';') {
        let call = call.strip_prefix(' ').unwrap_or(call);
        let (names, fields) = name_and_fields(call);
        for name in names.split(',') {
            let found = bench.answer(name, Fields::new(alloc, fields));
            judge(alloc, report, number, name, found, &wanted)?;
        }
    }
    Ok(())
}

fn calls_and_wanted(alloc: Global, row: &str) -> Result<Option<(&str, Vec<u8>)>, Stop> {
    let Some((calls, wanted)) = row.split_once(" = ") else {
        return Ok(None);
    };
    match bytes_of(alloc, wanted) {
        Ok(wanted) => Ok(Some((calls, wanted))),
        Err(Stop::Unknown) => Ok(None),
        Err(Stop::NoMemory) => Err(Stop::NoMemory),
    }
}

fn name_and_fields(call: &str) -> (&str, Option<&str>) {
    match call.split_once(' ') {
        Some((names, fields)) => (names, Some(fields)),
        None => (call, None),
    }
}

fn judge(
    alloc: Global,
    report: &mut Report,
    number: u32,
    name: &str,
    found: Result<Vec<u8>, Stop>,
    wanted: &[u8],
) -> Result<(), Stop> {
    report.count();
    match found {
        Ok(found) if found.as_slice() == wanted => Ok(()),
        Ok(found) => report.add_other(alloc, number, name, &found),
        Err(Stop::Unknown) => report.add_wrong(alloc, number, "no call"),
        Err(Stop::NoMemory) => Err(Stop::NoMemory),
    }
}
