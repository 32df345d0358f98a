//! Rows as lines: their number, and behind it each on a line of its own, behind one space.
ghost use Rattle.std.specs.Prelude.{◌≡◌, ◌++◌, ◌∷◌, length, codes, OnOk};
ghost use Rattle.std.specs.List.{flat_map};
ghost use Rattle.std.specs.Fmt.{decimal};
ghost use Rattle.ost_types.specs.Csum.{hex_of};
ghost use Rattle.ost_types.specs.Path.{text_of};
ghost use Rattle.script.specs.Field.{escaped};
ghost use Rattle.script.specs.Lines.{count_text, deployment_text, folder_row, lane_text, leaf_row, log_row, ls_row, octal, ref_row, rows_text, status_row, status_rows};

use crate::escape::append_bytes;
use crate::lines::{append_path, append_sum};
use crate::rows::{LogRow, LsRow, StatusRow};
use boot_model::DepId;
use ost_types::{Bytes, Csum, FsPath, NoMemory};
use repo_layout::RefName;
use std::alloc::Global;

pub fn append_refs(
    alloc: Global,
    text: &mut Bytes,
    rows: &[(RefName, Csum)],
) -> Result<(), NoMemory>
    ensures { OnOk result (text.new ≡ text.old ++ rows_text ref_row rows.now) }
{
    append_count(alloc, text, rows.len())?;
    for row in rows {
        append_ref(text, &row.0, &row.1)?;
    }
    Ok(())
}

pub fn append_log(alloc: Global, text: &mut Bytes, rows: &[LogRow]) -> Result<(), NoMemory>
    ensures { OnOk result (text.new ≡ text.old ++ rows_text log_row rows.now) }
{
    append_count(alloc, text, rows.len())?;
    for row in rows {
        append_log_row(alloc, text, row)?;
    }
    Ok(())
}

pub fn append_ls(alloc: Global, text: &mut Bytes, rows: &[LsRow]) -> Result<(), NoMemory>
    ensures { OnOk result (text.new ≡ text.old ++ rows_text ls_row rows.now) }
{
    append_count(alloc, text, rows.len())?;
    for row in rows {
        append_ls_row(alloc, text, row)?;
    }
    Ok(())
}

pub fn append_status(alloc: Global, text: &mut Bytes, rows: &[StatusRow]) -> Result<(), NoMemory>
    ensures { OnOk result (text.new ≡ text.old ++ (count_text (length rows.now) ++ status_rows 0 rows.now)) }
{
    append_count(alloc, text, rows.len())?;
    for (index, row) in rows.iter().enumerate() {
        append_status_row(alloc, text, index, row)?;
    }
    Ok(())
}

fn append_count(alloc: Global, text: &mut Bytes, count: usize) -> Result<(), NoMemory>
    ensures { OnOk result (text.new ≡ text.old ++ count_text count) }
{
    text.append(format!(in alloc; "ok {count}")?.as_bytes())
}

fn append_ref(text: &mut Bytes, name: &RefName, commit: &Csum) -> Result<(), NoMemory>
    ensures { OnOk result (text.new ≡ text.old ++ ref_row (name.now, commit.now)) }
{
    text.append(b"\n ")?;
    text.append(name.as_slice())?;
    append_sum(text, b" ", commit)
}

fn append_log_row(alloc: Global, text: &mut Bytes, row: &LogRow) -> Result<(), NoMemory>
    ensures { OnOk result (text.new ≡ text.old ++ log_row row.now) }
{
    append_sum(text, b"\n ", &row.commit)?;
    let time = row.time;
    text.append(format!(in alloc; " {time} ")?.as_bytes())?;
    append_bytes(text, row.subject.as_slice())
}

fn append_ls_row(alloc: Global, text: &mut Bytes, row: &LsRow) -> Result<(), NoMemory>
    ensures { OnOk result (text.new ≡ text.old ++ ls_row row.now) }
{
    match row {
        LsRow::Folder {
            uid,
            gid,
            mode,
            path,
        } => append_folder(alloc, text, *uid, *gid, *mode, path),
        LsRow::Leaf { file, path } => append_leaf(text, file, path),
    }
}

fn append_folder(
    alloc: Global,
    text: &mut Bytes,
    uid: u32,
    gid: u32,
    mode: u32,
    path: &FsPath,
) -> Result<(), NoMemory>
    ensures { OnOk result (text.new ≡ text.old ++ folder_row uid gid mode path.now) }
{
    let meta = format!(in alloc; "\n folder {uid} {gid} {mode:o} ")?;
    append_path(text, meta.as_bytes(), path)
}

fn append_leaf(text: &mut Bytes, file: &Csum, path: &FsPath) -> Result<(), NoMemory>
    ensures { OnOk result (text.new ≡ text.old ++ leaf_row file.now path.now) }
{
    append_sum(text, b"\n leaf ", file)?;
    append_path(text, b" ", path)
}

fn append_status_row(
    alloc: Global,
    text: &mut Bytes,
    index: usize,
    row: &StatusRow,
) -> Result<(), NoMemory>
    ensures { OnOk result (text.new ≡ text.old ++ status_row index row.now) }
{
    text.append(format!(in alloc; "\n {index} ")?.as_bytes())?;
    append_deployment(alloc, text, &row.id)?;
    text.push(b' ')?;
    append_user(alloc, text, row.lane)
}

fn append_deployment(alloc: Global, text: &mut Bytes, id: &DepId) -> Result<(), NoMemory>
    ensures { OnOk result (text.new ≡ text.old ++ deployment_text id.now) }
{
    text.append(id.os.as_slice())?;
    append_sum(text, b" ", &id.commit)?;
    let serial = id.serial;
    text.append(format!(in alloc; ".{serial}")?.as_bytes())
}

// the lane that uses a deployment
fn append_user(alloc: Global, text: &mut Bytes, lane: Option<u8>) -> Result<(), NoMemory>
    ensures { OnOk result (text.new ≡ text.old ++ lane_text lane) }
{
    match lane {
        None => text.append(b"-"),
        Some(lane) => text.append(format!(in alloc; "{lane}")?.as_bytes()),
    }
}
