//! Replies as lines.
ghost use Rattle.std.specs.Prelude.{◌≡◌, ◌++◌, ◌∷◌, [], map, codes, IfOk, OnOk};
ghost use Rattle.std.specs.Fmt.{decimal};
ghost use Rattle.ost_types.specs.Csum.{hex_of};
ghost use Rattle.ost_types.specs.Path.{text_of};
ghost use Rattle.script.specs.Field.{escaped, field_text};
ghost use Rattle.script.specs.Lines.{answer_text, lane_lines, pruned_text, replies_text, reply_line, value_text};

use crate::answer::{Answer, Reply};
use crate::escape::{append_bytes, append_field};
use crate::row_lines::{append_log, append_ls, append_refs, append_status};
use ost_types::{Bytes, Csum, FsPath, NoMemory};
use repo_layout::RefName;
use std::alloc::Global;

/// The lines of all replies, lane by lane: the number of the lane, of the command in it, and the answer.
pub fn write_replies(alloc: Global, lanes: &[Vec<Reply>]) -> Result<Bytes, NoMemory>
    ensures { IfOk result (λ t. t ≡ replies_text (map (λ lane. lane.items) lanes.now)) }
{
    let mut text = Bytes::new(alloc);
    for (lane, replies) in lanes.iter().enumerate() {
        append_lane(alloc, &mut text, lane, replies)?;
    }
    Ok(text)
}

fn append_lane(
    alloc: Global,
    text: &mut Bytes,
    lane: usize,
    replies: &[Reply],
) -> Result<(), NoMemory>
    ensures { OnOk result (text.new ≡ text.old ++ lane_lines lane 0 replies.now) }
{
    for (command, reply) in replies.iter().enumerate() {
        append_reply(alloc, text, lane, command, &reply.answer)?;
    }
    Ok(())
}

fn append_reply(
    alloc: Global,
    text: &mut Bytes,
    lane: usize,
    command: usize,
    answer: &Answer,
) -> Result<(), NoMemory>
    ensures { OnOk result (text.new ≡ text.old ++ reply_line lane command answer.now) }
{
    text.append(format!(in alloc; "{lane} {command} ")?.as_bytes())?;
    append_answer(alloc, text, answer)?;
    text.push(b'\n')?;
    Ok(())
}

fn append_answer(alloc: Global, text: &mut Bytes, answer: &Answer) -> Result<(), NoMemory>
    ensures { OnOk result (text.new ≡ text.old ++ answer_text answer.now) }
{
    match answer {
        Answer::Nothing => text.append(b"ok"),
        Answer::Refs(rows) => append_refs(alloc, text, rows),
        Answer::Status(rows) => append_status(alloc, text, rows),
        Answer::Commit(commit) => append_sum(text, b"ok ", commit),
        Answer::Log(rows) => append_log(alloc, text, rows),
        Answer::Ls(rows) => append_ls(alloc, text, rows),
        Answer::Content(content) => append_content(text, content),
        Answer::Pruned { kept, removed } => append_pruned(alloc, text, *kept, *removed),
        Answer::NoRef => text.append(b"refused NoRef"),
        Answer::NoCommit(commit) => append_sum(text, b"refused NoCommit ", commit),
        Answer::Partial(commit) => append_sum(text, b"refused Partial ", commit),
        Answer::NoPath(path) => append_path(text, b"refused NoPath ", path),
        Answer::NotFile(path) => append_path(text, b"refused NotFile ", path),
        Answer::DestExists(path) => append_path(text, b"refused DestExists ", path),
        Answer::RefMoved { seen, now } => append_moved(text, seen, now),
        Answer::RefClash(name) => append_clash(text, name),
        Answer::BadTree(path) => append_path(text, b"refused BadTree ", path),
        Answer::TooMany(count) => append_too_many(alloc, text, *count),
        Answer::NoMemory => text.append(b"fault NoMemory"),
        Answer::DiskFault => text.append(b"fault DiskFault"),
        Answer::Halted(count) => append_halted(alloc, text, *count),
        Answer::Outside(path) => append_path(text, b"fault Outside ", path),
    }
}

pub fn append_sum(text: &mut Bytes, before: &[u8], commit: &Csum) -> Result<(), NoMemory>
    ensures { OnOk result (text.new ≡ text.old ++ (before.now ++ hex_of commit.now)) }
{
    text.append(before)?;
    text.append(&commit.to_hex())
}

fn append_moved(text: &mut Bytes, seen: &Option<Csum>, now: &Option<Csum>) -> Result<(), NoMemory>
    ensures { OnOk result (text.new ≡ text.old ++ (codes "refused RefMoved " ++ (value_text seen.now ++ (32 ∷ value_text now.now)))) }
{
    text.append(b"refused RefMoved ")?;
    append_value(text, seen)?;
    text.push(b' ')?;
    append_value(text, now)
}

fn append_value(text: &mut Bytes, value: &Option<Csum>) -> Result<(), NoMemory>
    ensures { OnOk result (text.new ≡ text.old ++ value_text value.now) }
{
    match value {
        None => text.append(b"none"),
        Some(commit) => text.append(&commit.to_hex()),
    }
}

fn append_clash(text: &mut Bytes, name: &RefName) -> Result<(), NoMemory>
    ensures { OnOk result (text.new ≡ text.old ++ (codes "refused RefClash " ++ name.now)) }
{
    append_both(text, b"refused RefClash ", name.as_slice())
}

pub fn append_path(text: &mut Bytes, before: &[u8], path: &FsPath) -> Result<(), NoMemory>
    ensures { OnOk result (text.new ≡ text.old ++ (before.now ++ escaped (text_of path.now))) }
{
    let path = path.text()?;
    append_escaped(text, before, path.as_slice())
}

fn append_content(text: &mut Bytes, content: &Bytes) -> Result<(), NoMemory>
    ensures { OnOk result (text.new ≡ text.old ++ (codes "ok " ++ field_text content.now)) }
{
    text.append(b"ok ")?;
    append_bytes(text, content.as_slice())
}

fn append_pruned(
    alloc: Global,
    text: &mut Bytes,
    kept: usize,
    removed: usize,
) -> Result<(), NoMemory>
    ensures { OnOk result (text.new ≡ text.old ++ pruned_text kept removed) }
{
    text.append(format!(in alloc; "ok {kept} {removed}")?.as_bytes())
}

fn append_too_many(alloc: Global, text: &mut Bytes, count: u64) -> Result<(), NoMemory>
    ensures { OnOk result (text.new ≡ text.old ++ (codes "refused TooMany " ++ decimal count)) }
{
    text.append(format!(in alloc; "refused TooMany {count}")?.as_bytes())
}

fn append_halted(alloc: Global, text: &mut Bytes, count: u64) -> Result<(), NoMemory>
    ensures { OnOk result (text.new ≡ text.old ++ (codes "fault Halted " ++ decimal count)) }
{
    text.append(format!(in alloc; "fault Halted {count}")?.as_bytes())
}

fn append_both(text: &mut Bytes, before: &[u8], behind: &[u8]) -> Result<(), NoMemory>
    ensures { OnOk result (text.new ≡ text.old ++ (before.now ++ behind.now)) }
{
    text.append(before)?;
    text.append(behind)
}

fn append_escaped(text: &mut Bytes, before: &[u8], behind: &[u8]) -> Result<(), NoMemory>
    ensures { OnOk result (text.new ≡ text.old ++ (before.now ++ escaped behind.now)) }
{
    text.append(before)?;
    append_field(text, behind)
}
