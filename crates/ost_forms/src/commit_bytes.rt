//! A commit's bytes.

ghost use Rattle.std.specs.Prelude.{◌≡◌, ◌↔◌, ◌⊎◌, Some, IfOk, IsTrue, length, true};
ghost use Rattle.std.specs.Option.{is_some};
ghost use Rattle.ost_forms.specs.Finds.{Finds};
ghost use Rattle.ost_forms.specs.Commit.{commit_form, parent_bytes, HasCommitSums, ReadsCommit};
ghost use Rattle.ost_forms.specs.CommitRow.{parts_of, row_parts};

use crate::commit::Commit;
use crate::commit_join::{CommitRoot, join_commit};
use crate::commit_row::CommitRow;
use crate::dirmeta::OBJECT_LIMIT;
use crate::fault::ObjFault;
use crate::inner_value::read_inner;
use crate::number::number_64;
use crate::object_type::ObjectType;
use crate::pieces::members;
use crate::sum::sum_at;
use crate::text::read_text;
use ost_types::{Bytes, Csum, NoMemory};
use std::alloc::Global;

/// The commit whose object these bytes are.
pub fn read_commit(alloc: Global, bytes: &[u8]) -> Result<Commit, ObjFault>
    ensures { ReadsCommit parts_of bytes.now result }
{
    if bytes.len() > OBJECT_LIMIT {
        return Err(ObjFault::TooLarge(bytes.len() as u64));
    }
    let row = read_row(alloc, bytes)?;
    if !has_sums(&row) {
        return Err(ObjFault::BadSumLength);
    }
    Ok(made_of(row))
}

fn read_row<'a>(alloc: Global, bytes: &'a [u8]) -> Result<CommitRow<'a>, ObjFault>
    ensures { Finds row_parts commit_form bytes.now result }
{
    let kind = ObjectType::Commit.kind(alloc)?;
    let parts = members(alloc, &kind, bytes)?;
    let count = parts.len();
    prove!(count == 8);
    let subject = read_text(alloc, parts[3])?;
    let body = read_text(alloc, parts[4])?;
    let related = read_inner(alloc, ObjectType::AloneRelated, parts[2])?;
    let metadata = read_inner(alloc, ObjectType::AloneMetadata, parts[0])?;
    Ok(CommitRow {
        metadata,
        parent: parts[1],
        related,
        subject,
        body,
        time: number_64(parts[5]),
        tree: parts[6],
        meta: parts[7],
    })
}

fn has_sums(row: &CommitRow) -> bool
    ensures { IsTrue result ↔ HasCommitSums (row_parts row.now) }
{
    (row.parent.is_empty() || row.parent.len() == 32)
        && row.tree.len() == 32
        && row.meta.len() == 32
}

fn made_of(row: CommitRow) -> Commit
    requires form { is_some (commit_form (row_parts row)) ≡ true }
    requires sums { HasCommitSums (row_parts row) }
    ensures { parts_of result ≡ row_parts row.entry }
{
    let CommitRow {
        metadata,
        parent,
        related,
        subject,
        body,
        time,
        tree,
        meta,
    } = row;
    let parent = parent_at(parent);
    Commit {
        metadata,
        parent,
        related,
        subject,
        body,
        time,
        tree: sum_at(tree),
        meta: sum_at(meta),
    }
}

fn parent_at(bytes: &[u8]) -> Option<Csum>
    requires { (length bytes.now ≡ 0) ⊎ (length bytes.now ≡ 32) }
    ensures { parent_bytes result ≡ bytes.now }
{
    if bytes.is_empty() {
        None
    } else {
        Some(sum_at(bytes))
    }
}

/// The object of a commit.
pub fn write_commit(alloc: Global, value: &Commit) -> Result<Bytes, NoMemory>
    ensures { IfOk result (λ b. commit_form (parts_of value.now) ≡ Some b) }
{
    let root = CommitRoot {
        time: value.time,
        tree: value.tree,
        meta: value.meta,
    };
    let bytes = join_commit(
        alloc,
        &value.metadata,
        &value.related,
        &value.parent,
        &value.subject,
        &value.body,
        root,
    )?;
    Bytes::from_slice(alloc, bytes.as_slice())
}
