//! A commit's bytes, put together from its members.

ghost use Rattle.std.specs.Prelude.{◌≡◌, Some, true, IfOk};
ghost use Rattle.std.specs.Option.{is_some};
ghost use Rattle.gv_core.specs.Tree.{view};
ghost use Rattle.ost_forms.specs.Commit.{commit_form, metadata_form, related_form, parts_from, parent_bytes};

use crate::inner_value::write_inner;
use crate::object_type::ObjectType;
use crate::pieces::container;
use crate::text::bytes_of;
use gv_core::{GvBytes, Value};
use ost_types::{Csum, NoMemory, Text};
use std::alloc::Global;

/// The time of a commit, and the names of its root.
#[derive(Clone, Copy)]
pub(crate) struct CommitRoot {
    pub(crate) time: u64,
    pub(crate) tree: Csum,
    pub(crate) meta: Csum,
}

/// The bytes of a commit. No memory holds one that is too long for its offsets.
pub(crate) fn join_commit(
    alloc: Global,
    metadata: &Value,
    related: &Value,
    parent: &Option<Csum>,
    subject: &Text,
    body: &Text,
    root: CommitRoot,
) -> Result<GvBytes, NoMemory>
    requires metadata { is_some (metadata_form (view metadata.now)) ≡ true }
    requires related { is_some (related_form (view related.now)) ≡ true }
    ensures { IfOk result (λ b. commit_form (parts_from (view metadata.now) parent.now (view related.now) subject.now body.now root.time root.tree root.meta) ≡ Some b) }
{
    let kind = ObjectType::Commit.kind(alloc)?;
    let metadata = write_inner(alloc, ObjectType::Metadata, metadata)?;
    let related = write_inner(alloc, ObjectType::Related, related)?;
    let subject = bytes_of(alloc, subject.as_slice())?;
    let body = bytes_of(alloc, body.as_slice())?;
    container(
        alloc,
        &kind,
        &[
            metadata.as_slice(),
            parent_slice(parent),
            related.as_slice(),
            &subject,
            &body,
            &root.time.to_be_bytes(),
            root.tree.as_slice(),
            root.meta.as_slice(),
        ],
    )
}

fn parent_slice(parent: &Option<Csum>) -> &[u8]
    ensures { result.now ≡ parent_bytes parent.now }
{
    match parent {
        Some(sum) => sum.as_slice(),
        None => &[],
    }
}
