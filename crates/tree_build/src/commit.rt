//! The object of a commit.

ghost use Rattle.std.specs.Prelude.{◌≡◌, IfOk, Ok};
ghost use Rattle.ost_types.specs.declared.object.Kind.TheVariants as kinds;
ghost use Rattle.sha2.specs.Sha256.{sha256};
ghost use Rattle.ost_forms.specs.Commit.{commit_form, ReadsCommit};
ghost use Rattle.tree_build.specs.Makeable.{IsSmall};
ghost use Rattle.tree_build.specs.Commits.{commit_parts, commit_bytes};

use ost_forms::Commit;
use ost_objects::{Checked, MakeFault};
use ost_types::{Csum, Limits, NoMemory, Text, TryCopy};
use std::alloc::Global;

/// The commit of a tree, with empty metadata and no related objects.
pub fn commit_object(
    alloc: Global,
    tree: Csum,
    meta: Csum,
    parent: Option<Csum>,
    subject: &Text,
    body: &Text,
    time: u64,
    limits: &Limits,
) -> Result<Checked, NoMemory>
    requires { IsSmall (commit_form (commit_parts tree meta parent subject.now body.now time)) }
    ensures kind { IfOk result (λ c. c.name.kind ≡ kinds.Commit) }
    ensures sum { IfOk result (λ c. c.name.csum ≡ sha256 (commit_bytes (commit_parts tree meta parent subject.now body.now time))) }
    ensures bytes { IfOk result (λ c. c.bytes ≡ commit_bytes (commit_parts tree meta parent subject.now body.now time)) }
    ensures reads { IfOk result (λ c. ReadsCommit (λ p. p) c.bytes (Ok (commit_parts tree meta parent subject.now body.now time))) }
    ensures limit { IfOk result (λ c. c.limit ≡ limits.now.content) }
{
    let commit = Commit::new(
        alloc,
        parent,
        subject.copy()?,
        body.copy()?,
        time,
        tree,
        meta,
    )?;
    match Checked::of_commit(alloc, &commit, limits) {
        Ok(object) => Ok(object),
        Err(MakeFault::TooLarge(_)) => unreachable!(),
        Err(MakeFault::NoMemory) => Err(NoMemory),
    }
}
