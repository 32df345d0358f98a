//! A commit as the command `commit` makes it.

ghost use Rattle.std.specs.Prelude.{◌≡◌, IfOk};
ghost use Rattle.gv_core.specs.Tree.{no_trees};
ghost use Rattle.gv_core.specs.Tree as t;
ghost use Rattle.ost_forms.specs.Commit.{parts_from};
ghost use Rattle.ost_forms.specs.CommitRow.{parts_of};

use crate::commit::Commit;
use crate::commit_join::{CommitRoot, join_commit};
use gv_core::Value;
use ost_types::{Csum, NoMemory, Text};
use std::alloc::Global;

impl Commit {
    /// A commit with empty metadata and no related objects.
    pub fn new(
        alloc: Global,
        parent: Option<Csum>,
        subject: Text,
        body: Text,
        time: u64,
        tree: Csum,
        meta: Csum,
    ) -> Result<Commit, NoMemory>
        ensures { IfOk result (λ c. parts_of c ≡ parts_from (t.array no_trees) parent (t.array no_trees) subject body time tree meta) }
    {
        let metadata = Value::Array(Vec::new(alloc));
        let related = Value::Array(Vec::new(alloc));
        let root = CommitRoot { time, tree, meta };
        // Two texts that together have 2^64 bytes would make no commit.
        let _bytes = join_commit(alloc, &metadata, &related, &parent, &subject, &body, root)?;
        Ok(Commit {
            metadata,
            parent,
            related,
            subject,
            body,
            time,
            tree,
            meta,
        })
    }
}
