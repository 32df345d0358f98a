use ost_types::Csum;
use repo_layout::RefName;
use script::Rev;

/// A command of the family with its fields.
#[derive(Drop)]
pub enum RefWords {
    /// `rev-parse` tells the commit, if it is there.
    RevParse { rev: Rev },
    /// `reset` lets the ref name the commit.
    Reset { branch: RefName, commit: Csum },
    /// `drop` removes the ref.
    DropRef { branch: RefName },
}
