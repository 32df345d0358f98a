use ost_types::Csum;
use repo_layout::RefName;
use script::StatusRow;

/// What a command of the family answers.
#[derive(Drop)]
pub enum ListAnswer {
    /// The refs with their commits, ascending by their names.
    Refs(Vec<(RefName, Csum)>),
    /// The deployments that boot, the one that boots first in front.
    Status(Vec<StatusRow>),
}
