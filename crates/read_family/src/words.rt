use read_command::Ask;
use script::Rev;

/// A command of the family with its fields: the commit, and what is to be read of it.
#[derive(Drop)]
pub struct ReadWords {
    pub rev: Rev,
    pub ask: Ask,
}
