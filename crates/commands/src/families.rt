//! The families of the program. A further one is one more in each of these.
use checkout_family::{CheckoutReply, CheckoutWords, CheckoutsTask};
use clean_command::CleanAnswer;
use clean_family::{CleanWords, CleansTask};
use commit_command::CommitAnswer;
use commit_family::{CommitWords, CommitsTask};
use lane_system::{Lane, Reply};
use list_family::{ListAnswer, ListTask, ListWords};
use prune_command::PruneAnswer;
use prune_family::{PruneTask, PruneWords};
use read_family::{ReadReply, ReadTask, ReadWords};
use ref_command::RefAnswer;
use ref_family::{RefWords, RefsTask};
use rely_guarantee::Either;

/// The task of a command. The nest is balanced, so that a case is few sides deep.
pub type Commands = Either<
    Either<RefsTask, ReadTask>,
    Either<CommitsTask, Either<Either<CheckoutsTask, CleansTask>, Either<ListTask, PruneTask>>>,
>;

/// A command with its fields.
pub type CommandWords = Either<
    Either<RefWords, ReadWords>,
    Either<CommitWords, Either<Either<CheckoutWords, CleanWords>, Either<ListWords, PruneWords>>>,
>;

/// What a command answers that is done.
pub type CommandAnswer = Either<
    Either<RefAnswer, ReadReply>,
    Either<
        CommitAnswer,
        Either<Either<CheckoutReply, CleanAnswer>, Either<ListAnswer, PruneAnswer>>,
    >,
>;

/// A lane of a system of them, and a reply of it.
pub type CommandLane = Lane<Commands, CommandWords, CommandAnswer>;

pub type CommandReply = Reply<CommandAnswer>;
