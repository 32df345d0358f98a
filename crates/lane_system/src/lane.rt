ghost use Rattle.std.specs.Prelude.{◌≤◌, ◌≡◌, [], None, length, vec_capacity, IfOk};

use command::Ended;
use ost_types::NoMemory;
use std::alloc::Global;

/// A command that has begun.
#[derive(Drop)]
pub struct Running<T> {
    pub work: T,
    /// How many changes the history had when it began.
    pub start: usize,
}

/// A command's answer with its place among the others.
#[derive(Drop)]
pub struct Reply<A> {
    pub answer: Ended<A>,
    /// How many changes the history had before the command's first step.
    pub start: u32,
    /// How many it had just after the step that gave the reply.
    pub place: u32,
    /// How many replies had been given before it.
    pub order: u32,
    /// How many replies had been given before the step that took the lock on the list of deployments, of an answer that depends on which of
    /// these are in use; none does so yet.
    pub taken: Option<u32>,
}

/// Commands that run one after the other: the tasks are of type `T`, commands of type `W`, answers of type `A`.
#[derive(Drop)]
pub struct Lane<T, W, A> {
    pub words: Vec<W>,
    /// The command that runs: the first one without a reply.
    pub task: Option<Running<T>>,
    /// One for each command that has ended.
    pub replies: Vec<Reply<A>>,
}

impl<T: Drop, W: Drop, A: Drop> Lane<T, W, A> {
    /// A lane that hasn't begun, with room for all replies.
    pub fn new(alloc: Global, words: Vec<W>) -> Result<Lane<T, W, A>, NoMemory>
        requires short { length words.items ≤ 64 }
        ensures { IfOk result (λ lane. (lane.words.items ≡ words.items) × (lane.task ≡ None) × (lane.replies.items ≡ []) × (length words.items ≤ vec_capacity lane.replies)) }
    {
        let replies = Vec::with_capacity(alloc, words.len())?;
        Ok(Lane {
            words,
            task: None,
            replies,
        })
    }
}
