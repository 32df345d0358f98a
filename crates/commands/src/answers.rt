//! What a command answers, as a script has it.
ghost use Rattle.std.specs.Prelude.{◌≡◌};
ghost use Rattle.commands.specs.Answers.{answer_of, checkout_answer, checkout_reply, clean_answer, commit_answer, list_answer, prune_answer, read_answer, read_reply, ref_answer, reply_of, spoken};

use crate::{CommandAnswer, CommandReply};
use checkout_command::CheckoutAnswer;
use checkout_family::CheckoutReply;
use clean_command::CleanAnswer;
use command::Ended;
use commit_command::CommitAnswer;
use list_family::ListAnswer;
use prune_command::PruneAnswer;
use read_command::ReadAnswer;
use read_family::ReadReply;
use ref_command::RefAnswer;
use rely_guarantee::Either;
use script::{Answer, Reply};

/// A reply with the same place among the others.
pub fn reply_of(reply: CommandReply) -> Reply
    ensures { result ≡ reply_of reply }
{
    let CommandReply {
        answer,
        start,
        place,
        order,
        taken,
    } = reply;
    Reply {
        answer: answer_of(answer),
        start,
        place,
        order,
        taken,
    }
}

/// The answer of a command that ended so.
pub fn answer_of(ended: Ended<CommandAnswer>) -> Answer
    ensures { result ≡ answer_of ended }
{
    match ended {
        Ended::Answered(answer) => spoken(answer),
        Ended::NoMemory => Answer::NoMemory,
        Ended::DiskFault => Answer::DiskFault,
        Ended::Outside(path) => Answer::Outside(path),
        Ended::Halted(count) => Answer::Halted(count),
    }
}

fn spoken(answer: CommandAnswer) -> Answer
    ensures { result ≡ spoken answer }
{
    match answer {
        Either::Left(Either::Left(answer)) => ref_answer(answer),
        Either::Left(Either::Right(answer)) => read_reply(answer),
        Either::Right(Either::Left(answer)) => commit_answer(answer),
        Either::Right(Either::Right(Either::Left(Either::Left(answer)))) => checkout_reply(answer),
        Either::Right(Either::Right(Either::Left(Either::Right(answer)))) => clean_answer(answer),
        Either::Right(Either::Right(Either::Right(Either::Left(answer)))) => list_answer(answer),
        Either::Right(Either::Right(Either::Right(Either::Right(answer)))) => prune_answer(answer),
    }
}

fn ref_answer(answer: RefAnswer) -> Answer
    ensures { result ≡ ref_answer answer }
{
    match answer {
        RefAnswer::Changed => Answer::Nothing,
        RefAnswer::Commit(commit) => Answer::Commit(commit),
        RefAnswer::NoCommit(commit) => Answer::NoCommit(commit),
        RefAnswer::Partial(commit) => Answer::Partial(commit),
        RefAnswer::NoRef => Answer::NoRef,
        RefAnswer::RefMoved { seen, now } => Answer::RefMoved { seen, now },
        RefAnswer::RefClash(other) => Answer::RefClash(other),
    }
}

fn read_reply(reply: ReadReply) -> Answer
    ensures { result ≡ read_reply reply }
{
    match reply {
        ReadReply::NoRef => Answer::NoRef,
        ReadReply::Read(answer) => read_answer(answer),
    }
}

fn read_answer(answer: ReadAnswer) -> Answer
    ensures { result ≡ read_answer answer }
{
    match answer {
        ReadAnswer::Content(bytes) => Answer::Content(bytes),
        ReadAnswer::Ls(rows) => Answer::Ls(rows),
        ReadAnswer::Log(rows) => Answer::Log(rows),
        ReadAnswer::NoCommit(commit) => Answer::NoCommit(commit),
        ReadAnswer::Partial(commit) => Answer::Partial(commit),
        ReadAnswer::NoPath(path) => Answer::NoPath(path),
        ReadAnswer::NotFile(path) => Answer::NotFile(path),
        ReadAnswer::Lacking(path) => Answer::Outside(path),
    }
}

fn commit_answer(answer: CommitAnswer) -> Answer
    ensures { result ≡ commit_answer answer }
{
    match answer {
        CommitAnswer::Commit(commit) => Answer::Commit(commit),
        CommitAnswer::BadTree(path) => Answer::BadTree(path),
        CommitAnswer::TooMany(number) => Answer::TooMany(number),
        CommitAnswer::RefMoved { seen, now } => Answer::RefMoved { seen, now },
        CommitAnswer::RefClash(other) => Answer::RefClash(other),
        CommitAnswer::NoRef => Answer::NoRef,
    }
}

fn checkout_reply(reply: CheckoutReply) -> Answer
    ensures { result ≡ checkout_reply reply }
{
    match reply {
        CheckoutReply::NoRef => Answer::NoRef,
        CheckoutReply::Tried(answer) => checkout_answer(answer),
    }
}

fn checkout_answer(answer: CheckoutAnswer) -> Answer
    ensures { result ≡ checkout_answer answer }
{
    match answer {
        CheckoutAnswer::Done => Answer::Nothing,
        CheckoutAnswer::NoCommit(commit) => Answer::NoCommit(commit),
        CheckoutAnswer::Partial(commit) => Answer::Partial(commit),
        CheckoutAnswer::DestExists(path) => Answer::DestExists(path),
        CheckoutAnswer::Lacking(path) => Answer::Outside(path),
    }
}

fn clean_answer(answer: CleanAnswer) -> Answer
    ensures { result ≡ clean_answer answer }
{
    match answer {
        CleanAnswer::Cleaned => Answer::Nothing,
    }
}

fn list_answer(answer: ListAnswer) -> Answer
    ensures { result ≡ list_answer answer }
{
    match answer {
        ListAnswer::Refs(rows) => Answer::Refs(rows),
        ListAnswer::Status(rows) => Answer::Status(rows),
    }
}

fn prune_answer(answer: PruneAnswer) -> Answer
    ensures { result ≡ prune_answer answer }
{
    match answer {
        PruneAnswer::Pruned { kept, removed } => Answer::Pruned { kept, removed },
        PruneAnswer::Outside(path) => Answer::Outside(path),
    }
}
