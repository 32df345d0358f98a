//! A script's command as one of its family.
ghost use Rattle.std.specs.Prelude.{◌≡◌};
ghost use Rattle.commands.specs.Words.{reads, words_of};

use crate::CommandWords;
use checkout_family::CheckoutWords;
use clean_family::CleanWords;
use commit_family::CommitWords;
use list_family::ListWords;
use prune_family::PruneWords;
use read_command::Ask;
use read_family::ReadWords;
use ref_family::RefWords;
use rely_guarantee::Either;
use script::Command;

/// The command with the same fields.
pub fn words_of(command: Command) -> CommandWords
    ensures { result ≡ words_of command }
{
    match command {
        Command::RevParse { rev } => Either::Left(Either::Left(RefWords::RevParse { rev })),
        Command::Reset { branch, commit } => {
            Either::Left(Either::Left(RefWords::Reset { branch, commit }))
        }
        Command::DropRef { branch } => Either::Left(Either::Left(RefWords::DropRef { branch })),
        Command::Log { rev } => reads(ReadWords { rev, ask: Ask::Log }),
        Command::Ls { rev, path } => reads(ReadWords {
            rev,
            ask: Ask::Ls(path),
        }),
        Command::Cat { rev, path } => reads(ReadWords {
            rev,
            ask: Ask::Cat(path),
        }),
        Command::Commit {
            branch,
            tree,
            subject,
            body,
            time,
        } => Either::Right(Either::Left(CommitWords {
            branch,
            tree,
            subject,
            body,
            time,
        })),
        Command::Checkout { rev, name } => {
            Either::Right(Either::Right(Either::Left(Either::Left(CheckoutWords { rev, name }))))
        }
        Command::Cleanup => {
            Either::Right(Either::Right(Either::Left(Either::Right(CleanWords {}))))
        }
        Command::Refs => {
            Either::Right(Either::Right(Either::Right(Either::Left(ListWords::Refs))))
        }
        Command::Status => {
            Either::Right(Either::Right(Either::Right(Either::Left(ListWords::Status))))
        }
        Command::Prune { depth } => {
            Either::Right(Either::Right(Either::Right(Either::Right(PruneWords { depth }))))
        }
    }
}

fn reads(words: ReadWords) -> CommandWords
    ensures { result ≡ reads words }
{
    Either::Left(Either::Right(words))
}
