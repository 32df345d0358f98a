//! What a script's replies tell is what those of its lanes do.
ghost use Rattle.std.specs.Prelude.{◌≡◌, ◌⊎◌, ℕ, List, Option};
ghost use Rattle.ost_types.specs.declared.limits.Limits.{Limits};
ghost use Rattle.fs_trait.specs.View.{Disk};
ghost use Rattle.commit_durability.specs.Lasting.{IsAloneOn};
ghost use Rattle.rely_guarantee.specs.declared.books.Entry.{Entry};
ghost use Rattle.rely_guarantee.specs.declared.books.Pending.{Pending};
ghost use Rattle.rely_guarantee.specs.declared.either.Either.TheVariants.{Left, Right};
ghost use Rattle.rely_guarantee.specs.State.{SystemState};
ghost use Rattle.durable_store.specs.Brought.{NoHashCollisionOn};
ghost use Rattle.command.specs.declared.ended.Ended.{Ended};
ghost use Rattle.command.specs.Since.{begun_in};
ghost use Rattle.commit_family.specs.declared.words.CommitWords.{CommitWords};
ghost use Rattle.commit_family.specs.Commits.{message_in};
ghost use Rattle.lane_system.specs.Lanes.{IsAt, IsCommand, IsTo};
ghost use Rattle.lane_system.specs.Replied.{Replied};
ghost use Rattle.lane_system.specs.Replies as system;
ghost use Rattle.lane_system.specs.Replies.{IsTold, OfAnswer};
ghost use Rattle.lane_system.specs.Storing.{IsBroughtIn};
ghost use Rattle.script.specs.declared.answer.Reply.{Reply};
ghost use Rattle.commands.specs.Answers.{answer_of, reply_of};
ghost use Rattle.commands.specs.Family as own;
ghost use Rattle.commands.specs.Family.{Answer, Lane, means};
ghost use Rattle.commands.specs.Faults.{IsAbsence, IsFailure, IsOutside};
ghost use Rattle.commands.specs.Lanes.{IsReplyTo, replies_of};

use fs_trait::Fs;

/// Each reply of a script's rows is one of its lane, at the same command, and the other way round.
pub fn replies_are_those_of_lanes()
    ensures rows { (lanes : List Lane) (lane number : ℕ) (r : Reply) → IsReplyTo (replies_of lanes) lane number r → (q : own.Reply) × IsTo lanes lane number q × (r ≡ reply_of q) }
    ensures lanes { (lanes : List Lane) (lane number : ℕ) (q : own.Reply) → IsTo lanes lane number q → IsReplyTo (replies_of lanes) lane number (reply_of q) }
{}

/// A script's answer tells of a call that failed, or of a commit that isn't there whole, only where its family's does.
pub fn answers_tell_alike()
    ensures failures { (x : Ended Answer) → IsFailure (answer_of x) → system.IsFailure x }
    ensures absences { (commit : List ℕ) (x : Ended Answer) → IsAbsence commit (answer_of x) → OfAnswer (λ a. means.lacks a commit) x }
{}

/// One tells that something else changed the disk only where the lane's reply is that fault, or where its family's answer is that an object
/// isn't there as its name says.
pub fn outsides_tell_alike()
    ensures { (x : Ended Answer) → IsOutside (answer_of x) → system.IsOutside x ⊎ OfAnswer means.outside x }
{}

/// Where no other bytes on a disk have the name of bytes that a command brings which began, none have that of an object of a commit that a
/// change is of.
pub fn commits_are_alone<F: Fs>()
    ensures { (limits : Limits) (start : SystemState) (history : List Entry) (by : Option Pending) (lanes : List Lane) (k : ℕ) (e : Entry) (c : CommitWords) (s : SystemState) (d : Disk) → Replied (IsTold F.view) means limits start history by lanes → IsAt history k e → IsCommand lanes e.lane e.command (Right (Left c)) → means.changes (begun_in limits s) (Right (Left c)) e.event → NoHashCollisionOn (IsBroughtIn means limits start history lanes) d → IsAloneOn d c.tree.items (message_in s.refs c) }
{}
