//! What was removed counts from a promise on; and where nothing was, what is said of the store's objects is said of all of them.

ghost use Rattle.std.specs.Prelude.{◌≡◌, ◌↔◌, ◌++◌, ℕ, List, [], length, Option};
ghost use Rattle.ost_types.specs.declared.limits.Limits.{Limits};
ghost use Rattle.ost_types.specs.declared.object.ObjName.{ObjName};
ghost use Rattle.fs_trait.specs.View.{View};
ghost use Rattle.rely_guarantee.specs.declared.books.Entry.{Entry};
ghost use Rattle.rely_guarantee.specs.declared.books.Pending.{Pending};
ghost use Rattle.rely_guarantee.specs.Books.{Books};
ghost use Rattle.rely_guarantee.specs.Lasting.{StaysFinished};
ghost use Rattle.rely_guarantee.specs.State.{SystemState};
ghost use Rattle.lane_system.specs.declared.lane.Lane.{Lane};
ghost use Rattle.lane_system.specs.Founded.{RefsNameDurableCommitsIn, ArePresentIn};
ghost use Rattle.lane_system.specs.Lasting.{AreKeptIn};
ghost use Rattle.lane_system.specs.Removals.{gone_since, removed_in};
ghost use Rattle.lane_system.specs.Staying.{AreStayingIn};
ghost use Rattle.lane_system.specs.Unremoved.{AllRefsNameDurableCommits, AllAreKept, AllArePresent, AllAreStaying, AreUnpruned};

use command::Command;
use fs_trait::Fs;

/// What was removed before a change takes nothing from what that one made: what is gone since is told by the later ones, and by a removal
/// that goes on.
pub fn earlier_removals_are_past()
    ensures { (before after : List Entry) (swept : List ObjName) → gone_since (before ++ after) swept (length before) ≡ gone_since after swept 0 }
{}

/// Where no change removed an object, nothing was removed between any two places of the history; and where no removal goes on, nothing is
/// gone since any change.
pub fn nothing_is_gone()
    ensures removed { (entries : List Entry) (from to : ℕ) → AreUnpruned entries → removed_in entries from to ≡ [] }
    ensures gone { (entries : List Entry) (from : ℕ) → AreUnpruned entries → gone_since entries [] from ≡ [] }
{}

/// There what is said of the changes, of the commits and of what commands left is said of all objects, with no exception.
pub fn all_is_said<F: Fs, C: Command>()
    ensures kept { (fs : F) (opening v : View) (limits : Limits) (lanes : List (Lane C C.Words C.Answer)) (entries : List Entry) → AreUnpruned entries → AreKeptIn C.means (F.was fs) opening limits lanes entries [] v ↔ AllAreKept C.means (F.was fs) opening limits lanes entries v }
    ensures present { (opening : View) (lanes : List (Lane C C.Words C.Answer)) (entries : List Entry) → AreUnpruned entries → ArePresentIn C.means (StaysFinished opening) entries lanes ↔ AllArePresent C.means (StaysFinished opening) entries lanes }
    ensures founded { (opening v : View) (lanes : List (Lane C C.Words C.Answer)) (entries : List Entry) (pending : Option Pending) → AreUnpruned entries → RefsNameDurableCommitsIn C.means opening entries [] pending lanes v ↔ AllRefsNameDurableCommits C.means opening entries pending lanes v }
    ensures staying { (v : View) (b : Books) (limits : Limits) (begin : SystemState) (lanes : List (Lane C C.Words C.Answer)) (entries : List Entry) → AreUnpruned entries → AreStayingIn C.means limits begin entries [] lanes v b ↔ AllAreStaying C.means limits begin entries lanes v b }
{}
