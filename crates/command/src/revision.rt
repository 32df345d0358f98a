ghost use Rattle.ref_book.specs.Tracks.{Tracks};
ghost use Rattle.rely_guarantee.specs.State.{State};
ghost use Rattle.command.specs.Revisions.{IsNamed};

use ost_types::Csum;
use ref_book::RefBook;
use script::Rev;

/// The commit that a revision names by the refs as they are, or None where it is a ref that isn't there.
pub fn commit_of(refs: &RefBook, rev: &Rev) -> Option<Csum>
    ensures { (s : State) → Tracks refs.now s → IsNamed rev.now s result }
{
    match rev {
        Rev::Commit(commit) => Some(*commit),
        Rev::Ref(name) => refs.get(name),
    }
}
