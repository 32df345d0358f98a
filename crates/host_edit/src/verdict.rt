ghost use Rattle.std.specs.Prelude.{◌≡◌};
ghost use Rattle.host_edit.specs.Verdict.{at_folder, at_leaf, at_vacant, judge};

use crate::change::Change;
use crate::phase::Phase;
use crate::there::There;

/// What comes of a look at the path of an edit.
#[derive(Clone, Copy, Debug, PartialEq, Eq)]
pub(crate) enum Verdict {
    /// The step of this phase may make the change.
    Goes(Phase),
    NoParent,
    NoPath,
    NotEmpty,
    KindClash,
}

/// Whether the change may be made where this stands, and by which step.
pub(crate) fn judge(change: &Change, there: There) -> Verdict
    ensures { result ≡ judge change.now there }
{
    match there {
        There::NoFolder => Verdict::NoParent,
        There::Vacant => at_vacant(change),
        There::Leaf => at_leaf(change),
        There::EmptyFolder => at_folder(change, Verdict::Goes(Phase::RemoveFolder)),
        There::FullFolder => at_folder(change, Verdict::NotEmpty),
    }
}

fn at_vacant(change: &Change) -> Verdict
    ensures { result ≡ at_vacant change.now }
{
    match change {
        Change::File(_) => Verdict::Goes(Phase::Replace),
        Change::Link(..) => Verdict::Goes(Phase::Replace),
        Change::Folder(_) => Verdict::Goes(Phase::MakeFolder),
        Change::Nothing => Verdict::NoPath,
    }
}

fn at_leaf(change: &Change) -> Verdict
    ensures { result ≡ at_leaf change.now }
{
    match change {
        Change::File(_) => Verdict::Goes(Phase::Replace),
        Change::Link(..) => Verdict::Goes(Phase::Replace),
        Change::Folder(_) => Verdict::KindClash,
        Change::Nothing => Verdict::Goes(Phase::Unlink),
    }
}

// where a folder stands, which goes so where it is to be removed
fn at_folder(change: &Change, removal: Verdict) -> Verdict
    ensures { result ≡ at_folder removal change.now }
{
    match change {
        Change::File(_) => Verdict::KindClash,
        Change::Link(..) => Verdict::KindClash,
        Change::Folder(_) => Verdict::KindClash,
        Change::Nothing => removal,
    }
}
