//! The lesser of paths of which there may be none.
ghost use Rattle.std.specs.Prelude.{◌↔◌, IsTrue};
ghost use Rattle.checkout_compare.specs.Order.{ComesBefore, IsLesser};

use ost_types::FsPath;

/// Whether there is one path, and it comes before the other.
pub(crate) fn comes_before(one: &Option<FsPath>, other: &FsPath) -> bool
    ensures { IsTrue result ↔ ComesBefore one.now other.now }
{
    match one {
        Some(one) => one.cmp(other).is_lt(),
        None => false,
    }
}

/// The lesser of the two.
pub(crate) fn lesser(one: Option<FsPath>, other: Option<FsPath>) -> Option<FsPath>
    ensures { IsLesser one other result }
{
    let Some(path) = other else {
        return one;
    };
    if comes_before(&one, &path) {
        one
    } else {
        Some(path)
    }
}
