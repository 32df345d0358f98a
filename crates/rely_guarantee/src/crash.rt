ghost use Rattle.std.specs.Prelude.{◌≡◌, Some};
ghost use Rattle.fs_trait.specs.View.{View};
ghost use Rattle.rely_guarantee.specs.SystemInvariant.{SystemInvariant};
ghost use Rattle.rely_guarantee.specs.Headline.{Headline};

use crate::Base;
use fs_trait::Fs;

/// What is so of each value that the acts leave: a crash at any moment since the opening leaves a sane disk whose refs are
/// those after a prefix of the stored history that has every change that was acknowledged by that moment; and reads see the
/// refs after the whole history, but for a change that is pending.
pub fn certify<F: Fs>(_base: &Base<F>)
    requires { SystemInvariant F.view F.clock F.spare F.was _base.now }
    ensures { (v : View) → F.view _base.now.fs ≡ Some v → Headline F.clock F.was _base.now v }
{}
