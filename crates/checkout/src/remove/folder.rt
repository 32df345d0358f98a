//! A folder on the way down.
ghost use Rattle.std.specs.Prelude.{◌≡◌, ◌≢◌, [], length, IfOk, IfErr};
ghost use Rattle.ost_types.specs.Path.{IsPath};
ghost use Rattle.checkout.specs.RemoveFolder.{passed};
ghost use Rattle.checkout.specs.Remove.{Looks, act_of};
ghost use Rattle.checkout.specs.RemoveSteps.{IsBarred};

use fs_trait::FsErr;
use ost_types::{FsPath, Name};
use std::marker::Model;

/// A folder on the way down, and the names in it that weren't seen to yet, the next one last.
#[derive(Drop, Debug)]
pub(crate) struct OpenFolder {
    pub(crate) path: FsPath,
    pub(crate) names: Vec<Name>,
}

impl Model for OpenFolder {
    ghost use Rattle.std.specs.Prelude.{reverse};
    ghost use Rattle.checkout.specs.RemoveFolder.{Opened};

    ghost Value = { Opened };

    ghost view = { λ a. record { path = a.path; names = reverse a.names.items } };
}

impl OpenFolder {
    /// Where it is.
    pub(crate) fn path(&self) -> &FsPath
        ensures { result.now ≡ self.now.path }
    {
        &self.path
    }

    /// How many names are left.
    pub(crate) fn count(&self) -> usize
        ensures { result ≡ length self.now.names }
    {
        self.names.len()
    }

    /// The path of the next name.
    pub(crate) fn next(&self) -> Result<FsPath, FsErr>
        requires { self.now.names ≢ [] }
        ensures ok { IfOk result (λ p. act_of self.now.path self.now.names ≡ Looks p) }
        ensures path { IfOk result IsPath }
        ensures err { IfErr result (IsBarred self.now) }
    {
        let Some(name) = self.names.last() else {
            unreachable!()
        };
        if !self.path.can_hold(name) {
            return Err(FsErr::NotEmpty);
        }
        Ok(self.path.child(name)?)
    }

    /// The next name was seen to.
    pub(crate) fn pass(&mut self)
        ensures { self.new ≡ passed self.old }
    {
        self.names.pop();
    }
}
