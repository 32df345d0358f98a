//! What a checkout of a commit answers.
ghost use Rattle.std.specs.Prelude.{◌≡◌, IfOk};
ghost use Rattle.repo_model.specs.Objects.{path_of};
ghost use Rattle.checkout_command.specs.declared.answer.CheckoutAnswer.TheVariants as answer;

use ost_types::{Csum, FsPath, NoMemory, ObjName};
use repo_layout::object_path;
use std::alloc::Global;

#[derive(Drop, Debug)]
pub enum CheckoutAnswer {
    /// The folder is the commit's tree.
    Done,
    /// There is no such commit.
    NoCommit(Csum),
    /// Objects of the commit may be missing.
    Partial(Csum),
    /// Something stands at the path already.
    DestExists(FsPath),
    /// An object of the commit is missing or damaged: where it should stand in the repository.
    Lacking(FsPath),
}

/// The object is missing or damaged.
pub(crate) fn lacking(alloc: Global, name: &ObjName) -> Result<CheckoutAnswer, NoMemory>
    ensures { IfOk result (λ a. a ≡ answer.Lacking (path_of name.now)) }
{
    Ok(CheckoutAnswer::Lacking(object_path(alloc, name)?))
}
