//! What a command that reads a commit answers.
ghost use Rattle.std.specs.Prelude.{◌≡◌, Some, IfOk};
ghost use Rattle.repo_model.specs.Objects.{path_of};
ghost use Rattle.repo_model.specs.Trees.{name_of};
ghost use Rattle.read_command.specs.declared.answer.ReadAnswer.TheVariants as answer;

use ost_types::{Bytes, Csum, FsPath, Kind, NoMemory, ObjName};
use repo_layout::object_path;
use script::{LogRow, LsRow};
use std::alloc::Global;

#[derive(Drop, Debug)]
pub enum ReadAnswer {
    /// What the regular file holds.
    Content(Bytes),
    /// The path and all below it, ascending.
    Ls(Vec<LsRow>),
    /// The commit, its parent and so on.
    Log(Vec<LogRow>),
    /// There is no such commit.
    NoCommit(Csum),
    /// Objects of the commit may be missing.
    Partial(Csum),
    /// Nothing stands at the path.
    NoPath(FsPath),
    /// A folder or a symbolic link stands there.
    NotFile(FsPath),
    /// An object of the commit is missing or damaged: where it should stand in the repository.
    Lacking(FsPath),
}

/// The object is missing or damaged.
pub(crate) fn lacking(alloc: Global, name: &ObjName) -> Result<ReadAnswer, NoMemory>
    ensures { IfOk result (λ a. a ≡ answer.Lacking (path_of name.now)) }
{
    Ok(ReadAnswer::Lacking(object_path(alloc, name)?))
}

/// The object of this kind is.
pub(crate) fn lacking_of(
    alloc: Global,
    csum: Csum,
    kind: Kind,
) -> Result<Option<ReadAnswer>, NoMemory>
    ensures { IfOk result (λ a. a ≡ Some (answer.Lacking (path_of (name_of kind csum)))) }
{
    Ok(Some(lacking(alloc, &ObjName { csum, kind })?))
}
