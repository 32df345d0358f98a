//! The task that does an edit.
ghost use Rattle.std.specs.Prelude.{◌≡◌, IfOk};
ghost use Rattle.host_edit.specs.Edit.{IsFit, MayEdit, path_of};
ghost use Rattle.host_edit.specs.Editing.{begun, change_of, first_phase};

mod show;
mod stage;
mod steps;
mod tells;

use crate::change::{Change, leaf_change};
use crate::edit::Edit;
use crate::paths::folder_of;
use crate::phase::Phase;
use crate::refusal::EditRefusal;
use fs_trait::StepResult;
use ost_types::{FsPath, NoMemory, TryCopy};
use std::alloc::Global;
use std::marker::Model;

/// The task that does one edit, a step at a time. A file or link is staged; then the path is looked at, and the edit refused or the
/// change made in one call; and then the folder that the path is in is synced. A crash at any moment leaves at the path what was there,
/// or what the edit says; behind that sync only the latter.
#[derive(Drop, Debug)]
pub struct EditTask {
    // where a file or link is staged
    stage: FsPath,
    at: FsPath,
    // the one that it is in
    folder: FsPath,
    // as the edit has it
    path: FsPath,
    change: Change,
    phase: Phase,
}

impl Model for EditTask {
    ghost use Rattle.std.specs.Prelude.{◌≡◌};
    ghost use Rattle.ost_types.specs.Path.{Name, under};
    ghost use Rattle.host_edit.specs.Editing.{Editing, IsMade};

    ghost Value = { Editing };

    ghost view = { λ a. record { stage = a.stage; at = a.at; path = a.path; change = a.change; phase = a.phase } };

    ghost invariant = { λ a. ((x : Name) × (a.at ≡ under a.folder x)) × IsMade (record { stage = a.stage; at = a.at; path = a.path; change = a.change; phase = a.phase }) };
}

/// What a step came to.
type Turn = StepResult<Result<(), EditRefusal>>;

impl EditTask {
    /// Does this edit in the `etc` at this path. Nobody else uses the staging path.
    pub fn new(alloc: Global, stage: FsPath, etc: &FsPath, edit: Edit) -> Result<EditTask, NoMemory>
        requires { MayEdit stage etc.now edit }
        ensures { IfOk result (λ t. t ≡ begun stage etc.now edit) }
    {
        let (path, change) = parts_of(stage.copy()?, edit);
        let _etc_names = etc.names();
        let _path_names = path.names();
        let at = etc.join(&path)?;
        let folder = folder_of(alloc, &at)?;
        let phase = first_phase(&change);
        Ok(EditTask {
            stage,
            at,
            folder,
            path,
            change,
            phase,
        })
    }
}

// the path of an edit, and what is to stand there
fn parts_of(stage: FsPath, edit: Edit) -> (FsPath, Change)
    requires { IsFit edit }
    ensures { result ≡ (path_of edit, change_of stage edit) }
{
    match edit {
        Edit::Put { path, leaf } => (path, leaf_change(stage, leaf)),
        Edit::MakeFolder { path, meta } => (path, Change::Folder(meta)),
        Edit::Remove { path } => (path, Change::Nothing),
    }
}

// where the steps begin: with what is to be staged, or with the look
fn first_phase(change: &Change) -> Phase
    ensures { result ≡ first_phase change.now }
{
    match change {
        Change::File(_) => Phase::Stage,
        Change::Link(..) => Phase::Clear,
        Change::Folder(_) => Phase::Look,
        Change::Nothing => Phase::Look,
    }
}
