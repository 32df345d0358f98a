//! What a task tells of itself.
ghost use Rattle.std.specs.Prelude.{◌≡◌, ◌<◌, ◌+◌, ◌^◌};
ghost use Rattle.host_edit.specs.Editing.{left, left_to_stage, need_in, progress_in};

use super::EditTask;
use crate::change::Change;
use crate::phase::Phase;
use crate::progress::Progress;
use fs_trait::Need;
use ost_types::FsPath;

impl EditTask {
    /// The path, as the edit has it.
    pub fn path(&self) -> &FsPath
        ensures { result.now ≡ self.now.path }
    {
        &self.path
    }

    /// What the next step does to the path.
    pub fn progress(&self) -> Progress
        ensures { result ≡ progress_in self.now.phase }
    {
        match self.phase {
            Phase::Stage | Phase::Clear | Phase::Link => Progress::Preparing,
            Phase::Look => Progress::Looking,
            Phase::Replace | Phase::MakeFolder | Phase::Unlink | Phase::RemoveFolder =>
                Progress::Showing,
            Phase::Sync => Progress::Settling,
            Phase::Ended => Progress::Ended,
        }
    }

    /// The lock under which the next step must stand: none while the file or link is staged, and the same one from the look at the path
    /// to the sync.
    pub fn needs(&self) -> Need
        ensures { result ≡ need_in self.now.phase }
    {
        match self.phase {
            Phase::Stage | Phase::Clear | Phase::Link | Phase::Ended => Need::Nothing,
            _ => Need::RefLock,
        }
    }

    /// At most so many steps are left; each byte that isn't staged counts as one.
    pub fn left(&self) -> u128
        ensures { result ≡ left self.now }
    {
        match self.phase {
            Phase::Stage => self.left_to_stage() + 3,
            Phase::Clear => 5,
            Phase::Link => 4,
            Phase::Look => 3,
            Phase::Sync => 1,
            Phase::Ended => 0,
            _ => 2,
        }
    }

    // the same of the file alone
    fn left_to_stage(&self) -> u128
        ensures value { result ≡ left_to_stage self.now.change }
        ensures small { result < 2 ^ 63 + 4 }
    {
        match &self.change {
            Change::File(file) => file.left(),
            _ => 0,
        }
    }
}
