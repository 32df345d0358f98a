//! What a task tells of itself.
ghost use Rattle.std.specs.Prelude.{◌≡◌};
ghost use Rattle.ref_store.specs.Change.{progress_in, progress_of};

use super::RefTask;
use crate::phase::Phase;
use crate::progress::Progress;
use ost_types::Csum;
use repo_layout::RefName;
use staged_file::Phase as FilePhase;

impl RefTask {
    pub fn name(&self) -> &RefName
        ensures { result.now ≡ self.now.name }
    {
        &self.name
    }

    /// The value that the ref is to have so far.
    pub fn seen(&self) -> Option<Csum>
        ensures { result ≡ self.now.seen }
    {
        self.seen
    }

    /// The commit that the ref is to name, None where it is removed.
    pub fn value(&self) -> Option<Csum>
        ensures { result ≡ self.now.value }
    {
        self.value
    }

    /// What the next step does to the ref.
    pub fn progress(&self) -> Progress
        ensures { result ≡ progress_in self.now.phase }
    {
        match &self.phase {
            Phase::Look => Progress::Looking,
            Phase::Clear(_) | Phase::Walk(_) => Progress::Preparing,
            Phase::Put(file) => progress_of(file.phase()),
            Phase::Unlink => Progress::Showing,
            Phase::SyncFolder => Progress::Settling,
            Phase::Ended => Progress::Ended,
        }
    }
}

fn progress_of(phase: FilePhase) -> Progress
    ensures { result ≡ progress_of phase }
{
    match phase {
        FilePhase::Clear
        | FilePhase::Create
        | FilePhase::Append
        | FilePhase::SyncFile
        | FilePhase::Look => Progress::Preparing,
        FilePhase::Replace => Progress::Showing,
        FilePhase::SyncFolder => Progress::Settling,
        FilePhase::Ended => Progress::Ended,
    }
}
