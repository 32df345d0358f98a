//! Work that is done in steps.
use crate::stop::Stop;
use boot_swap::SwapTask;
use checkout::RemoveTask;
use counted_files::Counted;
use deploy_clean::CleanTask;
use deployment_build::DeploymentBuild;
use fs_trait::{Fs, StepResult};
use host_edit::EditTask;
use obj_store::PutTask;
use ost_types::Limits;
use prune_mark::Marking;
use prune_sweep::{Listing, Sweep};
use ref_store::RefTask;
use staged_file::StagedFile;
use tree_copy::TreeCopy;
use tree_kernel::KernelSum;
use tree_read::TreeTask;
use tree_walk::WalkTask;

pub trait Work {
    /// Does the next step. Whether it was the last one.
    fn advance<'a, F: Fs>(&mut self, fs: &mut Counted<'a, F>) -> Result<bool, Stop>;
}

fn is_over<T: Drop>(turn: StepResult<T>) -> bool {
    match turn {
        StepResult::More => false,
        StepResult::Done(_) => true,
    }
}

impl Work for PutTask {
    fn advance<'a, F: Fs>(&mut self, fs: &mut Counted<'a, F>) -> Result<bool, Stop> {
        Ok(is_over(self.step(fs)?))
    }
}

impl Work for RefTask {
    fn advance<'a, F: Fs>(&mut self, fs: &mut Counted<'a, F>) -> Result<bool, Stop> {
        Ok(is_over(self.step(fs)?))
    }
}

impl Work for StagedFile {
    fn advance<'a, F: Fs>(&mut self, fs: &mut Counted<'a, F>) -> Result<bool, Stop> {
        Ok(is_over(self.step(fs)?))
    }
}

impl Work for TreeTask {
    fn advance<'a, F: Fs>(&mut self, fs: &mut Counted<'a, F>) -> Result<bool, Stop> {
        Ok(is_over(self.step(fs)?))
    }
}

impl Work for WalkTask {
    fn advance<'a, F: Fs>(&mut self, fs: &mut Counted<'a, F>) -> Result<bool, Stop> {
        Ok(is_over(self.step(fs)?))
    }
}

impl Work for RemoveTask {
    fn advance<'a, F: Fs>(&mut self, fs: &mut Counted<'a, F>) -> Result<bool, Stop> {
        Ok(is_over(self.step(fs)?))
    }
}

impl Work for SwapTask {
    fn advance<'a, F: Fs>(&mut self, fs: &mut Counted<'a, F>) -> Result<bool, Stop> {
        Ok(is_over(self.step(fs)?))
    }
}

impl Work for Listing {
    fn advance<'a, F: Fs>(&mut self, fs: &mut Counted<'a, F>) -> Result<bool, Stop> {
        Ok(is_over(self.step(fs)?))
    }
}

impl Work for Marking {
    fn advance<'a, F: Fs>(&mut self, fs: &mut Counted<'a, F>) -> Result<bool, Stop> {
        match self.step(fs, &Limits::standard()) {
            Ok(turn) => Ok(is_over(turn)),
            Err(_) => Err(Stop::Unmade),
        }
    }
}

impl Work for Sweep {
    fn advance<'a, F: Fs>(&mut self, fs: &mut Counted<'a, F>) -> Result<bool, Stop> {
        Ok(is_over(self.step(fs)?))
    }
}

impl Work for KernelSum {
    fn advance<'a, F: Fs>(&mut self, fs: &mut Counted<'a, F>) -> Result<bool, Stop> {
        Ok(is_over(self.step(fs)?))
    }
}

impl Work for TreeCopy {
    fn advance<'a, F: Fs>(&mut self, fs: &mut Counted<'a, F>) -> Result<bool, Stop> {
        Ok(is_over(self.step(fs)?))
    }
}

impl Work for DeploymentBuild {
    fn advance<'a, F: Fs>(&mut self, fs: &mut Counted<'a, F>) -> Result<bool, Stop> {
        Ok(is_over(self.step(fs)?))
    }
}

impl Work for CleanTask {
    fn advance<'a, F: Fs>(&mut self, fs: &mut Counted<'a, F>) -> Result<bool, Stop> {
        Ok(is_over(self.step(fs)?))
    }
}

impl Work for EditTask {
    fn advance<'a, F: Fs>(&mut self, fs: &mut Counted<'a, F>) -> Result<bool, Stop> {
        Ok(is_over(self.step(fs)?))
    }
}
