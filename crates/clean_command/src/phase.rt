use boot_model::DepId;
use deploy_clean::CleanTask;

/// How far a removal of deployments is.
#[derive(Drop, Debug)]
pub enum Phase {
    /// It waits for the lock.
    Waiting,
    /// It has it, and wasn't told yet which deployments are listed.
    Unlearned,
    /// It was, and doesn't know yet whether a list is selected.
    Looking(Vec<DepId>),
    /// What isn't listed is removed.
    Cleaning(CleanTask),
    /// It is done.
    Over,
}
