/// What a step of a task came to: there is more to do, or the task is done.
#[derive(Drop, Debug)]
pub enum StepResult<T> {
    More,
    Done(T),
}

/// Which lock the next step of a task must stand under.
#[derive(Clone, Copy, Debug, PartialEq, Eq)]
pub enum Need {
    /// None.
    Nothing,
    /// A pin on the object that the step looks up.
    Pin,
    /// The lock of those that store one object.
    Shared,
    /// The lock of the one that removes objects.
    Exclusive,
    /// The lock of the one that shows a change.
    RefLock,
    /// The lock of the one that works on the list of deployments.
    Sysroot,
    /// The hold on the deployment whose `etc` is read.
    Hold,
    /// The lock of the one that shows a change, at a deployment that nobody holds.
    RefLockAtPlace,
    /// The end of a pull, when nobody has one of its wants in hand.
    End,
}
