/// What the next step makes.
#[derive(Clone, Copy, Debug, PartialEq, Eq)]
pub enum BuildPhase {
    /// The checkout of the tree; where something stands at its path it is refused.
    Checkout,
    /// The deployment's `etc`, of files of its own.
    Etc,
    /// The origin file.
    Origin,
    /// The copies of the kernel.
    Kernel,
    /// Nothing: all is there.
    Ended,
    /// Nothing: something stood where the tree was to be.
    Refused,
}
