/// What the system tells a task before a step of it.
#[derive(Clone, Copy, Debug, PartialEq, Eq)]
pub struct Told {
    /// How many objects are in the store.
    pub objects: u32,
}
