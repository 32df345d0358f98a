/// How much of the folder is made.
#[derive(Clone, Copy, Debug, PartialEq, Eq)]
pub enum Made {
    /// Nothing: the folder itself comes next.
    Nothing,
    /// The folder, and a part of what is in it.
    Part,
    All,
}
