/// What a removal of deployments answers.
#[derive(Clone, Copy, Debug, PartialEq, Eq)]
pub enum CleanAnswer {
    /// No deployment stands that the list doesn't name, nor its origin file; or no list is selected, and none was removed.
    Cleaned,
}
