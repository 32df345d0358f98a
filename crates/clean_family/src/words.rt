/// A removal of the deployments that the list doesn't name.
#[derive(Drop)]
pub struct CleanWords {}
