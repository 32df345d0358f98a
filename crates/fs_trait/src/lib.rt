//! The outside of the project as traits: a file system with what a crash may leave of it, a source and a sink.
#![tactic(auto)]

mod fs;
mod laws;
mod streams;
mod task;
mod types;

pub use fs::Fs;
pub use laws::{image_of_image, left_since_now, settled_disk};
pub use streams::{Sink, SinkErr, Source, SourceErr};
pub use task::{Need, StepResult};
pub use types::{FsErr, Node, Value};
