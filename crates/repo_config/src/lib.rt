//! The configuration of a repository: what it has to be, and the one that is written where there is none.
#![tactic(auto)]

mod config;
mod laws;

pub use config::{CONFIG_LIMIT, config_text, is_config};
pub use laws::new_config;
