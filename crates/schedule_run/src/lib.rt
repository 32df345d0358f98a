//! Lanes that run as a schedule says.
#![tactic(auto)]

mod run;

pub use run::run_by;
