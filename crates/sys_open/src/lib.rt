//! Opening the repository of a file system: it is checked, its folders are laid out, its configuration is written where there is
//! none, and what was staged or no list boots is removed.
#![tactic(auto)]

mod adopting;
mod arrange;
mod barrier;
mod boot_list;
mod check;
mod checkouts;
mod children;
mod clear;
mod config;
mod configure;
mod deployments;
mod entries;
mod fault;
mod found;
mod inside;
mod judged;
mod kinds;
mod layout;
mod least;
mod opening;
mod reaching;
mod refs;
mod removal;
mod several;
mod stages;
mod staying;
mod store;
mod unlisted;

pub use adopting::{Opened, OpenedParts, adopt};
pub use fault::{OpenFault, Why};
