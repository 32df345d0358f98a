//! What each crash of a running system leaves of the store is good, over whatever bytes its commands bring: an opening finds nothing
//! wrong with it.
#![tactic(auto)]

mod laws;
mod storing;

pub use laws::{
    bytes_are_known, images_of_stores, more_is_brought, names_of_stores, removals_outlast_others,
    removals_settle, removals_stand, stores_stand, stores_stay_good,
};
pub use storing::{Storing, Writing};
