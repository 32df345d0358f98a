//! What a file system needs that stands on files of the machine: leaves that hold OSTree content streams, the reserved place in which they are made, what isn't synced yet, and the lock and the sync that come first.
#![tactic(auto)]

mod at_once;
mod attributes;
mod changed;
mod front;
mod header;
mod host_kind;
mod host_path;
mod known;
mod leaf;
mod links;
mod machine;
mod mark;
mod place;
mod private;
mod recent;
mod refusal;
mod share;
mod standing;
mod startup;
mod syncer;
mod young;

pub use at_once::{AtOnce, sync_at_once};
pub use attributes::{attributes_bytes, is_plain, plain_attributes, read_attributes};
pub use changed::Changed;
use front::Start;
pub use front::{file_front, link_front};
pub use header::FileHeader;
use header::HEADER_LEN;
pub use host_kind::HostKind;
pub use host_path::HostPath;
pub use known::Known;
pub use leaf::{Leaf, Opened, extend_leaf, open_leaf};
pub use links::link_or_copy;
pub use machine::{Machine, Syncs};
pub use mark::Mark;
pub use place::{PLACE, rename, show_folder, withdraw};
pub use private::{new_folder, sync};
pub use recent::Recent;
pub use refusal::{Fault, Refusal};
pub use share::Share;
pub use standing::{ATTRIBUTES, Standing, has_reserved, spell, spell_parent, walk};
pub use startup::{NoStart, start};
pub use syncer::{InTurn, Syncer};
pub use young::{Young, YoungFile};
