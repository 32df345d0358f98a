//! GVariant values in normal form: little-endian bytes, each value in the one form that the specification calls normal.
//!
//! `parse_kind` reads a type string, `decode` bytes and `encode` a value; `fits` tells which values have a normal form.
//! `cut` and `join` go between a container's bytes and its members' bytes, for objects too large for a `Value`.
#![tactic(auto)]

mod codec;
mod container;
mod fault;
mod kind;
mod measuring;
mod reading;
mod runs;
mod text;
mod type_string;
mod value;
mod writing;

pub use codec::{decode, encode};
pub use container::{cut, join};
pub use fault::{GvFault, GvNoMemory};
pub use measuring::fits;
pub use text::{GvBytes, GvText};
pub use type_string::{GvKind, parse_kind};
pub use value::Value;
