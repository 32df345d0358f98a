//! Values.

use crate::text::GvText;
use crate::type_string::GvKind;

/// A value of some type. `fits` tells of which types it is one: nothing here keeps, for example, that the elements
/// of an array are alike.
#[derive(Debug, Drop)]
pub enum Value {
    /// `y`
    Byte(u8),
    /// `b`
    Bool(bool),
    /// `n`
    I16(i16),
    /// `q`
    U16(u16),
    /// `i`
    I32(i32),
    /// `u`
    U32(u32),
    /// `x`
    I64(i64),
    /// `t`
    U64(u64),
    /// `h`: the index of a file descriptor that is sent beside the message.
    Handle(i32),
    /// `d`: the number's 8 bytes, low byte first.
    Double([u8; 8]),
    /// `s`, `o` or `g`
    Str(GvText),
    /// `a` and the type of the elements
    Array(Vec<Value>),
    /// `(`, the types of the members, `)`
    Tuple(Vec<Value>),
    /// `{`, the types of the key and the value, `}`
    Entry(Box<Value>, Box<Value>),
    /// `m` and the type of the content
    Maybe(Option<Box<Value>>),
    /// `v`: the content with its type.
    Variant(GvKind, Box<Value>),
}
