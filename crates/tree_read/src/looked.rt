//! What was found of an object.

/// The object, unless it is missing or damaged.
#[derive(Drop, Debug)]
pub enum Looked<T> {
    Here(T),
    Absent,
    Damaged,
}
