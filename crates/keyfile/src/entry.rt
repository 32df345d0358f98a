use ost_types::{NoMemory, Text, TryCopy};

/// A key of a keyfile, with the name of its group and its value.
#[derive(Drop, Debug, PartialEq, Eq)]
pub struct KeyLine {
    /// From the space to `~`, but for brackets.
    pub group: Text,
    /// Letters, digits, `-`, `_` and `.`.
    pub key: Text,
    /// Anything in one line, and it may be empty.
    pub value: Text,
}

impl TryCopy for KeyLine {
    fn copy(&self) -> Result<KeyLine, NoMemory> {
        Ok(KeyLine {
            group: self.group.copy()?,
            key: self.key.copy()?,
            value: self.value.copy()?,
        })
    }
}
