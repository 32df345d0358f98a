//! A checked object.

ghost use Rattle.std.specs.Prelude.{◌≡◌};
ghost use Rattle.ost_objects.specs.Object.{IsNamed, HasForm};

use ost_types::{Bytes, ObjName};

/// The bytes of an object, which have its name and read as its kind.
#[derive(Drop, Debug)]
pub struct Checked {
    pub name: ObjName,
    pub bytes: Bytes,
    /// The most bytes of a file's content under which it was read.
    pub limit: u64,
    pub ghost named: { IsNamed name bytes },
    pub ghost formed: { HasForm name.kind limit bytes },
}

impl Checked {
    pub fn name(&self) -> &ObjName
        ensures { result.now ≡ self.now.name }
    {
        &self.name
    }

    pub fn bytes(&self) -> &[u8]
        ensures { result.now ≡ self.now.bytes }
    {
        self.bytes.as_slice()
    }

    pub fn limit(&self) -> u64
        ensures { result ≡ self.now.limit }
    {
        self.limit
    }

    pub fn into_bytes(self) -> Bytes
        ensures { result ≡ self.bytes }
    {
        self.bytes
    }
}
