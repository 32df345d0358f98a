//! The GVariant types of the objects and of their parts.

ghost use Rattle.std.specs.Prelude.{◌≡◌, IfOk};
ghost use Rattle.ost_forms.specs.TypeText.{type_text};

use gv_core::{GvFault, GvKind, parse_kind};
use ost_types::NoMemory;
use std::alloc::Global;

#[derive(Clone, Copy)]
pub(crate) enum ObjectType {
    Commit,
    Metadata,
    Related,
    /// Metadata as the only member of a tuple, in which it has the same bytes.
    AloneMetadata,
    /// Related objects as the only member of a tuple.
    AloneRelated,
    DirTree,
    Files,
    File,
    Folders,
    Folder,
    DirMeta,
    Header,
    Xattrs,
    Xattr,
}

impl ObjectType {
    fn text(self) -> &'static [u8]
        ensures { result.now ≡ type_text self }
    {
        match self {
            ObjectType::Commit => b"(a{sv}aya(say)sstayay)",
            ObjectType::Metadata => b"a{sv}",
            ObjectType::Related => b"a(say)",
            ObjectType::AloneMetadata => b"(a{sv})",
            ObjectType::AloneRelated => b"(a(say))",
            ObjectType::DirTree => b"(a(say)a(sayay))",
            ObjectType::Files => b"a(say)",
            ObjectType::File => b"(say)",
            ObjectType::Folders => b"a(sayay)",
            ObjectType::Folder => b"(sayay)",
            ObjectType::DirMeta => b"(uuua(ayay))",
            ObjectType::Header => b"(uuuusa(ayay))",
            ObjectType::Xattrs => b"a(ayay)",
            ObjectType::Xattr => b"(ayay)",
        }
    }

    pub(crate) fn kind(self, alloc: Global) -> Result<GvKind, NoMemory>
        ensures { IfOk result (λ k. k ≡ type_text self) }
    {
        match parse_kind(alloc, self.text()) {
            Ok(kind) => Ok(kind),
            Err(GvFault::NoMemory) => Err(NoMemory),
            Err(GvFault::BadKind) => unreachable!(),
            Err(GvFault::TooDeep) => unreachable!(),
            Err(GvFault::NotNormal) => unreachable!(),
        }
    }
}
