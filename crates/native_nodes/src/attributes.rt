//! What the machine keeps of a node's attributes: owner, group and mode.
ghost use Rattle.std.specs.Prelude.{◌≡◌, ◌*◌, ◌+◌, ◌<◌, ℕ, [], MatchOption};
ghost use Rattle.std.specs.Fs.{metadata_mode, permissions_mode};
ghost use Rattle.native_nodes.specs.Attributes.{IsGivable, Gives};
ghost use Rattle.native_nodes.specs.declared.attributes.Attributes.{Attributes};

use ost_types::{Meta, Xattrs};
use std::alloc::Global;
use std::fs::{Metadata, Permissions};
use std::os::unix::fs::{MetadataExt, PermissionsExt};

/// The mode of each symbolic link, which has no permissions of its own on the machine.
pub const LINK_MODE: u32 = 0o120777;

// As an owner or a group it asks the machine for no change.
const UNCHANGED: u32 = u32::MAX;

/// Owner, group, and mode with the bits of the type.
#[derive(Clone, Copy, Debug, PartialEq, Eq)]
pub struct Attributes {
    pub uid: u32,
    pub gid: u32,
    pub mode: u32,
}

impl Attributes {
    /// The attributes that a node is to have. None where the machine can't be given them: extended ones aren't within
    /// reach, and no owner or group has the number 4,294,967,295.
    pub fn to_give(meta: &Meta) -> Option<Attributes>
        ensures { MatchOption result (IsGivable meta.now → ⊥) (Gives meta.now) }
    {
        if !meta.xattrs.as_slice().is_empty() || meta.uid == UNCHANGED || meta.gid == UNCHANGED {
            return None;
        }
        Some(Attributes {
            uid: meta.uid,
            gid: meta.gid,
            mode: meta.mode,
        })
    }

    /// The attributes that the machine tells of a node.
    pub fn told(metadata: &Metadata) -> Attributes
        ensures { result.mode ≡ metadata_mode metadata.now }
    {
        Attributes {
            uid: metadata.uid(),
            gid: metadata.gid(),
            mode: metadata.mode(),
        }
    }

    /// The same with no extended ones.
    pub fn into_meta(self, alloc: Global) -> Meta
        ensures { result ≡ record { uid = self.uid; gid = self.gid; mode = self.mode; xattrs = [] } }
    {
        Meta {
            uid: self.uid,
            gid: self.gid,
            mode: self.mode,
            xattrs: Xattrs::new(alloc),
        }
    }

    /// The bits of the mode below the type's: permissions, the set-id bits and the sticky bit.
    pub fn bits(self) -> u32
        ensures { (kind bits : ℕ) → bits < 4096 → self.mode ≡ 4096 * kind + bits → result ≡ bits }
    {
        self.mode % 4096
    }

    /// All of these bits, as the machine takes them.
    pub fn permissions(self) -> Permissions
        ensures { (kind bits : ℕ) → bits < 4096 → self.mode ≡ 4096 * kind + bits → permissions_mode result ≡ bits }
    {
        Permissions::from_mode(self.bits())
    }
}
