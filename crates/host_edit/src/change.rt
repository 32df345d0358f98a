ghost use Rattle.std.specs.Prelude.{◌≡◌};
ghost use Rattle.ost_types.specs.Mode.{IsLinkMode};
ghost use Rattle.host_edit.specs.Edit.{IsFitLeaf, link_meta};
ghost use Rattle.host_edit.specs.Editing.{leaf_change};

use crate::edit::NewLeaf;
use ost_types::{FsPath, Meta, Text, Xattrs};
use staging::{Plan, Staging};

/// What is to stand at the path.
#[derive(Drop, Debug)]
pub(crate) enum Change {
    /// A regular file, which is staged first.
    File(Staging),
    /// A symbolic link, which is staged first.
    Link(Meta, Text),
    Folder(Meta),
    Nothing,
}

/// The change that puts a leaf, by way of its staging path.
pub(crate) fn leaf_change(stage: FsPath, leaf: NewLeaf) -> Change
    requires { IsFitLeaf leaf }
    ensures { result ≡ leaf_change stage leaf }
{
    match leaf {
        NewLeaf::File { meta, bytes } => Change::File(Staging::new(Plan { stage, meta, bytes })),
        NewLeaf::Link {
            uid,
            gid,
            xattrs,
            target,
        } => Change::Link(link_meta(uid, gid, xattrs), target),
    }
}

// the attributes of a link: its mode is that of each link
fn link_meta(uid: u32, gid: u32, xattrs: Xattrs) -> Meta
    ensures value { result ≡ link_meta uid gid xattrs }
    ensures mode { IsLinkMode result.mode }
{
    Meta {
        uid,
        gid,
        mode: 0o120777,
        xattrs,
    }
}
