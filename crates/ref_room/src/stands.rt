ghost use Rattle.std.specs.Prelude.{◌≡◌, ◌≤◌, Some, IfOk, IfErr};
ghost use Rattle.fs_trait.specs.View.{View};
ghost use Rattle.fs_trait.specs.Effect.{HasCause, IsQuiet, OfNone};
ghost use Rattle.ref_room.specs.Stands.{stands};

use fs_trait::{Fs, FsErr, Node};
use ost_types::FsPath;

/// What stands at a path. A link is a leaf too.
#[derive(Clone, Copy, Debug, PartialEq, Eq)]
pub enum Stands {
    Nothing,
    Folder,
    Leaf,
}

/// Looks at a path.
pub fn look_at<F: Fs>(fs: &mut F, at: &FsPath) -> Result<Stands, FsErr>
    ensures told { (v : View) → F.view fs.old ≡ Some v → IfOk result (λ found. found ≡ stands (v.now.at at.now)) }
    ensures named { IfErr result OfNone }
    ensures quiet { IsQuiet (F.clock fs.old) (F.clock fs.new) (F.was fs.old) (F.was fs.new) (F.view fs.old) (F.view fs.new) }
    ensures keeps_room { F.spare fs.old ≤ F.spare fs.new }
    ensures cause { HasCause (F.faults fs.old) (F.faults fs.new) result }
{
    Ok(match fs.stat(at)? {
        None => Stands::Nothing,
        Some(Node::Folder(_)) => Stands::Folder,
        Some(Node::File { .. }) => Stands::Leaf,
        Some(Node::Link { .. }) => Stands::Leaf,
    })
}
