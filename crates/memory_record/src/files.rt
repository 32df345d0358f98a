ghost use Rattle.std.specs.Prelude.{◌≡◌, IfOk, MatchOption};
ghost use Rattle.ost_types.specs.declared.meta.Meta.{Meta};
ghost use Rattle.memory_record.specs.Changes.{view_of};
ghost use Rattle.memory_record.specs.Seen.{bytes_after, synced_after, meta_after};

use crate::change::Change;
use crate::found::root_meta;
use memory_table::spoil;
use ost_types::{Bytes, Meta, NoMemory, TryCopy};
use std::alloc::Global;

/// What a file holds, and whether that is synced.
#[derive(Drop)]
struct Content {
    bytes: Bytes,
    synced: bool,
}

/// The bytes of a file after these changes.
pub fn bytes_of(alloc: Global, changes: &[Change], inode: u64) -> Result<Bytes, NoMemory>
    ensures { IfOk result (λ b. b ≡ (view_of changes.now).now.bytes inode) }
{
    let mut content = Content {
        bytes: Bytes::new(alloc),
        synced: true,
    };
    for change in changes {
        content = changed(alloc, change, inode, content)?;
    }
    Ok(content.bytes)
}

fn changed(
    alloc: Global,
    change: &Change,
    inode: u64,
    content: Content,
) -> Result<Content, NoMemory>
    ensures bytes { IfOk result (λ c. c.bytes ≡ bytes_after change.now inode content.synced content.bytes) }
    ensures synced { IfOk result (λ c. c.synced ≡ synced_after change.now inode content.synced) }
{
    let Content {
        mut bytes,
        mut synced,
    } = content;
    match change {
        Change::Create(_, _, created) => {
            if *created == inode {
                bytes = Bytes::new(alloc);
                synced = false;
            }
        }
        Change::Extend(extended, more) => {
            if *extended == inode {
                bytes.append(more.as_slice())?;
                synced = false;
            }
        }
        Change::SyncFile(file) => {
            if *file == inode {
                synced = true;
            }
        }
        Change::SyncAll => synced = true,
        Change::Crash(fill) => {
            if !synced {
                bytes = spoil(alloc, &bytes, *fill)?;
            }
            synced = true;
        }
        Change::Nothing => {}
        Change::Name(_, _) => {}
        Change::Move(_, _) => {}
        Change::SyncFolder(_) => {}
    }
    Ok(Content { bytes, synced })
}

// The attributes that a change gave a file.
fn made(change: &Change, inode: u64) -> Option<&Meta>
    ensures { (before : Meta) → MatchOption result (meta_after change.now inode before ≡ before) (λ m. meta_after change.now inode before ≡ m.now) }
{
    match change {
        Change::Create(_, meta, created) => { if *created == inode { Some(meta) } else { None } }
        Change::Nothing => None,
        Change::Name(_, _) => None,
        Change::Move(_, _) => None,
        Change::Extend(_, _) => None,
        Change::SyncFile(_) => None,
        Change::SyncFolder(_) => None,
        Change::SyncAll => None,
        Change::Crash(_) => None,
    }
}

/// The attributes of a file after these changes.
pub fn meta_of(alloc: Global, changes: &[Change], inode: u64) -> Result<Meta, NoMemory>
    ensures { IfOk result (λ m. m ≡ (view_of changes.now).now.meta inode) }
{
    let mut i = changes.len();
    while i > 0 {
        i -= 1;
        if let Some(meta) = made(&changes[i], inode) {
            return meta.copy();
        }
    }
    Ok(root_meta(alloc))
}
