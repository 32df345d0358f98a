//! Nodes that are made in the reserved place, and given their attributes there.
ghost use Rattle.std.specs.Prelude.{◌≡◌, length};

use crate::{Attributes, Look};
use host_files::{Fault, HostPath, rename};
use std::fs;
use std::fs::{DirBuilder, File, FileTimes, OpenFile, OpenOptions};
use std::os::unix::fs::{DirBuilderExt, OpenOptionsExt, lchown, symlink};
use std::rt::Files;
use std::time::UNIX_EPOCH;

/// The text of the reserved place.
pub const PLACE_TEXT: &str = "./.ost-new";

// A folder that is being made.
const MADE: &str = "./.ost-new/made";

/// The text of the young leaf of this number.
pub fn spell_young(number: u32, text: &mut HostPath) {
    text.set("./.ost-new/");
    text.add(digit(number / 1000));
    text.add(digit(number / 100));
    text.add(digit(number / 10));
    text.add(digit(number));
}

// The last digit of a number.
fn digit(number: u32) -> &'static str
    ensures { length result.now ≡ 1 }
{
    match number % 10 {
        0 => "0",
        1 => "1",
        2 => "2",
        3 => "3",
        4 => "4",
        5 => "5",
        6 => "6",
        7 => "7",
        8 => "8",
        _ => "9",
    }
}

/// A new file of this owner and group, open for writing, where nothing stands. Nobody else may read it.
pub fn new_private<R: Files>(rt: &R, text: &str, attributes: Attributes) -> Result<R::File, Fault> {
    let mut options = OpenOptions::new();
    options.write(true).create_new(true).mode(0o600);
    let file = options.open(rt, text)?;
    own(rt, text, attributes)?;
    Ok(file)
}

/// A new symbolic link of this owner and group, where nothing stands.
pub fn new_link<R: Files>(
    rt: &R,
    text: &str,
    target: &str,
    attributes: Attributes,
) -> Result<(), Fault> {
    symlink(rt, target, text)?;
    own(rt, text, attributes)
}

// Sets the owner and the group. The machine takes set-id bits away with that, so permissions come after it.
fn own<R: Files>(rt: &R, text: &str, attributes: Attributes) -> Result<(), Fault> {
    lchown(rt, text, Some(attributes.uid), Some(attributes.gid))?;
    Ok(())
}

/// Gives a file that has its owner and group its permissions.
pub fn finish<R: Files>(rt: &R, text: &str, attributes: Attributes) -> Result<(), Fault> {
    let file = File::open(rt, text)?;
    restore(&file, attributes)
}

/// Sets the permissions of a file, of which a write may have taken some away, and the time that each file of a repository has.
pub fn restore<F: OpenFile>(file: &F, attributes: Attributes) -> Result<(), Fault> {
    file.set_permissions(attributes.permissions())?;
    file.set_times(FileTimes::new().set_modified(UNIX_EPOCH))?;
    Ok(())
}

/// Makes a folder of these attributes at a text, where nothing stands. No name shows it without them.
pub fn show_folder<R: Files>(rt: &R, at: &str, attributes: Attributes) -> Result<(), Fault> {
    let shown = make_folder(rt, attributes).and_then(|()| rename(rt, MADE, at));
    if shown.is_err() {
        let _ = fs::remove_dir(rt, MADE);
    }
    shown
}

// A folder that has its attributes since it is made needs no sync of its own before it is shown.
fn make_folder<R: Files>(rt: &R, attributes: Attributes) -> Result<(), Fault> {
    let mut builder = DirBuilder::new();
    builder.mode(attributes.bits());
    builder.create(rt, MADE)?;
    if Look::at(rt, MADE)? == Look::Folder(attributes) {
        return Ok(());
    }
    give_folder(rt, attributes)
}

fn give_folder<R: Files>(rt: &R, attributes: Attributes) -> Result<(), Fault> {
    let folder = File::open(rt, MADE)?;
    own(rt, MADE, attributes)?;
    folder.set_permissions(attributes.permissions())?;
    folder.sync_all()?;
    Ok(())
}
