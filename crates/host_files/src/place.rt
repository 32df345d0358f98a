//! The reserved place: a folder at the top in which nodes are made, and those that are removed end.
ghost use Rattle.std.specs.Prelude.{◌≡◌, length};

use crate::private::{new_file, new_folder, sync};
use crate::{Fault, HostPath, Machine, Mark};
use std::fs::OpenFile;
use std::io::{ErrorKind, Read};
use std::rt::Files;
use std::{fs, io};

/// The name of the reserved place, at the top.
pub const PLACE: &str = ".ost-new";

/// The same as a text.
pub const PLACE_TEXT: &str = "./.ost-new";

/// The mark in it that nothing below the top is unsynced.
pub const CLEAN: &str = "./.ost-new/clean";

const CLEAN_NAME: &str = "clean";

// A leaf or a folder that is being made, and a folder that is being removed.
const MADE: &str = "./.ost-new/made";

const MADE_ATTRIBUTES: &str = "./.ost-new/made/.ost-folder";

const GONE: &str = "./.ost-new/gone";

const GONE_ATTRIBUTES: &str = "./.ost-new/gone/.ost-folder";

/// The text of the young file of this number.
pub fn spell_young(number: u32, text: &mut HostPath) {
    text.set("./.ost-new/");
    text.add(digit(number / 1000));
    text.add(digit(number / 100));
    text.add(digit(number / 10));
    text.add(digit(number));
}

// The last digit of a number.
fn digit(number: u32) -> &'static str
    ensures { length result.now ≡ 1 }
{
    match number % 10 {
        0 => "0",
        1 => "1",
        2 => "2",
        3 => "3",
        4 => "4",
        5 => "5",
        6 => "6",
        7 => "7",
        8 => "8",
        _ => "9",
    }
}

/// Makes a folder with these bytes as its attributes at a text, where nothing stands.
pub fn show_folder<R: Files>(rt: &R, at: &str, attributes: &[u8]) -> Result<(), Fault> {
    let shown = make_folder(rt, attributes).and_then(|()| rename(rt, MADE, at));
    if shown.is_err() {
        let _ = fs::remove_file(rt, MADE_ATTRIBUTES);
        let _ = fs::remove_dir(rt, MADE);
    }
    shown
}

fn make_folder<R: Files>(rt: &R, attributes: &[u8]) -> Result<(), Fault> {
    let mut attributes = attributes;
    new_folder(rt, MADE)?;
    write_synced(rt, MADE_ATTRIBUTES, &mut attributes)?;
    sync(rt, MADE)
}

/// Makes a leaf of these bytes at a text, where nothing stands.
pub fn show_copy<R: Files>(rt: &R, at: &str, bytes: &mut impl Read) -> Result<(), Fault> {
    let shown = write_synced(rt, MADE, bytes).and_then(|()| rename(rt, MADE, at));
    if shown.is_err() {
        let _ = fs::remove_file(rt, MADE);
    }
    shown
}

/// Removes a folder that has nothing in it but its attributes. No name shows it before they are gone.
pub fn withdraw<R: Files>(rt: &R, at: &str, parent: &str) -> Result<(), Fault> {
    rename(rt, at, GONE)?;
    sync(rt, parent)?;
    remove_if_there(rt, GONE_ATTRIBUTES)?;
    fs::remove_dir(rt, GONE)?;
    Ok(())
}

/// Removes what stands in the reserved place: all that a process left there which ended before its time, and beside a mark
/// what a loss of power brought back. The mark that was found is kept.
pub fn clear_place<R: Machine>(rt: &R, found: Mark) -> io::Result<()> {
    for entry in fs::read_dir(rt, PLACE_TEXT)? {
        match entry {
            Ok(entry) if found == Mark::Clean && entry.file_name() == CLEAN_NAME => {}
            Ok(entry) => remove(rt, entry.path().as_str())?,
            Err(e) if e.kind() == ErrorKind::InvalidFilename => {}
            Err(e) => return Err(e),
        }
    }
    Ok(())
}

/// Removes what stands at a text, whatever it is.
pub fn remove<R: Machine>(rt: &R, text: &str) -> io::Result<()> {
    if fs::symlink_metadata(rt, text)?.is_dir() {
        fs::remove_dir_all(rt, text)
    } else {
        fs::remove_file(rt, text)
    }
}

fn remove_if_there<R: Files>(rt: &R, text: &str) -> Result<(), Fault> {
    match fs::remove_file(rt, text) {
        Ok(()) => Ok(()),
        Err(e) if e.kind() == ErrorKind::NotFound => Ok(()),
        Err(_) => Err(Fault),
    }
}

/// Gives what is at one text another.
pub fn rename<R: Files>(rt: &R, from: &str, to: &str) -> Result<(), Fault> {
    fs::rename(rt, from, to)?;
    Ok(())
}

// A new host file with these bytes, which outlast a crash.
fn write_synced<R: Files>(rt: &R, text: &str, bytes: &mut impl Read) -> Result<(), Fault> {
    let mut file = new_file(rt, text)?;
    io::copy(bytes, &mut file)?;
    file.sync_all()?;
    Ok(())
}
