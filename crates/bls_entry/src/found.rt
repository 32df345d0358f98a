//! The values that lines gave, each by its key.
ghost use Rattle.std.specs.Prelude.{◌≡◌, ◌<◌, ◌^◌, [], List, None, IfOk, IfSome, MatchBool, MatchOption, MatchResult, unwrap_or};
ghost use Rattle.std.specs.Fmt.{decimal};
ghost use Rattle.std.specs.Option.{option_copied, option_map};
ghost use Rattle.ost_types.specs.Text.{IsText};
ghost use Rattle.bls_entry.specs.Line.{BeginsSetting, IsOneLine, IsVersion, Line};
ghost use Rattle.bls_entry.specs.Entry.{AreLinesOf, IsVersionOf};
ghost use Rattle.bls_entry.specs.Tracks.{AreTexts, Follows, IsNone, MayNot, Refuses, Takes, Tracks, shown};

use crate::entry::BlsEntry;
use crate::fault::BlsFault;
use crate::key::{Key, key_of};
use crate::number::read_version;
use crate::options::names_one;
use crate::setting::read_setting;
use crate::text::{as_text, text_from};
use ost_types::{NoMemory, Text};
use std::alloc::Global;

#[derive(Clone, Copy)]
pub struct Found<'a> {
    title: Option<&'a str>,
    version: Option<u32>,
    options: Option<&'a str>,
    linux: Option<&'a str>,
    initrd: Option<&'a str>,
}

impl<'a> Found<'a> {
    pub fn nothing() -> Found<'a>
        ensures { Tracks result [] }
    {
        Found {
            title: None,
            version: None,
            options: None,
            linux: None,
            initrd: None,
        }
    }

    /// Takes the line, or answers false where it may not follow, and takes nothing.
    pub fn take(&mut self, line: &'a [u8]) -> bool
        requires { IsOneLine line.now }
        ensures { (before : List Line) → Tracks self.old before → MatchBool result (Follows before line.now self.new) (MayNot before line.now) }
    {
        match self.with_line(line) {
            Some(found) => {
                *self = found;
                true
            }
            None => false,
        }
    }

    /// With the line more, or None where it may not follow.
    fn with_line(self, line: &'a [u8]) -> Option<Found<'a>>
        requires { IsOneLine line.now }
        ensures { (before : List Line) → Tracks self.entry before → MatchOption result (MayNot before line.now) (Follows before line.now) }
    {
        let Some((first, _)) = line.split_first() else {
            return Some(self);
        };
        if *first == b'#' {
            return Some(self);
        }
        self.with_setting(line)
    }

    fn with_setting(self, line: &'a [u8]) -> Option<Found<'a>>
        requires one { IsOneLine line.now }
        requires begins { BeginsSetting line.now }
        ensures { (before : List Line) → Tracks self.entry before → MatchOption result (MayNot before line.now) (Follows before line.now) }
    {
        let (name, value) = read_setting(line)?;
        match key_of(name) {
            Some(key) => self.with(key, value),
            None => Some(self),
        }
    }

    /// With the value more, or None where the key may not have it, or has one already.
    fn with(self, key: Key, value: &'a [u8]) -> Option<Found<'a>>
        ensures { MatchOption result (Refuses (shown self.entry) key value.now) (λ new. Takes (shown self.entry) (shown new) key value.now) }
    {
        match key {
            Key::Title => Some(Found {
                title: Some(text_once(self.title, value)?),
                ..self
            }),
            Key::Version => Some(Found {
                version: Some(version_once(self.version, value)?),
                ..self
            }),
            Key::Options => Some(Found {
                options: Some(text_once(self.options, value)?),
                ..self
            }),
            Key::Linux => Some(Found {
                linux: Some(text_once(self.linux, value)?),
                ..self
            }),
            Key::Initrd => Some(Found {
                initrd: Some(text_once(self.initrd, value)?),
                ..self
            }),
        }
    }

    /// The entry that the lines say.
    pub fn into_entry(self, alloc: Global) -> Result<BlsEntry, BlsFault>
        requires { AreTexts (shown self) }
        ensures { (lines : List Line) → Tracks self.entry lines → MatchResult result (λ e. AreLinesOf e lines) (IsNone lines) }
    {
        let Some(options) = self.options else {
            return Err(BlsFault::NoOptions);
        };
        if !names_one(options.as_bytes()) {
            return Err(BlsFault::NoOstree);
        }
        Ok(BlsEntry {
            title: text_or_empty(alloc, self.title)?,
            version: version_or_zero(self.version),
            options: text_from(alloc, options)?,
            linux: text_or_empty(alloc, self.linux)?,
            initrd: text_if_some(alloc, self.initrd)?,
        })
    }
}

/// The value as a text, or None where it is none, or where there is one already.
fn text_once<'a>(there: Option<&str>, value: &'a [u8]) -> Option<&'a str>
    ensures { MatchOption result (IsText value.now → option_copied there.entry ≡ None → ⊥) (λ text. IsText value.now × (option_copied there.entry ≡ None) × (text.now ≡ value.now)) }
{
    match there {
        Some(_) => None,
        None => as_text(value),
    }
}

/// The version that the value says, or None where it says none, or where there is one already.
fn version_once(there: Option<u32>, value: &[u8]) -> Option<u32>
    ensures { MatchOption result (IsVersion value.now → there ≡ None → ⊥) (λ n. (n < 2 ^ 32) × (value.now ≡ decimal n) × (there ≡ None)) }
{
    match there {
        Some(_) => None,
        None => read_version(value),
    }
}

fn version_or_zero(version: Option<u32>) -> u32
    ensures { IsVersionOf result (option_map decimal version) }
{
    match version {
        Some(number) => number,
        None => 0,
    }
}

fn text_or_empty(alloc: Global, text: Option<&str>) -> Result<Text, NoMemory>
    requires { IfSome (option_copied text) IsText }
    ensures { IfOk result (λ t. t ≡ unwrap_or (option_copied text.entry) []) }
{
    match text {
        Some(text) => text_from(alloc, text),
        None => text_from(alloc, ""),
    }
}

fn text_if_some(alloc: Global, text: Option<&str>) -> Result<Option<Text>, NoMemory>
    requires { IfSome (option_copied text) IsText }
    ensures { IfOk result (λ t. t ≡ option_copied text.entry) }
{
    match text {
        Some(text) => Ok(Some(text_from(alloc, text)?)),
        None => Ok(None),
    }
}
