//! A reader that takes the lines of a keyfile one after the other.
ghost use Rattle.std.specs.Prelude.{◌≡◌, ◌∷◌, ◌++◌, [], ℕ, List, IfOk, OnOk, MatchResult};
ghost use Rattle.ost_types.specs.Text.{IsText};
ghost use Rattle.keyfile.specs.Line as lines;
ghost use Rattle.keyfile.specs.Line.{IsGroupName, IsKeyName, IsOneLine, IsValue};
ghost use Rattle.keyfile.specs.Line.Line.{Group, Key};
ghost use Rattle.keyfile.specs.Tracks.{HasText, Refuses, RefusesText, Tracks};

use crate::entry::KeyLine;
use crate::fault::KeyFault;
use crate::line::{Line, read_line};
use crate::names::add;
use ost_types::{NoMemory, Text, TryCopy};
use std::alloc::Global;
use std::collections::BTreeSet;

/// What was read so far. After an error it is of no further use.
#[derive(Drop)]
pub struct Reader<'a> {
    alloc: Global,
    entries: Vec<KeyLine>,
    // the last group
    group: Option<Text>,
    // the names of all groups, and of the keys in the last one
    groups: BTreeSet<&'a [u8]>,
    keys: BTreeSet<&'a [u8]>,
}

impl<'a> Reader<'a> {
    pub fn new(alloc: Global) -> Reader<'a>
        ensures { Tracks result [] }
    {
        Reader {
            alloc,
            entries: Vec::new(alloc),
            group: None,
            groups: BTreeSet::new(alloc),
            keys: BTreeSet::new(alloc),
        }
    }

    pub fn into_entries(self) -> Vec<KeyLine>
        ensures { result.items ≡ self.entry.entries.items }
    {
        self.entries
    }

    /// Takes the line with this number and text.
    pub fn take(&mut self, number: u64, text: &'a [u8]) -> Result<(), KeyFault>
        requires { IsOneLine text.now }
        ensures { (before : List lines.Line) → Tracks self.old before → MatchResult result (λ _. (line : lines.Line) × HasText line text.now × Tracks self.new (before ++ line ∷ [])) (RefusesText before text.now number) }
    {
        let Some(line) = read_line(text) else {
            return Err(KeyFault::BadLine(number));
        };
        match line {
            Line::Blank => Ok(()),
            Line::Comment(_) => Ok(()),
            Line::Group(name) => self.begin(number, name),
            Line::Key { key, value } => self.append(number, key, value),
        }
    }

    /// A group begins.
    fn begin(&mut self, number: u64, name: &'a [u8]) -> Result<(), KeyFault>
        requires { IsGroupName name.now }
        ensures { (before : List lines.Line) → Tracks self.old before → MatchResult result (λ _. Tracks self.new (before ++ Group name.now ∷ [])) (Refuses before (Group name.now) number) }
    {
        if !add(&mut self.groups, name)? {
            return Err(KeyFault::Repeated(number));
        }
        self.group = Some(text_from(self.alloc, name)?);
        self.keys.clear();
        Ok(())
    }

    /// A key stands in the last group.
    fn append(&mut self, number: u64, key: &'a [u8], value: &[u8]) -> Result<(), KeyFault>
        requires key { IsKeyName key.now }
        requires value { IsValue value.now }
        ensures { (before : List lines.Line) → Tracks self.old before → MatchResult result (λ _. Tracks self.new (before ++ Key key.now value.now ∷ [])) (Refuses before (Key key.now value.now) number) }
    {
        let Some(group) = &self.group else {
            return Err(KeyFault::NoGroup(number));
        };
        if !add(&mut self.keys, key)? {
            return Err(KeyFault::Repeated(number));
        }
        push(self.alloc, &mut self.entries, group, key, value)?;
        Ok(())
    }
}

fn push(
    alloc: Global,
    entries: &mut Vec<KeyLine>,
    group: &Text,
    key: &[u8],
    value: &[u8],
) -> Result<(), NoMemory>
    requires key { IsText key.now }
    requires value { IsText value.now }
    ensures { OnOk result (entries.new.items ≡ entries.old.items ++ record { group = group.now; key = key.now; value = value.now } ∷ []) }
{
    let entry = KeyLine {
        group: group.copy()?,
        key: text_from(alloc, key)?,
        value: text_from(alloc, value)?,
    };
    entries.push(entry)?;
    Ok(())
}

fn text_from(alloc: Global, bytes: &[u8]) -> Result<Text, NoMemory>
    requires { IsText bytes.now }
    ensures { IfOk result (λ text. text ≡ bytes.now) }
{
    match Text::parse(alloc, bytes)? {
        Some(text) => Ok(text),
        None => unreachable!(),
    }
}
