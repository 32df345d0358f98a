//! One line more.
ghost use Rattle.std.specs.Prelude.{◌≡◌, ◌≢◌, ◌<◌, ◌≤◌, ◌^◌, ◌++◌, ◌∷◌, [], codes, length, IfOk, MatchResult, true, false};
ghost use Rattle.script.specs.Field.{IsNumber};
ghost use Rattle.script.specs.declared.fault.ScriptFault.TheVariants as fault;
ghost use Rattle.script_reader.specs.Drafts.{lanes_of, state_of};
ghost use Rattle.script_reader.specs.Script.{between, in_lane, in_tree, lane_limit, start, Leads, OpensTree, Refuses};

use crate::commands::next_command;
use crate::cut::cut;
use crate::draft::{Draft, Sections};
use crate::nodes::next_node;
use ost_forms::TreeItem;
use ost_types::{Items, NoMemory};
use script::{Command, Lane, ScriptFault, read_u32};
use std::alloc::Global;

/// What the lines have said with this one, or why it can't stand here.
pub fn follow(alloc: Global, draft: Draft, line: &[u8], number: u32) -> Result<Draft, ScriptFault>
    ensures { MatchResult result (λ d. Leads (state_of draft) line.now (state_of d)) (λ e. Refuses (state_of draft) line.now number e) }
{
    match draft {
        Draft::Start => begin(alloc, line, number),
        Draft::Between(sections) => open(alloc, sections, line, number),
        Draft::Tree(sections, items) => follow_tree(alloc, sections, items, line, number),
        Draft::Lane(sections, commands) => follow_lane(alloc, sections, commands, line, number),
    }
}

fn begin(alloc: Global, line: &[u8], number: u32) -> Result<Draft, ScriptFault>
    ensures { MatchResult result (λ d. Leads start line.now (state_of d)) (λ e. Refuses start line.now number e) }
{
    if !is_word(line, b"ostree-script 1") {
        return Err(ScriptFault::BadLine(number));
    }
    Ok(Draft::Between(Sections {
        trees: Vec::new(alloc),
        lanes: Vec::new(alloc),
    }))
}

/// How many lanes a script has at most.
pub const LANE_LIMIT: usize = 8;

fn open(alloc: Global, sections: Sections, line: &[u8], number: u32) -> Result<Draft, ScriptFault>
    ensures { MatchResult result (λ d. Leads (between sections.trees.items (lanes_of sections)) line.now (state_of d)) (λ e. Refuses (between sections.trees.items (lanes_of sections)) line.now number e) }
{
    if is_word(line, b"lane") {
        return open_lane(alloc, sections);
    }
    if opens_tree(alloc, line, sections.trees.len())? {
        Ok(Draft::Tree(sections, Items::new(alloc)))
    } else {
        Err(ScriptFault::BadLine(number))
    }
}

fn open_lane(alloc: Global, sections: Sections) -> Result<Draft, ScriptFault>
    ensures { MatchResult result (λ d. (length (lanes_of sections) < lane_limit) × (state_of d ≡ in_lane sections.trees.items (lanes_of sections) [])) (λ e. (e ≡ fault.TooManyLanes) × (lane_limit ≤ length (lanes_of sections))) }
{
    if sections.lanes.len() >= LANE_LIMIT {
        return Err(ScriptFault::TooManyLanes);
    }
    Ok(Draft::Lane(sections, Vec::new(alloc)))
}

/// Whether the text is this word.
fn is_word(text: &[u8], word: &[u8]) -> bool
    ensures yes { result ≡ true → text.now ≡ word.now }
    ensures no { result ≡ false → text.now ≢ word.now }
{
    text == word
}

/// Whether the line begins the tree of this number.
fn opens_tree(alloc: Global, line: &[u8], count: usize) -> Result<bool, NoMemory>
    ensures yes { IfOk result (λ b. b ≡ true → OpensTree count line.now) }
    ensures no { IfOk result (λ b. b ≡ false → ¬ (OpensTree count line.now)) }
{
    let fields = cut(alloc, line, b' ')?;
    match fields.as_slice() {
        [keyword, number] => is_head(alloc, keyword, number, count),
        _ => Ok(false),
    }
}

fn is_head(alloc: Global, keyword: &[u8], number: &[u8], count: usize) -> Result<bool, NoMemory>
    ensures yes { IfOk result (λ b. b ≡ true → (keyword.now ≡ codes "tree") × IsNumber (2 ^ 32) number.now count) }
    ensures no { IfOk result (λ b. b ≡ false → (keyword.now ≡ codes "tree") × IsNumber (2 ^ 32) number.now count → ⊥) }
{
    if is_word(keyword, b"tree") {
        has_number(alloc, number, count)
    } else {
        Ok(false)
    }
}

fn has_number(alloc: Global, field: &[u8], count: usize) -> Result<bool, NoMemory>
    ensures yes { IfOk result (λ b. b ≡ true → IsNumber (2 ^ 32) field.now count) }
    ensures no { IfOk result (λ b. b ≡ false → ¬ (IsNumber (2 ^ 32) field.now count)) }
{
    match read_u32(alloc, field)? {
        Some(number) => Ok(number as usize == count),
        None => Ok(false),
    }
}

fn follow_tree(
    alloc: Global,
    sections: Sections,
    items: Items<TreeItem>,
    line: &[u8],
    number: u32,
) -> Result<Draft, ScriptFault>
    ensures { MatchResult result (λ d. Leads (in_tree sections.trees.items (lanes_of sections) items) line.now (state_of d)) (λ e. Refuses (in_tree sections.trees.items (lanes_of sections) items) line.now number e) }
{
    if is_word(line, b"end") {
        return Ok(end_tree(sections, items)?);
    }
    match next_node(alloc, items, line)? {
        Some(items) => Ok(Draft::Tree(sections, items)),
        None => Err(ScriptFault::BadLine(number)),
    }
}

fn end_tree(mut sections: Sections, items: Items<TreeItem>) -> Result<Draft, NoMemory>
    ensures { IfOk result (λ d. state_of d ≡ between (sections.trees.items ++ items ∷ []) (lanes_of sections)) }
{
    sections.trees.push(items)?;
    Ok(Draft::Between(sections))
}

fn follow_lane(
    alloc: Global,
    sections: Sections,
    commands: Vec<Command>,
    line: &[u8],
    number: u32,
) -> Result<Draft, ScriptFault>
    ensures { MatchResult result (λ d. Leads (in_lane sections.trees.items (lanes_of sections) commands.items) line.now (state_of d)) (λ e. Refuses (in_lane sections.trees.items (lanes_of sections) commands.items) line.now number e) }
{
    if is_word(line, b"end") {
        return Ok(end_lane(sections, commands)?);
    }
    match next_command(alloc, &sections.trees, commands, line, number) {
        Ok(commands) => Ok(Draft::Lane(sections, commands)),
        Err(fault) => Err(fault),
    }
}

fn end_lane(mut sections: Sections, commands: Vec<Command>) -> Result<Draft, NoMemory>
    ensures { IfOk result (λ d. state_of d ≡ between sections.trees.items (lanes_of sections ++ commands.items ∷ [])) }
{
    sections.lanes.push(Lane { commands })?;
    Ok(Draft::Between(sections))
}
