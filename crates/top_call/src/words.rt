//! What the fields of a command line ask for.
ghost use Rattle.std.specs.Prelude.{◌≡◌, ◌⊎◌, ◌↔◌, ◌∷◌, List, [], ℕ, map, All, IfOk, IsTrue, MatchOption, MatchResult, Ok, Err};
ghost use Rattle.std.specs.String.{string_bytes};
ghost use Rattle.ost_types.specs.Text.{IsText};
ghost use Rattle.script.specs.Words.{ReadsWords};
ghost use Rattle.top_call.specs.declared.fault.TopFault.TheVariants as fault;
ghost use Rattle.top_call.specs.Words.{AreNoLone, AreNoRequest, IsRequest, commands_of};

use crate::fault::TopFault;
use ost_types::{NoMemory, Text};
use script_reader::{Lane, ScriptFault, read_words};
use std::alloc::Global;

/// What the fields of a command line ask for.
#[derive(Drop)]
pub enum Request {
    /// These lanes. `init` opens the repository and ends, so it has none; any other command is a lane of its own.
    Lanes(Vec<Lane>),
    /// The lanes of the script that the input is.
    Script,
}

/// What the command and its fields ask for.
pub fn read_request(alloc: Global, words: &[String]) -> Result<Request, TopFault>
    ensures { MatchResult result (IsRequest (map (λ word. string_bytes word) words.now)) (λ e. (e ≡ fault.NoMemory) ⊎ ((e ≡ fault.Usage) × AreNoRequest (map (λ word. string_bytes word) words.now))) }
{
    if is_alone(words, "init") {
        return Ok(Request::Lanes(Vec::new(alloc)));
    }
    if is_alone(words, "run") {
        return Ok(Request::Script);
    }
    match read_command(alloc, words) {
        Ok(lanes) => Ok(Request::Lanes(lanes)),
        Err(fault) => Err(fault),
    }
}

/// The lane of a command. A word that isn't text is no word of one, and there is no tree that a commit could be of.
fn read_command(alloc: Global, words: &[String]) -> Result<Vec<Lane>, TopFault>
    ensures { MatchResult result (λ lanes. ReadsWords (map (λ word. string_bytes word) words.now) (Ok (commands_of lanes.items))) (λ e. (e ≡ fault.NoMemory) ⊎ ((e ≡ fault.Usage) × AreNoLone (map (λ word. string_bytes word) words.now))) }
{
    let Some(texts) = texts_of(alloc, words)? else {
        return Err(TopFault::Usage);
    };
    match read_words(alloc, &texts) {
        Ok(lanes) => Ok(lanes),
        Err(fault) => Err(fault_of(fault)),
    }
}

fn fault_of(why: ScriptFault) -> TopFault
    ensures { (words : List (List ℕ)) → ReadsWords words (Err why) → (result ≡ fault.NoMemory) ⊎ ((result ≡ fault.Usage) × AreNoLone words) }
{
    match why {
        ScriptFault::NoMemory => TopFault::NoMemory,
        _ => TopFault::Usage,
    }
}

fn is_alone(words: &[String], word: &str) -> bool
    ensures { IsTrue result ↔ (map (λ word. string_bytes word) words.now ≡ word.now ∷ []) }
{
    match words {
        [first] => first.as_str() == word,
        _ => false,
    }
}

// the words as texts, or none where one isn't text
fn texts_of(alloc: Global, words: &[String]) -> Result<Option<Vec<Text>>, NoMemory>
    ensures { IfOk result (λ o. MatchOption o (¬ (All IsText (map (λ word. string_bytes word) words.now))) (λ texts. texts.items ≡ map (λ word. string_bytes word) words.now)) }
{
    let mut texts = Vec::with_capacity(alloc, words.len())?;
    for word in words {
        match Text::parse(alloc, word.as_bytes())? {
            Some(text) => texts.push(text)?,
            None => return Ok(None),
        }
    }
    Ok(Some(texts))
}
