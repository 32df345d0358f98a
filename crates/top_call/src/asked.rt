//! The lanes that are asked for, by the words or by a script.
ghost use Rattle.std.specs.Prelude.{◌≡◌, ◌≢◌, ◌⊎◌, ◌≤◌, ℕ, List, [], Some, IfOk, IfErr, map, option_map, unwrap_or};
ghost use Rattle.std.specs.String.{string_bytes};
ghost use Rattle.command_line.specs.Words.{SayNothing};
ghost use Rattle.command_line.specs.declared.fault.LineFault.TheVariants as line;
ghost use Rattle.script_reader.specs.Script.{Commands, IsFault, IsScript};
ghost use Rattle.script.specs.declared.fault.ScriptFault.TheVariants as script;
ghost use Rattle.script_trees.specs.Fit.{AreFit};
ghost use Rattle.top_call.specs.declared.fault.TopFault.TheVariants as fault;
ghost use Rattle.top_call.specs.Input.{TookFront};
ghost use Rattle.top_call.specs.Words.{AreNoLine, AreRefused, AskFor, HasSchedule, HasScript, IsLine, IsMisread, IsRefused, IsUnread, Runs, commands_of, run};

use crate::fault::TopFault;
use crate::input::read_input;
use crate::words::{Request, read_request};
use command_line::{Line, LineFault, read_words};
use fs_trait::Source;
use schedule::Turns;
use script_reader::{Lane, ScriptFault, read_script};
use script_trees::scripts_are_fit;
use std::alloc::Global;

/// What a command line asks for.
#[derive(Drop)]
pub struct Asked {
    /// The lanes, none of which `init` has.
    pub lanes: Vec<Lane>,
    /// How the lanes run: who acts how often, one after the other. It is empty where the words don't say it.
    pub schedule: Vec<Turns>,
}

/// What the words ask for. Only the command `run` reads the input.
pub fn asked_lanes<S: Source>(
    alloc: Global,
    words: &[String],
    input: &mut S,
) -> Result<Asked, TopFault>
    ensures lanes { IfOk result (λ a. IsLine (S.left input.old) (map (λ word. string_bytes word) words.now) (commands_of a.lanes.items)) }
    ensures schedule { IfOk result (λ a. HasSchedule (map (λ word. string_bytes word) words.now) a.schedule.items) }
    ensures fit { IfOk result (λ a. AreFit (commands_of a.lanes.items)) }
    ensures fault { IfErr result (IsRefused (S.left input.old) (map (λ word. string_bytes word) words.now) (S.faults input.old) (S.faults input.new)) }
    ensures exact { (all : List ℕ) (lanes : List Commands) → S.left input.old ≡ Some all → IsScript all lanes → Runs (map (λ word. string_bytes word) words.now) → IfErr result (λ e. (e ≡ fault.Input) ⊎ (e ≡ fault.NoMemory)) }
    ensures read { (all : List ℕ) → S.left input.old ≡ Some all → TookFront all (S.left input.new) }
    ensures unread { ¬ (Runs (map (λ word. string_bytes word) words.now)) → input.new ≡ input.old }
    ensures later { S.faults input.old ≤ S.faults input.new }
    ensures quiet { IfOk result (λ _. S.faults input.new ≡ S.faults input.old) }
    ensures failed { IfErr result (λ e. (e ≡ fault.Input) ⊎ (S.faults input.new ≡ S.faults input.old)) }
{
    match read_words(alloc, words) {
        Ok(line) => asked_of(alloc, line, input),
        Err(fault) => Err(refusal_of(fault)),
    }
}

fn refusal_of(why: LineFault) -> TopFault
    ensures { (words : List (List ℕ)) → ((why ≡ line.NoMemory) ⊎ ((why ≡ line.Usage) × SayNothing words)) → (result ≡ fault.NoMemory) ⊎ ((result ≡ fault.Usage) × AreNoLine words) }
{
    match why {
        LineFault::Usage => TopFault::Usage,
        LineFault::NoMemory => TopFault::NoMemory,
    }
}

fn asked_of<S: Source>(alloc: Global, line: Line, input: &mut S) -> Result<Asked, TopFault>
    ensures lanes { IfOk result (λ a. AskFor (S.left input.old) (map (λ word. string_bytes word) line.fields.items) (commands_of a.lanes.items)) }
    ensures schedule { IfOk result (λ a. a.schedule.items ≡ unwrap_or (option_map (λ v. v.items) line.schedule) []) }
    ensures fit { IfOk result (λ a. AreFit (commands_of a.lanes.items)) }
    ensures fault { IfErr result (AreRefused (S.left input.old) (map (λ word. string_bytes word) line.fields.items) (S.faults input.old) (S.faults input.new)) }
    ensures exact { (all : List ℕ) (lanes : List Commands) → S.left input.old ≡ Some all → IsScript all lanes → map (λ word. string_bytes word) line.fields.items ≡ run → IfErr result (λ e. (e ≡ fault.Input) ⊎ (e ≡ fault.NoMemory)) }
    ensures read { (all : List ℕ) → S.left input.old ≡ Some all → TookFront all (S.left input.new) }
    ensures unread { map (λ word. string_bytes word) line.fields.items ≢ run → input.new ≡ input.old }
    ensures later { S.faults input.old ≤ S.faults input.new }
    ensures quiet { IfOk result (λ _. S.faults input.new ≡ S.faults input.old) }
    ensures failed { IfErr result (λ e. (e ≡ fault.Input) ⊎ (S.faults input.new ≡ S.faults input.old)) }
{
    let Line {
        helpers: _,
        schedule,
        fields,
    } = line;
    match lanes_of_fields(alloc, &fields, input) {
        Ok(lanes) => Ok(Asked {
            lanes,
            schedule: turns_of(alloc, schedule),
        }),
        Err(fault) => Err(fault),
    }
}

fn turns_of(alloc: Global, schedule: Option<Vec<Turns>>) -> Vec<Turns>
    ensures { result.items ≡ unwrap_or (option_map (λ v. v.items) schedule) [] }
{
    match schedule {
        Some(turns) => turns,
        None => Vec::new(alloc),
    }
}

/// The lanes that the fields ask for. Only the field `run` reads the input.
fn lanes_of_fields<S: Source>(
    alloc: Global,
    fields: &[String],
    input: &mut S,
) -> Result<Vec<Lane>, TopFault>
    ensures lanes { IfOk result (λ lanes. AskFor (S.left input.old) (map (λ word. string_bytes word) fields.now) (commands_of lanes.items)) }
    ensures fit { IfOk result (λ lanes. AreFit (commands_of lanes.items)) }
    ensures fault { IfErr result (AreRefused (S.left input.old) (map (λ word. string_bytes word) fields.now) (S.faults input.old) (S.faults input.new)) }
    ensures exact { (all : List ℕ) (lanes : List Commands) → S.left input.old ≡ Some all → IsScript all lanes → map (λ word. string_bytes word) fields.now ≡ run → IfErr result (λ e. (e ≡ fault.Input) ⊎ (e ≡ fault.NoMemory)) }
    ensures read { (all : List ℕ) → S.left input.old ≡ Some all → TookFront all (S.left input.new) }
    ensures unread { map (λ word. string_bytes word) fields.now ≢ run → input.new ≡ input.old }
    ensures later { S.faults input.old ≤ S.faults input.new }
    ensures quiet { IfOk result (λ _. S.faults input.new ≡ S.faults input.old) }
    ensures failed { IfErr result (λ e. (e ≡ fault.Input) ⊎ (S.faults input.new ≡ S.faults input.old)) }
{
    match read_request(alloc, fields) {
        Ok(Request::Lanes(lanes)) => Ok(lanes),
        Ok(Request::Script) => read_lanes(alloc, input),
        Err(fault) => Err(fault),
    }
}

/// The lanes of the script that the input is.
fn read_lanes<S: Source>(alloc: Global, input: &mut S) -> Result<Vec<Lane>, TopFault>
    ensures lanes { IfOk result (λ lanes. HasScript (S.left input.old) (commands_of lanes.items)) }
    ensures fit { IfOk result (λ lanes. AreFit (commands_of lanes.items)) }
    ensures fault { IfErr result (IsMisread (S.left input.old) (S.faults input.old) (S.faults input.new)) }
    ensures exact { (all : List ℕ) (lanes : List Commands) → S.left input.old ≡ Some all → IsScript all lanes → IfErr result (λ e. (e ≡ fault.Input) ⊎ (e ≡ fault.NoMemory)) }
    ensures read { (all : List ℕ) → S.left input.old ≡ Some all → TookFront all (S.left input.new) }
    ensures later { S.faults input.old ≤ S.faults input.new }
    ensures quiet { IfOk result (λ _. S.faults input.new ≡ S.faults input.old) }
    ensures failed { IfErr result (λ e. (e ≡ fault.Input) ⊎ (S.faults input.new ≡ S.faults input.old)) }
{
    let bytes = match read_input(alloc, input) {
        Ok(bytes) => bytes,
        Err(fault) => return Err(fault),
    };
    lanes_of(alloc, bytes.as_slice())
}

fn lanes_of(alloc: Global, bytes: &[u8]) -> Result<Vec<Lane>, TopFault>
    ensures lanes { IfOk result (λ lanes. IsScript bytes.now (commands_of lanes.items)) }
    ensures fit { IfOk result (λ lanes. AreFit (commands_of lanes.items)) }
    ensures fault { IfErr result (IsUnread bytes.now) }
    ensures exact { (lanes : List Commands) → IsScript bytes.now lanes → IfErr result (λ e. e ≡ fault.NoMemory) }
{
    scripts_are_fit();
    match read_script(alloc, bytes) {
        Ok(lanes) => Ok(lanes),
        Err(fault) => Err(fault_of(fault)),
    }
}

fn fault_of(why: ScriptFault) -> TopFault
    ensures fault { (bytes : List ℕ) → IsFault bytes why → IsUnread bytes result }
    ensures memory { why ≡ script.NoMemory → result ≡ fault.NoMemory }
{
    match why {
        ScriptFault::NoMemory => TopFault::NoMemory,
        other => TopFault::Script(other),
    }
}
