//! Nodes, as a script writes them.
use crate::fault::LineFault;
use ost_forms::TreeItem;
use ost_types::Bytes;
use script_reader::{Command, Lane, ScriptFault, read_script};
use std::alloc::Global;

/// The nodes of a tree's lines, which ascend by their paths.
pub(crate) fn read_nodes(alloc: Global, lines: &[u8]) -> Result<Vec<TreeItem>, LineFault> {
    let mut script = Bytes::from_slice(alloc, b"ostree-script 1\ntree 0\n")?;
    script.append(lines)?;
    script.append(b"end\nlane\ncommit x 0 ~ ~ 0\nend\n")?;
    match read_script(alloc, script.as_slice()) {
        Ok(lanes) => tree_of(lanes),
        Err(ScriptFault::NoMemory) => Err(LineFault::NoMemory),
        Err(_) => Err(LineFault::Bad),
    }
}

// The tree of the one command.
fn tree_of(lanes: Vec<Lane>) -> Result<Vec<TreeItem>, LineFault> {
    let mut lanes = lanes;
    match lanes.pop() {
        Some(Lane { commands }) => committed(commands),
        None => Err(LineFault::Bad),
    }
}

fn committed(commands: Vec<Command>) -> Result<Vec<TreeItem>, LineFault> {
    let mut commands = commands;
    match commands.pop() {
        Some(Command::Commit { tree, .. }) => Ok(tree),
        _ => Err(LineFault::Bad),
    }
}
