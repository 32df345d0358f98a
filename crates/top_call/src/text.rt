ghost use Rattle.std.specs.Prelude.{◌≡◌, ◌++◌, [], map, codes, ◌∷◌, IfOk};
ghost use Rattle.script.specs.Field.{escaped};
ghost use Rattle.top_call.specs.Text.{fault_line, output_of, script_line};
ghost use Rattle.top_call.specs.Whys.{why_end};
ghost use Rattle.ost_types.specs.Path.{text_of};

use crate::fault::TopFault;
use crate::why::{number_line, why_end};
use ost_types::{Bytes, FsPath, NoMemory};
use script_reader::{Reply, ScriptFault, append_field, write_replies};
use std::alloc::Global;
use sys_open::{OpenFault, Why};

/// All that is printed of a call: the line of its fault, or the lines of its replies.
pub fn output_of(
    alloc: Global,
    fault: &Option<TopFault>,
    lanes: &[Vec<Reply>],
) -> Result<Bytes, NoMemory>
    ensures { IfOk result (λ t. t ≡ output_of fault.now (map (λ lane. lane.items) lanes.now)) }
{
    match fault {
        Some(fault) => fault_line(alloc, fault),
        None => write_replies(alloc, lanes),
    }
}

/// The line of want of memory, which is printed where there is none to make another.
pub const MEMORY_LINE: &[u8] = b"fault memory\n";

/// The line of a faulty command line.
pub const USAGE_LINE: &[u8] = b"fault usage\n";

fn fault_line(alloc: Global, fault: &TopFault) -> Result<Bytes, NoMemory>
    ensures { IfOk result (λ t. t ≡ fault_line fault.now) }
{
    match fault {
        TopFault::Usage => Bytes::from_slice(alloc, USAGE_LINE),
        TopFault::Script(fault) => script_line(alloc, *fault),
        TopFault::Input => Bytes::from_slice(alloc, b"fault input\n"),
        TopFault::NoMemory | TopFault::Open(OpenFault::NoMemory) => {
            Bytes::from_slice(alloc, MEMORY_LINE)
        }
        TopFault::Open(OpenFault::Disk) => Bytes::from_slice(alloc, b"fault open Disk\n"),
        TopFault::Open(OpenFault::Damaged(path, why)) => damaged_line(alloc, path, why),
        TopFault::Open(OpenFault::Outside(path)) => path_line(
            alloc,
            b"fault open Outside ",
            path,
            b"\n",
        ),
    }
}

fn script_line(alloc: Global, fault: ScriptFault) -> Result<Bytes, NoMemory>
    ensures { IfOk result (λ t. t ≡ script_line fault) }
{
    match fault {
        ScriptFault::BadLine(n) => number_line(alloc, b"fault script BadLine ", n.into()),
        ScriptFault::TooLong => Bytes::from_slice(alloc, b"fault script TooLong\n"),
        ScriptFault::TooManyLanes => Bytes::from_slice(alloc, b"fault script TooManyLanes\n"),
        ScriptFault::TooManyCommands => {
            Bytes::from_slice(alloc, b"fault script TooManyCommands\n")
        }
        ScriptFault::UnknownTree(n) => number_line(alloc, b"fault script UnknownTree ", n.into()),
        ScriptFault::NoMemory => Bytes::from_slice(alloc, MEMORY_LINE),
    }
}

fn damaged_line(alloc: Global, path: &FsPath, why: &Why) -> Result<Bytes, NoMemory>
    ensures { IfOk result (λ t. t ≡ codes "fault open Damaged " ++ (escaped (text_of path.now) ++ why_end why.now)) }
{
    let end = why_end(alloc, *why)?;
    path_line(alloc, b"fault open Damaged ", path, end.as_slice())
}

fn path_line(alloc: Global, before: &[u8], path: &FsPath, behind: &[u8]) -> Result<Bytes, NoMemory>
    ensures { IfOk result (λ t. t ≡ before.now ++ (escaped (text_of path.now) ++ behind.now)) }
{
    let mut line = Bytes::from_slice(alloc, before)?;
    append_field(&mut line, path.text()?.as_slice())?;
    line.append(behind)?;
    Ok(line)
}
