//! What the line of a damage says behind the path.
ghost use Rattle.std.specs.Prelude.{◌≡◌, ◌++◌, ◌∷◌, [], IfOk};
ghost use Rattle.std.specs.Fmt.{decimal};
ghost use Rattle.ost_types.specs.Csum.{hex_of};
ghost use Rattle.top_call.specs.Whys.{entry_end, incomplete_of, text_end, object_end, unreadable_end, why_end};

use bls_entry::BlsFault;
use boot_read::EntryFault;
use ost_forms::ObjFault;
use ost_objects::CheckFault;
use ost_types::{Bytes, Csum, Kind, NoMemory};
use std::alloc::Global;
use sys_open::Why;

/// The end of the line, its newline too.
pub fn why_end(alloc: Global, why: Why) -> Result<Bytes, NoMemory>
    ensures { IfOk result (λ t. t ≡ why_end why) }
{
    match why {
        Why::BadConfig => Bytes::from_slice(alloc, b" BadConfig\n"),
        Why::BadRef => Bytes::from_slice(alloc, b" BadRef\n"),
        Why::BadObject(fault) => object_end(alloc, fault),
        Why::Incomplete(object) => sum_line(alloc, incomplete_of(object.kind), &object.csum),
        Why::TooMany(number) => number_line(alloc, b" TooMany ", number),
        Why::WrongKind => Bytes::from_slice(alloc, b" WrongKind\n"),
        Why::BadLink => Bytes::from_slice(alloc, b" BadLink\n"),
        Why::BadEntry(fault) => entry_end(alloc, fault),
        Why::NoDeployment => Bytes::from_slice(alloc, b" NoDeployment\n"),
        Why::NotCheckout => Bytes::from_slice(alloc, b" NotCheckout\n"),
        Why::KernelCopy => Bytes::from_slice(alloc, b" KernelCopy\n"),
    }
}

fn entry_end(alloc: Global, fault: EntryFault) -> Result<Bytes, NoMemory>
    ensures { IfOk result (λ t. t ≡ entry_end fault) }
{
    match fault {
        EntryFault::TooLong => Bytes::from_slice(alloc, b" BadEntry TooLong\n"),
        EntryFault::Unread(fault) => text_end(alloc, fault),
    }
}

fn text_end(alloc: Global, fault: BlsFault) -> Result<Bytes, NoMemory>
    ensures { IfOk result (λ t. t ≡ text_end fault) }
{
    match fault {
        BlsFault::BadLine(line) => number_line(alloc, b" BadEntry BadLine ", line),
        BlsFault::NoOptions => Bytes::from_slice(alloc, b" BadEntry NoOptions\n"),
        BlsFault::NoOstree => Bytes::from_slice(alloc, b" BadEntry NoOstree\n"),
        BlsFault::NoMemory => Bytes::from_slice(alloc, b" BadEntry\n"),
    }
}

fn object_end(alloc: Global, fault: CheckFault) -> Result<Bytes, NoMemory>
    ensures { IfOk result (λ t. t ≡ object_end fault) }
{
    match fault {
        CheckFault::WrongSum(found) => sum_line(alloc, b" BadObject WrongSum ", &found),
        CheckFault::Unreadable(fault) => unreadable_end(alloc, fault),
        CheckFault::NoMemory => Bytes::from_slice(alloc, b" BadObject\n"),
    }
}

fn unreadable_end(alloc: Global, fault: ObjFault) -> Result<Bytes, NoMemory>
    ensures { IfOk result (λ t. t ≡ unreadable_end fault) }
{
    match fault {
        ObjFault::NotNormal => Bytes::from_slice(alloc, b" BadObject Unreadable NotNormal\n"),
        ObjFault::BadSumLength => {
            Bytes::from_slice(alloc, b" BadObject Unreadable BadSumLength\n")
        }
        ObjFault::BadName => Bytes::from_slice(alloc, b" BadObject Unreadable BadName\n"),
        ObjFault::NotSorted => Bytes::from_slice(alloc, b" BadObject Unreadable NotSorted\n"),
        ObjFault::BadMode => Bytes::from_slice(alloc, b" BadObject Unreadable BadMode\n"),
        ObjFault::TooLarge(bytes) => {
            number_line(alloc, b" BadObject Unreadable TooLarge ", bytes)
        }
        ObjFault::NoMemory => Bytes::from_slice(alloc, b" BadObject\n"),
    }
}

fn incomplete_of(kind: Kind) -> &'static [u8]
    ensures { result.now ≡ incomplete_of kind }
{
    match kind {
        Kind::Commit => b" Incomplete commit ",
        Kind::DirTree => b" Incomplete dirtree ",
        Kind::DirMeta => b" Incomplete dirmeta ",
        Kind::File => b" Incomplete file ",
    }
}

fn sum_line(alloc: Global, before: &[u8], sum: &Csum) -> Result<Bytes, NoMemory>
    ensures { IfOk result (λ t. t ≡ before.now ++ (hex_of sum.now ++ 10 ∷ [])) }
{
    let mut line = Bytes::from_slice(alloc, before)?;
    line.append(&sum.to_hex())?;
    line.push(b'\n')?;
    Ok(line)
}

/// A number behind these words, to the end of the line.
pub fn number_line(alloc: Global, before: &[u8], number: u64) -> Result<Bytes, NoMemory>
    ensures { IfOk result (λ t. t ≡ before.now ++ (decimal number ++ 10 ∷ [])) }
{
    let mut line = Bytes::from_slice(alloc, before)?;
    line.append(format!(in alloc; "{number}")?.as_bytes())?;
    line.push(b'\n')?;
    Ok(line)
}
