//! Faults of objects as text.
use ost_forms::ObjFault;
use ost_objects::CheckFault;
use sheet::{Stop, text};
use std::alloc::Global;

pub fn told_fault(alloc: Global, fault: ObjFault) -> Result<Vec<u8>, Stop> {
    match fault {
        ObjFault::NotNormal => text(alloc, "not_normal"),
        ObjFault::BadSumLength => text(alloc, "bad_sum_length"),
        ObjFault::BadName => text(alloc, "bad_name"),
        ObjFault::NotSorted => text(alloc, "not_sorted"),
        ObjFault::BadMode => text(alloc, "bad_mode"),
        ObjFault::TooLarge(size) => {
            let told = format!(in alloc; "too_large {size}")?;
            text(alloc, told.as_str())
        }
        ObjFault::NoMemory => Err(Stop::NoMemory),
    }
}

pub fn told_check(alloc: Global, fault: CheckFault) -> Result<Vec<u8>, Stop> {
    match fault {
        CheckFault::WrongSum(sum) => {
            let mut told = text(alloc, "wrong_sum ")?;
            told.extend_from_slice(sum.to_hex().as_slice())?;
            Ok(told)
        }
        CheckFault::Unreadable(fault) => told_fault(alloc, fault),
        CheckFault::NoMemory => Err(Stop::NoMemory),
    }
}
