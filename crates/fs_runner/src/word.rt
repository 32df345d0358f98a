//! Answers as words.
use fs_trait::FsErr;

/// What a call answers that hands nothing out.
pub fn word(answer: Result<(), FsErr>) -> &'static str {
    match answer {
        Ok(()) => "ok",
        Err(fault) => fault_word(fault),
    }
}

pub fn fault_word(fault: FsErr) -> &'static str {
    match fault {
        FsErr::Failed => "failed",
        FsErr::Exists => "exists",
        FsErr::Missing => "missing",
        FsErr::NotFolder => "not_folder",
        FsErr::NotEmpty => "not_empty",
        FsErr::NoMemory => "no_memory",
    }
}
