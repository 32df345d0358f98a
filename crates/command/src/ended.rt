use ost_types::FsPath;

/// How a command ended: with an answer of its family, or by a fault, which any command may have.
#[derive(Drop)]
pub enum Ended<A> {
    Answered(A),
    /// Memory was wanted and there was none.
    NoMemory,
    /// A call that reads failed.
    DiskFault,
    /// A call was refused for what stands at the path: something else than this program changed it. No command goes on.
    Outside(FsPath),
    /// A call that changes something failed, and with it the run; the count of failed calls then.
    Halted(u64),
}
