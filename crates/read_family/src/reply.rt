use read_command::ReadAnswer;

/// What a command of the family answers, once it is done.
#[derive(Drop)]
pub enum ReadReply {
    /// There is no such ref.
    NoRef,
    /// What came of reading the commit.
    Read(ReadAnswer),
}
