//! The words that lines begin with.

/// The first word of a line.
#[derive(Clone, Copy, Debug, PartialEq, Eq)]
pub(crate) enum Keyword {
    Text,
    Disk,
    Case,
    On,
    Host,
    Add,
    Remove,
    Names,
    SourceFails,
    Sink,
    Objects,
    EachCall,
    EachLine,
    EachByte,
    EachSchedule,
    EachRemoval,
    Call,
    Or,
    Check(CheckWord),
    OrCrash,
}

/// The first word of a line that says what then holds.
#[derive(Clone, Copy, Debug, PartialEq, Eq)]
pub(crate) enum CheckWord {
    Holds,
    There,
    Absent,
    Same,
    Lists,
    Changes,
    Lasting,
    Pending,
    Crash,
}

pub(crate) fn keyword_of(word: &[u8]) -> Option<Keyword> {
    match word {
        b"text" => Some(Keyword::Text),
        b"disk" => Some(Keyword::Disk),
        b"case" => Some(Keyword::Case),
        b"on" => Some(Keyword::On),
        b"host" => Some(Keyword::Host),
        b"add" => Some(Keyword::Add),
        b"remove" => Some(Keyword::Remove),
        b"names" => Some(Keyword::Names),
        b"source-fails" => Some(Keyword::SourceFails),
        b"sink" => Some(Keyword::Sink),
        b"objects" => Some(Keyword::Objects),
        b"each-call" => Some(Keyword::EachCall),
        b"each-line" => Some(Keyword::EachLine),
        b"each-byte" => Some(Keyword::EachByte),
        b"each-schedule" => Some(Keyword::EachSchedule),
        b"each-removal" => Some(Keyword::EachRemoval),
        b"call" => Some(Keyword::Call),
        b"or" => Some(Keyword::Or),
        b"or-crash" => Some(Keyword::OrCrash),
        _ => check_word_of(word).map(Keyword::Check),
    }
}

fn check_word_of(word: &[u8]) -> Option<CheckWord> {
    match word {
        b"holds" => Some(CheckWord::Holds),
        b"there" => Some(CheckWord::There),
        b"absent" => Some(CheckWord::Absent),
        b"same" => Some(CheckWord::Same),
        b"lists" => Some(CheckWord::Lists),
        b"changes" => Some(CheckWord::Changes),
        b"lasting" => Some(CheckWord::Lasting),
        b"pending" => Some(CheckWord::Pending),
        b"crash" => Some(CheckWord::Crash),
        _ => None,
    }
}
