//! Laws between lists that are written and lists that are read, each as a function whose contract is the law.
ghost use Rattle.boot_rows.specs.Laws.{FewWordsAreShort, FiledAreRead, NoneIsWrong, OnlyWrittenAreRead, TellIds, TellKargs, TellSums, WrittenAreRead};

/// A disk that boots a list has its rows, no others and no fault, in whatever files the entries stand; and where they stand in given
/// files, the rows name these.
pub fn written_lists_are_read()
    ensures read { WrittenAreRead }
    ensures only { OnlyWrittenAreRead }
    ensures fault { NoneIsWrong }
    ensures filed { FiledAreRead }
{}

/// Entries of few words are short enough to be read.
pub fn few_words_are_short()
    ensures { FewWordsAreShort }
{}

/// The rows tell of each member which deployment it is, the words for its kernel and the sum of its kernel.
pub fn rows_tell_items()
    ensures ids { TellIds }
    ensures kargs { TellKargs }
    ensures sums { TellSums }
{}
