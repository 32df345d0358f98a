//! Laws of the list that is read, each as a function whose contract is the law.
ghost use Rattle.boot_read.specs.Faults.{AnsweredOnce};

/// Of one disk there is one answer: a list with these rows, or one fault.
pub fn lists_are_read_once()
    ensures { AnsweredOnce }
{}
