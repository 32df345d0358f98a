//! Laws of these texts, each as a function whose contract is the law.
ghost use Rattle.boot_words.specs.Words.{NamedOnce, LedOnce};

/// A text names one link at most, and leads to one deployment at most.
pub fn texts_are_read_once()
    ensures link { NamedOnce }
    ensures deployment { LedOnce }
{}
