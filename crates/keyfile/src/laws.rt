//! Laws of keyfiles, each as a function whose contract is the law.
ghost use Rattle.std.specs.Prelude.{◌≡◌, ◌≢◌, ℕ, List, Result, Ok, Err};
ghost use Rattle.keyfile.specs.declared.entry.KeyLine.{KeyLine};
ghost use Rattle.keyfile.specs.declared.fault.KeyFault.{KeyFault};
ghost use Rattle.keyfile.specs.declared.fault.KeyFault.TheVariants as fault;
ghost use Rattle.keyfile.specs.Entries.{AreEntries, keyfile_text};
ghost use Rattle.keyfile.specs.Reading.{Reads};

/// Beside want of memory a text has one reading: its entries, or one fault. What is written is read back, and what is read
/// can be written.
pub fn readings()
    ensures one { (text : List ℕ) (a b : Result (List KeyLine) KeyFault) → Reads text a → Reads text b → a ≢ Err fault.NoMemory → b ≢ Err fault.NoMemory → a ≡ b }
    ensures back { (entries : List KeyLine) → AreEntries entries → Reads (keyfile_text entries) (Ok entries) }
    ensures entries { (text : List ℕ) (entries : List KeyLine) → Reads text (Ok entries) → AreEntries entries }
{}
