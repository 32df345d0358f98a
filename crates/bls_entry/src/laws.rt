//! Laws of boot entries, each as a function whose contract is the law.
ghost use Rattle.std.specs.Prelude.{◌≡◌, ◌≢◌, ℕ, List, Result, Ok, Err};
ghost use Rattle.bls_entry.specs.declared.entry.BlsEntry.{BlsEntry};
ghost use Rattle.bls_entry.specs.declared.fault.BlsFault.{BlsFault};
ghost use Rattle.bls_entry.specs.declared.fault.BlsFault.TheVariants as fault;
ghost use Rattle.bls_entry.specs.Entry.{CanBeWritten, entry_text};
ghost use Rattle.bls_entry.specs.Reading.{Reads};

/// Beside want of memory a text has one reading: its entry, or one fault. What is written is read back.
pub fn entry_readings()
    ensures one { (text : List ℕ) (a b : Result BlsEntry BlsFault) → Reads text a → Reads text b → a ≢ Err fault.NoMemory → b ≢ Err fault.NoMemory → a ≡ b }
    ensures back { (e : BlsEntry) → CanBeWritten e → Reads (entry_text e) (Ok e) }
{}
