//! The input, as far as a script may reach.
ghost use Rattle.std.specs.Prelude.{◌≡◌, ◌⊎◌, ◌≤◌, ◌<◌, ℕ, List, drop, length, Some, IfOk, IfErr, MatchResult};
ghost use Rattle.fs_trait.specs.Count.{Rose};
ghost use Rattle.top_call.specs.declared.fault.TopFault.TheVariants as fault;
ghost use Rattle.top_call.specs.Input.{IsRead, TakesMore, TookFront};

use crate::fault::TopFault;
use fs_trait::Source;
use ost_types::Bytes;
use script_reader::SCRIPT_LIMIT;
use std::alloc::Global;

/// A byte more than a script has at most, so that one that is longer is seen to be so.
const LIMIT: usize = SCRIPT_LIMIT + 1;

/// How many bytes are read at once.
const PIECE: usize = 4_096;

/// Reads the input to its end, or to a byte more than a script has. A source whose count of failed calls has risen isn't relied on.
pub fn read_input<S: Source>(alloc: Global, input: &mut S) -> Result<Bytes, TopFault>
    ensures read { (b : List ℕ) → S.left input.old ≡ Some b → MatchResult result (λ bytes. IsRead b bytes (S.left input.new)) (λ _. TookFront b (S.left input.new)) }
    ensures later { S.faults input.old ≤ S.faults input.new }
    ensures quiet { IfOk result (λ _. S.faults input.new ≡ S.faults input.old) }
    ensures fault { IfErr result (λ e. ((e ≡ fault.Input) × Rose (S.faults input.old) (S.faults input.new)) ⊎ ((e ≡ fault.NoMemory) × (S.faults input.new ≡ S.faults input.old))) }
{
    let before = input.faults();
    let read = read_pieces(alloc, input);
    if before < input.faults() {
        return Err(TopFault::Input);
    }
    read
}

fn read_pieces<S: Source>(alloc: Global, input: &mut S) -> Result<Bytes, TopFault>
    ensures read { (b : List ℕ) → S.left input.old ≡ Some b → MatchResult result (λ bytes. IsRead b bytes (S.left input.new)) (λ _. TookFront b (S.left input.new)) }
    ensures later { S.faults input.old ≤ S.faults input.new }
    ensures fault { IfErr result (λ e. ((e ≡ fault.Input) × Rose (S.faults input.old) (S.faults input.new)) ⊎ (e ≡ fault.NoMemory)) }
{
    let mut bytes = Bytes::new(alloc);
    let mut at = 0;
    while at < LIMIT {
        let count = read_piece(input, &mut bytes, LIMIT - at)?;
        if count == 0 {
            break;
        }
        at += count;
    }
    Ok(bytes)
}

/// Reads the next bytes behind the others, but no more than find room. The answer tells how many: none at the end alone.
fn read_piece<S: Source>(input: &mut S, bytes: &mut Bytes, room: usize) -> Result<usize, TopFault>
    requires { 0 < room }
    ensures read { (b : List ℕ) → S.left input.old ≡ Some b → MatchResult result (λ n. TakesMore b bytes.old n bytes.new (S.left input.new)) (λ _. (n : ℕ) × (n ≤ room) × (S.left input.new ≡ Some (drop n b))) }
    ensures within { IfOk result (λ n. n ≤ room) }
    ensures later { S.faults input.old ≤ S.faults input.new }
    ensures fault { IfErr result (λ e. ((e ≡ fault.Input) × Rose (S.faults input.old) (S.faults input.new)) ⊎ (e ≡ fault.NoMemory)) }
{
    let mut piece = [0; PIECE];
    let size = room.min(PIECE);
    read_into(input, bytes, &mut piece[..size])
}

fn read_into<S: Source>(
    input: &mut S,
    bytes: &mut Bytes,
    piece: &mut [u8],
) -> Result<usize, TopFault>
    requires { 0 < length piece.old }
    ensures read { (b : List ℕ) → S.left input.old ≡ Some b → MatchResult result (λ n. TakesMore b bytes.old n bytes.new (S.left input.new)) (λ _. (n : ℕ) × (n ≤ length piece.old) × (S.left input.new ≡ Some (drop n b))) }
    ensures within { IfOk result (λ n. n ≤ length piece.old) }
    ensures later { S.faults input.old ≤ S.faults input.new }
    ensures fault { IfErr result (λ e. ((e ≡ fault.Input) × Rose (S.faults input.old) (S.faults input.new)) ⊎ (e ≡ fault.NoMemory)) }
{
    let count = input.take(piece)?;
    bytes.append(&piece[..count])?;
    Ok(count)
}
