ghost use Rattle.std.specs.Prelude.{◌≡◌, ◌≢◌, None, true, false, IfOk, MatchOption, map};
ghost use Rattle.hex.specs.Hex.{IsBytes};
ghost use Rattle.hex.specs.declared.error.FromHexError.TheVariants as kind;
ghost use Rattle.ost_types.specs.Csum.{hex_of};
ghost use Rattle.script.specs.Field.{Gives};
ghost use Rattle.script_reader.specs.Values.{ArePairs, HasXattrs, IsPair, IsXattrs, pieces};

use crate::cut::cut;
use hex::FromHexError;
use ost_types::{Bytes, NoMemory, Xattr, Xattrs};
use script::read_field;
use std::alloc::Global;

/// The extended attributes that a field has.
pub fn read_xattrs(alloc: Global, field: &[u8]) -> Result<Option<Xattrs>, NoMemory>
    ensures { IfOk result (Gives (IsXattrs field.now)) }
{
    match read_field(alloc, field)? {
        Some(text) => parse_xattrs(alloc, text.as_slice()),
        None => Ok(None),
    }
}

fn parse_xattrs(alloc: Global, text: &[u8]) -> Result<Option<Xattrs>, NoMemory>
    ensures { IfOk result (Gives (HasXattrs text.now)) }
{
    if text.is_empty() {
        return Ok(Some(Xattrs::new(alloc)));
    }
    read_pairs(alloc, text)
}

fn read_pairs(alloc: Global, text: &[u8]) -> Result<Option<Xattrs>, NoMemory>
    ensures { IfOk result (Gives (ArePairs (pieces 44 text.now))) }
{
    each_pair(alloc, &cut(alloc, text, b',')?)
}

fn each_pair(alloc: Global, pairs: &[&[u8]]) -> Result<Option<Xattrs>, NoMemory>
    ensures { IfOk result (Gives (ArePairs (map (λ p. p.now) pairs.now))) }
{
    let mut xattrs = Xattrs::new(alloc);
    for pair in pairs {
        match read_pair(alloc, pair)? {
            Some(xattr) => xattrs.push(xattr)?,
            None => return Ok(None),
        }
    }
    Ok(Some(xattrs))
}

fn read_pair(alloc: Global, pair: &[u8]) -> Result<Option<Xattr>, NoMemory>
    ensures { IfOk result (Gives (IsPair pair.now)) }
{
    let parts = cut(alloc, pair, b':')?;
    let [name, value] = parts.as_slice() else {
        return Ok(None);
    };
    let Some(name) = read_hex(alloc, name)? else {
        return Ok(None);
    };
    match read_hex(alloc, value)? {
        Some(value) => Ok(Some(Xattr { name, value })),
        None => Ok(None),
    }
}

/// The bytes whose digits these are, with small letters.
fn read_hex(alloc: Global, digits: &[u8]) -> Result<Option<Bytes>, NoMemory>
    ensures { IfOk result (Gives (λ bytes. IsBytes bytes × (hex_of bytes ≡ digits.now))) }
{
    match hex::decode(alloc, digits) {
        Ok(bytes) => written_so(alloc, bytes, digits),
        Err(error) => refused(error),
    }
}

/// The bytes, if their digits are written so.
fn written_so(alloc: Global, bytes: Vec<u8>, digits: &[u8]) -> Result<Option<Bytes>, NoMemory>
    ensures { IfOk result (λ o. MatchOption o (hex_of bytes.items ≢ digits.now) (λ b. (b ≡ bytes.items) × IsBytes bytes.items × (hex_of bytes.items ≡ digits.now))) }
{
    if are_digits(alloc, bytes.as_slice(), digits)? {
        Ok(Some(Bytes::from_vec(bytes)))
    } else {
        Ok(None)
    }
}

fn are_digits(alloc: Global, bytes: &[u8], digits: &[u8]) -> Result<bool, NoMemory>
    ensures yes { IfOk result (λ b. b ≡ true → hex_of bytes.now ≡ digits.now) }
    ensures no { IfOk result (λ b. b ≡ false → hex_of bytes.now ≢ digits.now) }
    ensures small { IfOk result (λ b. IsBytes bytes.now) }
{
    let text = hex::encode(alloc, bytes)?;
    Ok(text.as_bytes() == digits)
}

/// No bytes, but where memory was wanted.
fn refused(error: FromHexError) -> Result<Option<Bytes>, NoMemory>
    ensures { IfOk result (λ o. (o ≡ None) × (error ≢ kind.OutOfMemory)) }
{
    match error {
        FromHexError::OutOfMemory => Err(NoMemory),
        _ => Ok(None),
    }
}
