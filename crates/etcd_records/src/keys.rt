// The keys and values of records.

ghost use Rattle.std.specs.Prelude.{◌≡◌, IfOk, IfSome, IfNone, string_bytes, Ok};
ghost use Rattle.base64.specs.Engines.{standard};
ghost use Rattle.base64.specs.GeneralPurpose.{decode_of};
ghost use Rattle.kept_records.specs.Keeping.{record_of};
ghost use Rattle.kept_records.specs.declared.record.Record.{Record};
ghost use Rattle.etcd_records.specs.Keys.{eight_digits, encoded_key, value_of, encoded_value, word_of};

use base64::engine::general_purpose::STANDARD;
use kept_records::{Kind, Record};
use std::alloc::{AllocError, Global};

// The eight last decimal digits of a number.
fn eight_digits(number: u64) -> [u8; 8]
    ensures { result ≡ eight_digits number }
{
    [
        b'0' + (number / 10_000_000 % 10) as u8,
        b'0' + (number / 1_000_000 % 10) as u8,
        b'0' + (number / 100_000 % 10) as u8,
        b'0' + (number / 10_000 % 10) as u8,
        b'0' + (number / 1_000 % 10) as u8,
        b'0' + (number / 100 % 10) as u8,
        b'0' + (number / 10 % 10) as u8,
        b'0' + (number % 10) as u8,
    ]
}

// rule: Key of a record in etcd
/// Returns the key of a number in base64, as JSON carries it.
#[tactic(auto, unfolding(crate::specs::Keys::encoded_key))]
pub(crate) fn encoded_key(alloc: Global, prefix: &str, number: u64) -> Result<String, AllocError>
    ensures { IfOk result (λ text. string_bytes text ≡ encoded_key prefix.now number) }
{
    let mut key = Vec::from_slice(alloc, prefix.as_bytes())?;
    key.extend_from_slice(&eight_digits(number))?;
    STANDARD.encode(alloc, &key)
}

fn word_of(kind: Kind) -> &'static [u8]
    ensures { result.now ≡ word_of kind }
{
    match kind {
        Kind::Profile => b"profile\n",
        Kind::Script => b"script\n",
        Kind::Raise => b"raise\n",
    }
}

// rule: Value of a record in etcd
/// Returns the value of a record in base64, as JSON carries it.
#[tactic(auto, unfolding(crate::specs::Keys::encoded_value))]
pub(crate) fn encoded_value(alloc: Global, kind: Kind, bytes: &[u8]) -> Result<String, AllocError>
    ensures text { IfOk result (λ text. string_bytes text ≡ encoded_value (record_of kind bytes.now)) }
    ensures decodes { IfOk result (λ text.
        decode_of standard (string_bytes text) ≡ Ok (value_of (record_of kind bytes.now))) }
{
    let mut value = Vec::from_slice(alloc, word_of(kind))?;
    value.extend_from_slice(bytes)?;
    STANDARD.encode(alloc, &value)
}

// The kind and the bytes of a value, if it is that of a record.
fn split(value: &[u8]) -> Option<(Kind, &[u8])>
    ensures found { IfSome result (λ parts. value.now ≡ value_of (record_of parts.0 parts.1.now)) }
    ensures none { IfNone result ((kept : Record) → value.now ≡ value_of kept → ⊥) }
{
    if let Some(bytes) = value.strip_prefix(b"profile\n") {
        return Some((Kind::Profile, bytes));
    }
    if let Some(bytes) = value.strip_prefix(b"script\n") {
        return Some((Kind::Script, bytes));
    }
    if let Some(bytes) = value.strip_prefix(b"raise\n") {
        return Some((Kind::Raise, bytes));
    }
    None
}

// rule: Value of a record in etcd
/// Returns the record whose value in base64 this is, or `None` if it is that of none.
pub(crate) fn read_value(alloc: Global, text: &str) -> Result<Option<Record>, AllocError>
    ensures found { IfOk result (λ read. IfSome read (λ kept. decode_of standard text.now ≡ Ok (value_of kept))) }
    ensures none { IfOk result (λ read. IfNone read
        ((kept : Record) → decode_of standard text.now ≡ Ok (value_of kept) → ⊥)) }
{
    let value = match STANDARD.decode(alloc, text.as_bytes()) {
        Ok(value) => value,
        Err(base64::DecodeAllocError::OutOfMemory) => return Err(AllocError),
        Err(base64::DecodeAllocError::DecodeError(_)) => return Ok(None),
    };
    match split(&value) {
        Some((kind, bytes)) => Ok(Some(Record::copy_of(alloc, kind, bytes)?)),
        None => Ok(None),
    }
}
