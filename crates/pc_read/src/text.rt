ghost use Rattle.std.specs.Prelude.{◌≡◌, IfOk, IsSome, Some};
ghost use Rattle.std.specs.List.{list_all};
ghost use Rattle.pc_base.specs.Key.{is_key_byte};
ghost use Rattle.pc_base.specs.Value.{is_value_byte};
ghost use Rattle.pc_read.specs.Given.{StandsFor};
ghost use Rattle.pc_read.specs.Texts.{own_key, own_option, own_value_bytes};
ghost use Rattle.pc_spelling.specs.Cutting.{or_dash_at};
ghost use Rattle.pc_spelling.specs.Reading.{key_at, maybe_value_at, value_at, value_bytes_at};

use crate::cut::is;
use pc_base::{BaseFault, KEY_BYTES, Key, NoMemory, VALUE_BYTES, Value};
use std::alloc::Global;

fn is_key_byte(byte: u8) -> bool
    ensures { result ≡ is_key_byte byte }
{
    matches!(byte, b'a'..=b'z' | b'A'..=b'Z' | b'.'..=b'9' | b'_')
}

fn is_value_byte(byte: u8) -> bool
    ensures { result ≡ is_value_byte byte }
{
    matches!(byte, 33..=126) && byte != b','
}

fn are_key_bytes(bytes: &[u8]) -> bool
    ensures { result ≡ list_all is_key_byte bytes.now }
{
    bytes.iter().all(|byte| is_key_byte(*byte))
}

fn are_value_bytes(bytes: &[u8]) -> bool
    ensures { result ≡ list_all is_value_byte bytes.now }
{
    bytes.iter().all(|byte| is_value_byte(*byte))
}

/// A key's bytes.
#[tactic(auto, unfolding(pc_spelling::specs::Reading::key_at))]
pub fn key(bytes: &[u8]) -> Option<&[u8]>
    ensures { StandsFor own_key result (key_at bytes.now) }
{
    if !bytes.is_empty() && bytes.len() <= KEY_BYTES && are_key_bytes(bytes) {
        Some(bytes)
    } else {
        None
    }
}

/// A value's bytes, without the equals sign.
#[tactic(auto, unfolding(pc_spelling::specs::Reading::value_bytes_at))]
pub fn value_bytes(bytes: &[u8]) -> Option<&[u8]>
    ensures { StandsFor own_value_bytes result (value_bytes_at bytes.now) }
{
    if bytes.len() <= VALUE_BYTES && are_value_bytes(bytes) {
        Some(bytes)
    } else {
        None
    }
}

/// A value behind its equals sign.
#[tactic(auto, unfolding(pc_spelling::specs::Reading::value_at))]
pub fn value(bytes: &[u8]) -> Option<&[u8]>
    ensures { StandsFor own_value_bytes result (value_at bytes.now) }
{
    match bytes {
        [b'=', rest @ ..] => value_bytes(rest),
        _ => None,
    }
}

/// A value, or a dash for none.
pub fn maybe_value(bytes: &[u8]) -> Option<Option<&[u8]>>
    ensures { StandsFor (own_option own_value_bytes) result (maybe_value_at bytes.now) }
{
    if is(bytes, b"-") {
        Some(None)
    } else {
        Some(Some(value(bytes)?))
    }
}

/// A key, or a dash for an open end.
pub fn maybe_key(bytes: &[u8]) -> Option<Option<&[u8]>>
    ensures { StandsFor (own_option own_key) result (or_dash_at key_at bytes.now) }
{
    if is(bytes, b"-") {
        Some(None)
    } else {
        Some(Some(key(bytes)?))
    }
}

/// The key that the bytes are, in memory of its own.
#[tactic(auto, unfolding(pc_spelling::specs::Reading::key_at))]
pub fn owned_key(alloc: Global, bytes: &[u8]) -> Result<Key, NoMemory>
    requires { IsSome (key_at bytes.now) }
    ensures { IfOk result (λ key. key_at bytes.now ≡ Some key) }
{
    match Key::new(alloc, bytes) {
        Ok(key) => Ok(key),
        Err(BaseFault::NoMemory) => Err(NoMemory),
        Err(_) => unreachable!(),
    }
}

/// The value whose bytes these are, in memory of its own.
#[tactic(auto, unfolding(pc_spelling::specs::Reading::value_bytes_at))]
pub fn owned_value(alloc: Global, bytes: &[u8]) -> Result<Value, NoMemory>
    requires { IsSome (value_bytes_at bytes.now) }
    ensures { IfOk result (λ value. value_bytes_at bytes.now ≡ Some value) }
{
    match Value::new(alloc, bytes) {
        Ok(value) => Ok(value),
        Err(BaseFault::NoMemory) => Err(NoMemory),
        Err(_) => unreachable!(),
    }
}

/// The same of a key that may be absent.
pub fn owned_maybe_key(alloc: Global, bytes: Option<&[u8]>) -> Result<Option<Key>, NoMemory>
    requires { IsSome (own_option own_key bytes) }
    ensures { IfOk result (λ key. own_option own_key bytes.entry ≡ Some key) }
{
    match bytes {
        Some(bytes) => Ok(Some(owned_key(alloc, bytes)?)),
        None => Ok(None),
    }
}

/// The same of a value that may be absent.
pub fn owned_maybe_value(alloc: Global, bytes: Option<&[u8]>) -> Result<Option<Value>, NoMemory>
    requires { IsSome (own_option own_value_bytes bytes) }
    ensures { IfOk result (λ value. own_option own_value_bytes bytes.entry ≡ Some value) }
{
    match bytes {
        Some(bytes) => Ok(Some(owned_value(alloc, bytes)?)),
        None => Ok(None),
    }
}
