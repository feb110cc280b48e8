ghost use Rattle.std.specs.Prelude.{◌≡◌};
ghost use Rattle.std.specs.List.{list_all};
ghost use Rattle.pc_base.specs.Key.{is_key_byte};
ghost use Rattle.pc_base.specs.Value.{is_value_byte};
ghost use Rattle.pc_work.specs.Reading.{Gives};
ghost use Rattle.pc_work.specs.RefusedTexts.{key_refusal, value_refusal};
ghost use Rattle.pc_work.specs.Texts.{key_in, key_of, spells_key, spells_value, value_of};

use crate::fault::Misfit;
use crate::json::FromJson;
use crate::judge::Judged;
use crate::refusal::{OTHER_FORM, WRONG_TEXT, unless};
use pc_base::limits::{KEY_BYTES, VALUE_BYTES};
use pc_base::{BaseFault, Key, Value};
use serde_json::Value as Json;
use std::alloc::Global;

impl FromJson for Key {
    ghost found_in = { key_of };

    #[tactic(auto, unfolding(crate::specs::Texts::key_of))]
    fn from_json(alloc: Global, json: &Json) -> Result<Key, Misfit> {
        key_in(alloc, json.as_str().ok_or(Misfit::OtherForm)?)
    }
}

/// The key that a text spells.
pub(crate) fn key_in(alloc: Global, text: &str) -> Result<Key, Misfit>
    ensures { Gives result (key_in text.now) }
{
    match Key::new(alloc, text.as_bytes()) {
        Ok(key) => Ok(key),
        Err(BaseFault::KeyLength | BaseFault::KeyByte) => Err(Misfit::OtherForm),
        Err(_) => Err(Misfit::NoMemory),
    }
}

impl FromJson for Value {
    ghost found_in = { value_of };

    #[tactic(auto, unfolding(crate::specs::Texts::value_of))]
    fn from_json(alloc: Global, json: &Json) -> Result<Value, Misfit> {
        let text = json.as_str().ok_or(Misfit::OtherForm)?;
        match Value::new(alloc, text.as_bytes()) {
            Ok(value) => Ok(value),
            Err(BaseFault::ValueLength | BaseFault::ValueByte) => Err(Misfit::OtherForm),
            Err(_) => Err(Misfit::NoMemory),
        }
    }
}

impl Judged for Key {
    ghost refusal_in = { key_refusal };

    fn refusal(json: &Json) -> Option<u8> {
        match json.as_str() {
            Some(text) => unless(spells_key(text.as_bytes()), WRONG_TEXT),
            None => Some(OTHER_FORM),
        }
    }
}

impl Judged for Value {
    ghost refusal_in = { value_refusal };

    fn refusal(json: &Json) -> Option<u8> {
        match json.as_str() {
            Some(text) => unless(spells_value(text.as_bytes()), WRONG_TEXT),
            None => Some(OTHER_FORM),
        }
    }
}

/// Whether the bytes are a key.
pub(crate) fn spells_key(bytes: &[u8]) -> bool
    ensures { result ≡ spells_key bytes.now }
{
    bytes.len() >= 1 && bytes.len() <= KEY_BYTES && are_key_bytes(bytes)
}

fn are_key_bytes(bytes: &[u8]) -> bool
    ensures { result ≡ list_all is_key_byte bytes.now }
{
    bytes.iter().all(|byte| is_key_byte(*byte))
}

fn is_key_byte(byte: u8) -> bool
    ensures { result ≡ is_key_byte byte }
{
    matches!(byte, b'a'..=b'z' | b'A'..=b'Z' | b'.'..=b'9' | b'_')
}

/// Whether the bytes are a value.
fn spells_value(bytes: &[u8]) -> bool
    ensures { result ≡ spells_value bytes.now }
{
    bytes.len() <= VALUE_BYTES && are_value_bytes(bytes)
}

fn are_value_bytes(bytes: &[u8]) -> bool
    ensures { result ≡ list_all is_value_byte bytes.now }
{
    bytes.iter().all(|byte| is_value_byte(*byte))
}

fn is_value_byte(byte: u8) -> bool
    ensures { result ≡ is_value_byte byte }
{
    matches!(byte, 33..=126) && byte != b','
}
