ghost use Rattle.std.specs.Prelude.{◌≡◌, ◌↔◌, IfOk, IfErr, IsTrue, IsErrOf, length};
ghost use Rattle.std.specs.List.{list_all};
ghost use Rattle.std.proofs.Common.{rules};
ghost use Rattle.std.specs.Cmp.{partial_order_from_own_ties};
ghost use Rattle.std.specs.Cmp.Rules.{comparing};
ghost use Rattle.std.specs.Ordering.{nat_cmp, as_partial_cmp};
ghost use Rattle.std.specs.Cmp.Lexicographic.{slice_cmp};
ghost use Rattle.pc_base.specs.Faults.{IsKeyFault};
ghost use Rattle.pc_base.specs.Key.{HasKeyLength, IsKey, is_key_byte};
ghost use Rattle.pc_base.specs.Span.{same_key};

use crate::limits::KEY_BYTES;
use crate::memory::{NoMemory, TryCopy};
use crate::value::BaseFault;
use std::alloc::Global;
use std::cmp::Ordering;
use std::marker::Model;
use std::str;

/// A key of the map: 1 to 64 bytes, each a letter, a digit, `_`, `/` or `.`.
///
/// Keys are ordered byte by byte, as texts are, of which std compares several bytes at a time. Contracts see a key as its bytes.
#[derive(Debug, Drop)]
pub struct Key {
    text: String,
}

impl Model for Key {
    ghost use Rattle.std.specs.Prelude.{ℕ, List, string_bytes};
    ghost use Rattle.pc_base.specs.Key.{IsKey};

    ghost Value = { List ℕ };

    ghost view = { λ k. string_bytes k.text };

    ghost invariant = { λ k. IsKey (string_bytes k.text) };
}

impl Key {
    /// Takes the bytes of a key that came from outside.
    pub fn new(alloc: Global, bytes: &[u8]) -> Result<Key, BaseFault>
        ensures ok { IfOk result (λ key. key ≡ bytes.now) }
        ensures faults { IfErr result IsKeyFault }
        ensures length { IsErrOf result BaseFault.KeyLength ↔ ¬ (HasKeyLength bytes.now) }
        ensures byte { IsErrOf result BaseFault.KeyByte ↔ (HasKeyLength bytes.now × ¬ (IsTrue (list_all is_key_byte bytes.now))) }
    {
        if bytes.is_empty() || bytes.len() > KEY_BYTES {
            return Err(BaseFault::KeyLength);
        }
        if !are_key_bytes(bytes) {
            return Err(BaseFault::KeyByte);
        }
        let Ok(text) = str::from_utf8(bytes) else {
            unreachable!()
        };
        let text = String::from_str(alloc, text)?;
        Ok(Key { text })
    }

    pub fn as_bytes(&self) -> &[u8]
        ensures bytes { result.now ≡ self.now }
        ensures allowed { IsKey self.now }
    {
        self.text.as_bytes()
    }
}

fn are_key_bytes(bytes: &[u8]) -> bool
    ensures { result ≡ list_all is_key_byte bytes.now }
{
    bytes.iter().all(|byte| is_key_byte(*byte))
}

fn is_key_byte(byte: u8) -> bool
    ensures { result ≡ is_key_byte byte }
{
    matches!(byte, b'a'..=b'z' | b'A'..=b'Z' | b'.'..=b'9' | b'_')
}

impl TryCopy for Key {
    fn copy(&self) -> Result<Key, NoMemory> {
        let text = self.text.clone()?;
        Ok(Key { text })
    }
}

impl PartialEq for Key {
    ghost eq = { same_key };

    ghost laws = { Prim.search (comparing, rules) };

    fn eq(&self, other: &Key) -> bool {
        self.text == other.text
    }
}

impl Eq for Key {
    ghost laws = { Prim.search (comparing, rules) };
}

impl PartialOrd for Key {
    ghost partial_cmp = { as_partial_cmp (slice_cmp nat_cmp) };

    ghost laws = { partial_order_from_own_ties (Prim.search (comparing, rules)) (Prim.search (comparing, rules)) };

    fn partial_cmp(&self, other: &Key) -> Option<Ordering> {
        Some(self.cmp(other))
    }
}

impl Ord for Key {
    ghost cmp = { slice_cmp nat_cmp };

    ghost total = { Prim.search (comparing, rules) };

    ghost matches_partial_cmp = { Prim.search (comparing, rules) };

    ghost matches_eq = { Prim.search (comparing, rules) };

    fn cmp(&self, other: &Key) -> Ordering {
        self.text.cmp(&other.text)
    }
}
