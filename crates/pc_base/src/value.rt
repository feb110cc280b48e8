ghost use Rattle.std.specs.Prelude.{◌≡◌, ◌≤◌, ◌<◌, ◌↔◌, ◌==◌, IfOk, IfErr, IsTrue, IsErrOf, length};
ghost use Rattle.std.specs.List.{list_all};
ghost use Rattle.std.proofs.Common.{rules};
ghost use Rattle.std.specs.Cmp.Rules.{comparing};
ghost use Rattle.std.specs.Cmp.Lexicographic.{pointwise};
ghost use Rattle.pc_base.specs.declared.value.BaseFault.TheVariants.{NoMemory as no_memory};
ghost use Rattle.pc_base.specs.Faults.{IsValueFault};
ghost use Rattle.pc_base.specs.Value.{IsValue, is_value_byte};

use crate::limits::VALUE_BYTES;
use crate::memory::{NoMemory, TryCopy};
use std::alloc::{AllocError, Global};
use std::marker::Model;

/// Why bytes from outside are no key or no value.
#[derive(Clone, Copy, Debug, PartialEq, Eq)]
pub enum BaseFault {
    KeyLength,
    KeyByte,
    ValueLength,
    ValueByte,
    NoMemory,
}

impl From<AllocError> for BaseFault {
    ghost from_gives = { λ _ fault. fault ≡ no_memory };

    fn from(_refused: AllocError) -> BaseFault {
        BaseFault::NoMemory
    }
}

/// A value of the map: at most 1,024 printable ASCII bytes, no space and no comma among them; it may be empty.
///
/// Contracts see a value as its bytes.
#[derive(Debug, Drop)]
pub struct Value {
    bytes: Vec<u8>,
}

impl Model for Value {
    ghost use Rattle.std.specs.Prelude.{ℕ, List};
    ghost use Rattle.pc_base.specs.Value.{IsValue};

    ghost Value = { List ℕ };

    ghost view = { λ v. v.bytes.items };

    ghost invariant = { λ v. IsValue v.bytes.items };
}

impl Value {
    /// Takes the bytes of a value that came from outside.
    pub fn new(alloc: Global, bytes: &[u8]) -> Result<Value, BaseFault>
        ensures ok { IfOk result (λ value. value ≡ bytes.now) }
        ensures faults { IfErr result IsValueFault }
        ensures length { IsErrOf result BaseFault.ValueLength ↔ (VALUE_BYTES < length bytes.now) }
        ensures byte { IsErrOf result BaseFault.ValueByte ↔ ((length bytes.now ≤ VALUE_BYTES) × ¬ (IsTrue (list_all is_value_byte bytes.now))) }
    {
        if bytes.len() > VALUE_BYTES {
            return Err(BaseFault::ValueLength);
        }
        if !are_value_bytes(bytes) {
            return Err(BaseFault::ValueByte);
        }
        let bytes = Vec::from_slice(alloc, bytes)?;
        Ok(Value { bytes })
    }

    pub fn as_bytes(&self) -> &[u8]
        ensures bytes { result.now ≡ self.now }
        ensures allowed { IsValue self.now }
    {
        self.bytes.as_slice()
    }
}

fn are_value_bytes(bytes: &[u8]) -> bool
    ensures { result ≡ list_all is_value_byte bytes.now }
{
    bytes.iter().all(|byte| is_value_byte(*byte))
}

fn is_value_byte(byte: u8) -> bool
    ensures { result ≡ is_value_byte byte }
{
    matches!(byte, 33..=126) && byte != b','
}

impl TryCopy for Value {
    fn copy(&self) -> Result<Value, NoMemory> {
        let bytes = self.bytes.clone()?;
        Ok(Value { bytes })
    }
}

impl PartialEq for Value {
    ghost eq = { pointwise ◌==◌ };

    ghost laws = { Prim.search (comparing, rules) };

    fn eq(&self, other: &Value) -> bool {
        self.as_bytes() == other.as_bytes()
    }
}

impl Eq for Value {
    ghost laws = { Prim.search (comparing, rules) };
}
