//! Where bytes come from, and how all of them are read.

ghost use Rattle.std.specs.Prelude.{◌≡◌, ℕ, ◌+◌, ◌<◌, ◌≤◌, ◌↔◌, List, length, IfOk, OnOk, IfSome, IsErrOf};
ghost use Rattle.std.specs.Io.{ReadsAtMost};
ghost use Rattle.std.specs.Io.KnownBytes.{ReadConsumes};
ghost use Rattle.std.specs.declared.option.Option.{Option};
ghost use Rattle.pc_base.specs.Counts.{saturating_next};
ghost use Rattle.pc_io.specs.Causes.{HasCause};
ghost use Rattle.pc_io.specs.Reading.{HasNoneLeft, IsAllOf, TakesAtMost, TakesExactly};

use crate::failure::Failed;
use std::alloc::{AllocError, Global};

/// Where bytes come from.
pub trait Source {
    /// The bytes that are left to read, where the source tells them.
    ghost left: { Self → Option (List ℕ) };

    /// How many of its calls failed; it stands still at the greatest `u64`.
    ghost faults: { Self → ℕ };

    /// Reads the next bytes into the front of `into`, and answers how many. No bytes into a slice
    /// that is not empty are the end of input.
    fn read(&mut self, into: &mut [u8]) -> Result<usize, Failed>
        ensures bound { ReadsAtMost result into.new }
        ensures bytes { ReadConsumes (left self.old) (left self.new) result into.new }
        ensures cause { HasCause (faults self.old) (faults self.new) result };
}

/// Why not all bytes of a source were read.
#[derive(Clone, Copy, Debug, PartialEq, Eq)]
pub enum ReadFault {
    /// A read failed.
    Failed,
    /// The source has more bytes than were allowed; so many were read.
    TooLong { bytes: usize },
    /// There was no memory for the bytes.
    NoMemory,
}

impl From<Failed> for ReadFault {
    ghost use Rattle.std.specs.Prelude.{◌≡◌};
    ghost use Rattle.pc_io.specs.declared.reading.ReadFault.TheVariants as faults;

    ghost from_gives = { λ _ fault. fault ≡ faults.Failed };

    fn from(_failed: Failed) -> ReadFault {
        ReadFault::Failed
    }
}

impl From<AllocError> for ReadFault {
    ghost use Rattle.std.specs.Prelude.{◌≡◌};
    ghost use Rattle.pc_io.specs.declared.reading.ReadFault.TheVariants as faults;

    ghost from_gives = { λ _ fault. fault ≡ faults.NoMemory };

    fn from(_refusal: AllocError) -> ReadFault {
        ReadFault::NoMemory
    }
}

// The most bytes that are asked of a source at once.
const CHUNK: usize = 8192;

/// Reads a source to its end. More bytes than `limit` are refused once one more than the limit
/// was read; the source is then not asked again, nor after a failure.
pub fn read_all<S: Source>(
    alloc: Global,
    source: &mut S,
    limit: usize,
) -> Result<Vec<u8>, ReadFault>
    ensures ok { IfOk result (λ bytes. IsAllOf (S.left source.old) bytes.items) }
    ensures end { OnOk result (HasNoneLeft (S.left source.old) (S.left source.new)) }
    ensures within { IfOk result (λ bytes. length bytes.items ≤ limit) }

    // Refused as too long exactly where one byte more than the limit was read.
    ensures too_long { IfSome (S.left source.old) (λ left.
        IsErrOf result (ReadFault.TooLong (limit + 1)) ↔ TakesExactly (limit + 1) left (S.left source.new)) }
    ensures number { (bytes : ℕ) → result ≡ Err (ReadFault.TooLong bytes) → bytes ≡ limit + 1 }
    // One failure ends it.
    ensures failed { result ≡ Err ReadFault.Failed → S.faults source.new ≡ saturating_next (S.faults source.old) }
    ensures count { ¬ (result ≡ Err ReadFault.Failed) → S.faults source.new ≡ S.faults source.old }

    // Whatever the answer: what was read is the front of what was left.
    ensures taken { TakesAtMost (limit + 1) (S.left source.old) (S.left source.new) }
{
    let mut bytes = Vec::new(alloc);
    let mut chunk = [0; CHUNK];
    loop {
        let room = limit - bytes.len();
        let wanted = CHUNK.min(room.saturating_add(1));
        let count = source.read(&mut chunk[..wanted])?;
        if count == 0 {
            return Ok(bytes);
        }
        if count > room {
            return Err(ReadFault::TooLong { bytes: limit + 1 });
        }
        bytes.extend_from_slice(&chunk[..count])?;
    }
}
