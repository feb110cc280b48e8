//! Where bytes go, and how all of them are written.

ghost use Rattle.std.specs.Prelude.{ℕ, ◌<◌, List, length, take, IfOk, OnOk, IfErr};
ghost use Rattle.std.specs.Io.{WritesAtMost};
ghost use Rattle.std.specs.Io.KnownBytes.{Appends, WriteAppends};
ghost use Rattle.std.specs.declared.option.Option.{Option};
ghost use Rattle.pc_io.specs.Causes.{HasCause};

use crate::failure::Failed;

/// Where bytes go.
pub trait Sink {
    /// The bytes that the sink took, where it tells them.
    ghost taken: { Self → Option (List ℕ) };

    /// How many of its calls failed; it stands still at the greatest `u64`.
    ghost faults: { Self → ℕ };

    /// Takes bytes from the front of `bytes`, and answers how many.
    fn write(&mut self, bytes: &[u8]) -> Result<usize, Failed>
        ensures bound { WritesAtMost result bytes.now }
        ensures progress { IfOk result (λ count. 0 < length bytes.now → 0 < count) }
        ensures bytes { WriteAppends (taken self.old) (taken self.new) result bytes.now }
        ensures cause { HasCause (faults self.old) (faults self.new) result };
}

/// A write that stopped at a failed call, after so many bytes.
#[derive(Clone, Copy, Debug, PartialEq, Eq)]
pub struct WriteStop {
    pub written: usize,
}

/// Writes all the bytes, in order, up to the first failure.
pub fn write_all<K: Sink>(sink: &mut K, bytes: &[u8]) -> Result<(), WriteStop>
    ensures ok { OnOk result (Appends (K.taken sink.old) (K.taken sink.new) bytes.now) }
    ensures prefix { IfErr result (λ stop.
        Appends (K.taken sink.old) (K.taken sink.new) (take stop.written bytes.now)) }
    ensures part { IfErr result (λ stop. stop.written < length bytes.now) }
    ensures cause { HasCause (K.faults sink.old) (K.faults sink.new) result }
{
    let mut written = 0;
    while written < bytes.len() {
        let (_, rest) = bytes.split_at(written);
        match sink.write(rest) {
            Ok(count) => written += count,
            Err(Failed) => return Err(WriteStop { written }),
        }
    }
    Ok(())
}
