//! A source and a sink in memory, which fail at the calls that they are told to.

ghost use Rattle.std.specs.Prelude.{◌≡◌, ◌+◌, ◌-◌, ◌<◌, ◌≤◌, ◌↔◌, ◌⊎◌, min, [], ◌++◌, length, take, drop, Contains, Some, IfOk, OnErr, IsErr};
ghost use Rattle.std.specs.Io.{ReadsAtMost, WritesAtMost};
ghost use Rattle.std.specs.Io.KnownBytes.{ReadConsumes, WriteAppends};
ghost use Rattle.pc_base.specs.Counts.{saturating_next};
ghost use Rattle.pc_io.specs.Causes.{HasCause};

use crate::failure::Failed;
use crate::reading::Source;
use crate::schedule::Schedule;
use crate::writing::Sink;
use pc_base::NoMemory;
use std::alloc::Global;
use std::marker::Model;

/// Bytes in memory that are read from the front.
#[derive(Drop)]
pub struct MemSource {
    bytes: Vec<u8>,
    position: usize,
    schedule: Schedule,
}

impl Model for MemSource {
    ghost use Rattle.std.specs.Prelude.{◌≤◌, drop, vec_len};
    ghost use Rattle.pc_io.specs.Memory.{SourceState};

    ghost Value = { SourceState };

    ghost view = { λ s. record {
      left = drop s.position s.bytes.items;
      failing = s.schedule.failing.items;
      calls = s.schedule.calls;
      faults = s.schedule.faults;
    } };

    ghost invariant = { λ s. s.position ≤ vec_len s.bytes };
}

impl MemSource {
    /// A source of these bytes that fails at the calls with these numbers, counted from 1.
    pub fn new(bytes: Vec<u8>, failing: Vec<u64>) -> MemSource
        ensures left { result.left ≡ bytes.items }
        ensures failing { result.failing ≡ failing.items }
        ensures calls { result.calls ≡ 0 }
        ensures faults { result.faults ≡ 0 }
    {
        MemSource {
            bytes,
            position: 0,
            schedule: Schedule::new(failing),
        }
    }

    /// The bytes that are left to read.
    pub fn left(&self) -> &[u8]
        ensures { result.now ≡ self.now.left }
    {
        let (_, left) = self.bytes.split_at(self.position);
        left
    }

    /// How many calls failed.
    pub fn fault_count(&self) -> u64
        ensures { result ≡ self.now.faults }
    {
        self.schedule.faults
    }
}

impl Source for MemSource {
    ghost left = { λ s. Some s.left };

    ghost faults = { λ s. s.faults };

    fn read(&mut self, into: &mut [u8]) -> Result<usize, Failed>
        ensures bound { ReadsAtMost result into.new }
        ensures bytes { ReadConsumes (Some self.old.left) (Some self.new.left) result into.new }
        ensures cause { HasCause self.old.faults self.new.faults result }

        // It fails exactly at the listed calls, and then nothing else happens.
        ensures fails { IsErr result ↔ Contains self.old.failing (saturating_next self.old.calls) }
        ensures err { OnErr result (self.new ≡ record self.old {
          calls = saturating_next self.old.calls;
          faults = saturating_next self.old.faults;
        }) }
        ensures kept { OnErr result (into.new ≡ into.old) }

        // Else it gives as much as fits, and takes it from the front of what was left.
        ensures most { IfOk result (λ count. count ≡ min (length self.old.left) (length into.old)) }
        ensures ok { IfOk result (λ count. self.new ≡ record self.old {
          left = drop count self.old.left;
          calls = saturating_next self.old.calls;
        }) }
        ensures given { IfOk result (λ count. into.new ≡ take count self.old.left ++ drop count into.old) }
    {
        if self.schedule.begin() {
            return Err(self.schedule.fail());
        }
        let (_, left) = self.bytes.split_at(self.position);
        let count = copy_front(left, into);
        self.position += count;
        Ok(count)
    }
}

// Copies the front of `from` into the front of `into`, as much as fits.
fn copy_front(from: &[u8], into: &mut [u8]) -> usize
    ensures most { result ≡ min (length from.now) (length into.old) }
    ensures copied { into.new ≡ take result from.now ++ drop result into.old }
{
    let count = from.len().min(into.len());
    let (front, _) = from.split_at(count);
    into[..count].copy_from_slice(front);
    count
}

/// Takes bytes into memory that was reserved at once.
#[derive(Drop)]
pub struct MemSink {
    taken: Vec<u8>,
    room: usize,
    schedule: Schedule,
}

impl Model for MemSink {
    ghost use Rattle.std.specs.Prelude.{◌≤◌, vec_len, vec_capacity};
    ghost use Rattle.pc_io.specs.Memory.{SinkState};

    ghost Value = { SinkState };

    ghost view = { λ s. record {
      taken = s.taken.items;
      room = s.room;
      failing = s.schedule.failing.items;
      calls = s.schedule.calls;
      faults = s.schedule.faults;
    } };

    ghost invariant = { λ s. (vec_len s.taken ≤ s.room) × (s.room ≤ vec_capacity s.taken) };
}

impl MemSink {
    /// A sink with memory for so many bytes, that fails at the calls with these numbers, counted
    /// from 1.
    pub fn new(alloc: Global, room: usize, failing: Vec<u64>) -> Result<MemSink, NoMemory>
        ensures taken { IfOk result (λ sink. sink.taken ≡ []) }
        ensures room { IfOk result (λ sink. sink.room ≡ room) }
        ensures failing { IfOk result (λ sink. sink.failing ≡ failing.items) }
        ensures calls { IfOk result (λ sink. sink.calls ≡ 0) }
        ensures faults { IfOk result (λ sink. sink.faults ≡ 0) }
    {
        let taken = Vec::with_capacity(alloc, room)?;
        Ok(MemSink {
            taken,
            room,
            schedule: Schedule::new(failing),
        })
    }

    /// The bytes that it took, in order.
    pub fn taken(&self) -> &[u8]
        ensures { result.now ≡ self.now.taken }
    {
        self.taken.as_slice()
    }

    /// How many calls failed.
    pub fn fault_count(&self) -> u64
        ensures { result ≡ self.now.faults }
    {
        self.schedule.faults
    }
}

impl Sink for MemSink {
    ghost taken = { λ s. Some s.taken };

    ghost faults = { λ s. s.faults };

    fn write(&mut self, bytes: &[u8]) -> Result<usize, Failed>
        ensures bound { WritesAtMost result bytes.now }
        ensures progress { IfOk result (λ count. 0 < length bytes.now → 0 < count) }
        ensures bytes { WriteAppends (Some self.old.taken) (Some self.new.taken) result bytes.now }
        ensures cause { HasCause self.old.faults self.new.faults result }

        // It fails exactly at the listed calls and where there is no room for a byte.
        ensures fails { IsErr result ↔ (Contains self.old.failing (saturating_next self.old.calls)
            ⊎ ((0 < length bytes.now) × (self.old.room ≤ length self.old.taken))) }
        ensures err { OnErr result (self.new ≡ record self.old {
          calls = saturating_next self.old.calls;
          faults = saturating_next self.old.faults;
        }) }

        // Else it takes as much as there is room for.
        ensures most { IfOk result (λ count.
            count ≡ min (length bytes.now) (self.old.room - length self.old.taken)) }
        ensures ok { IfOk result (λ count. self.new ≡ record self.old {
          taken = self.old.taken ++ take count bytes.now;
          calls = saturating_next self.old.calls;
        }) }
    {
        let listed = self.schedule.begin();
        let room = self.room - self.taken.len();
        if listed || (room == 0 && !bytes.is_empty()) {
            return Err(self.schedule.fail());
        }
        let count = bytes.len().min(room);
        let (front, _) = bytes.split_at(count);
        self.taken.extend_from_slice(front).unwrap();
        Ok(count)
    }
}
