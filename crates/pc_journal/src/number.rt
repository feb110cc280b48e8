ghost use Rattle.std.specs.Prelude.{◌≡◌, ◌++◌, OnOk};
ghost use Rattle.std.specs.Fmt.{decimal};
ghost use Rattle.pc_journal.specs.Fits.{Fits32, Fits64, FitsTimestamp};
ghost use Rattle.pc_journal.specs.Number.{ts_text, reading_text};

use crate::text::{Text, then};
use itoa::Buffer;
use pc_base::{NoMemory, Timestamp};

impl Text for u64 {
    ghost text = { decimal };

    ghost spelled = { Fits64 };

    fn print(&self, out: &mut Vec<u8>) -> Result<(), NoMemory> {
        let mut digits = Buffer::new();
        out.extend_from_slice(digits.format(*self).as_bytes())?;
        Ok(())
    }
}

impl Text for u32 {
    ghost text = { decimal };

    ghost spelled = { Fits32 };

    fn print(&self, out: &mut Vec<u8>) -> Result<(), NoMemory> {
        u64::from(*self).print(out)
    }
}

impl Text for Timestamp {
    ghost text = { ts_text };

    ghost spelled = { FitsTimestamp };

    fn print(&self, out: &mut Vec<u8>) -> Result<(), NoMemory> {
        self.wall.print(out)?;
        then(b'.', &self.logical, out)
    }
}

/// A clock's reading as a call is asked at it.
#[derive(Clone, Copy)]
pub struct Reading(pub u64);

impl Text for Reading {
    ghost text = { λ reading. reading_text reading.0 };

    ghost spelled = { λ reading. Fits64 reading.0 };

    fn print(&self, out: &mut Vec<u8>) -> Result<(), NoMemory> {
        out.push(b'@')?;
        self.0.print(out)
    }
}
