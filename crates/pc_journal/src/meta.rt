ghost use Rattle.std.specs.Prelude.{◌≡◌, ◌∷◌, ◌++◌, OnOk};
ghost use Rattle.pc_journal.specs.Fits.{FitsMeta, FitsPoint, FitsWrite};
ghost use Rattle.pc_journal.specs.Meta.{meta_text, point_text, write_text};

use crate::text::{Text, then};
use pc_base::{Key, NoMemory, TxnId};
use pc_proto::TxnMeta;

impl Text for TxnMeta {
    ghost text = { meta_text };

    ghost spelled = { FitsMeta };

    fn print(&self, out: &mut Vec<u8>) -> Result<(), NoMemory> {
        self.id.print(out)?;
        then(b':', &self.epoch, out)?;
        then(b':', &self.priority, out)?;
        then(b':', &self.born, out)?;
        then(b':', &self.anchor, out)
    }
}

/// Where in a transaction's history a request reads or asks.
#[derive(Clone, Copy)]
pub struct Point {
    pub id: TxnId,
    pub epoch: u32,
    pub seq: u32,
}

impl Point {
    pub fn new(id: TxnId, epoch: u32, seq: u32) -> Point
        ensures { result ≡ record { id = id; epoch = epoch; seq = seq } }
    {
        Point { id, epoch, seq }
    }
}

impl Text for Point {
    ghost text = { λ point. point_text point.id point.epoch point.seq };

    ghost spelled = { λ point. FitsPoint (point.id, (point.epoch, point.seq)) };

    fn print(&self, out: &mut Vec<u8>) -> Result<(), NoMemory> {
        self.id.print(out)?;
        then(b':', &self.epoch, out)?;
        then(b':', &self.seq, out)
    }
}

impl Text for (Key, u32) {
    ghost text = { write_text };

    ghost spelled = { FitsWrite };

    fn print(&self, out: &mut Vec<u8>) -> Result<(), NoMemory> {
        self.0.print(out)?;
        then(b':', &self.1, out)
    }
}
