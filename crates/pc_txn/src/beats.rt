ghost use Rattle.std.specs.Prelude.{◌≡◌, IfOk};
ghost use Rattle.pc_txn.specs.Silence.{is_silent, own_beat, raised_at, shown_at};

use crate::txn::OpenTxn;
use pc_base::limits::HEARTBEAT;
use pc_base::{Key, NoMemory, Timestamp, TryCopy};
use pc_proto::Request;

impl OpenTxn {
    /// Whether it has been silent for a second or more at this reading: it has an anchor, and last showed that it is alive so long before.
    pub fn is_silent(&self, reading: u64) -> bool
        ensures { result ≡ is_silent reading self.now }
    {
        self.anchor.is_some() && reading.saturating_sub(self.shown) >= HEARTBEAT
    }

    /// The message that shows that it is alive at this reading.
    pub fn beat(&self, anchor: &Key, reading: u64) -> Result<Request, NoMemory>
        ensures { IfOk result (λ made. made ≡ own_beat self.now reading anchor.now) }
    {
        let meta = self.meta(anchor.copy()?);
        Ok(Request::Beat {
            meta,
            ts: self.write_ts,
            now: reading,
        })
    }

    /// Its heartbeat of this reading was sent.
    pub fn show(&mut self, reading: u64)
        ensures { self.new ≡ shown_at reading self.old }
    {
        self.shown = reading;
    }

    /// Its heartbeat showed its record, which is not final and stands at this timestamp, by a reply that was evaluated at this step.
    pub fn raise(&mut self, recorded: Timestamp, step: u64)
        ensures { self.new ≡ raised_at recorded step self.old }
    {
        self.write_ts = self.write_ts.max(recorded);
        self.staging.undecided(step);
    }
}
