ghost use Rattle.std.specs.Prelude.{◌≡◌, ◌<◌, ◌↔◌, [], ◌∷◌, IsTrue};
ghost use Rattle.pc_base.specs.declared.limits.TheConstants.{MOST_REFUSALS};
ghost use Rattle.pc_proto.specs.Replies.{status_ts};
ghost use Rattle.pc_refusals.specs.Moves.{CountsMoves, ShowsRecord, moves_with};
ghost use Rattle.pc_wave.specs.Standing.{HasMore};
ghost use Rattle.pc_world.specs.Counting.{LastIs};
ghost use Rattle.pc_follows.specs.Eighth.{WasMovedEighth};
ghost use Rattle.pc_world.specs.Known.{Known};
ghost use Rattle.pc_world.specs.Known.Traffic.{Heard};
ghost use Rattle.pc_world.specs.Tell.Refusal.{WasMoved};

use pc_base::Timestamp;
use pc_base::limits::MOST_REFUSALS;
use std::marker::Model;

/// How many stages and commits of the open call met a record above them, counted up to as many as may be.
#[derive(Debug, Drop)]
pub struct Refusals {
    count: u32,
}

impl Model for Refusals {
    ghost use Rattle.std.specs.Prelude.{ℕ};

    ghost Value = { ℕ };

    ghost view = { λ refusals. refusals.count };
}

impl Refusals {
    /// None so far: the call was just asked.
    pub fn new() -> Refusals
        ensures made { result ≡ 0 }
        ensures counts { (k : Known) → k.heard_now ≡ [] → CountsMoves k result }
    {
        Refusals { count: 0 }
    }

    /// A stage or commit at this timestamp was told that its record is not final, and where it stands.
    pub fn hear(&mut self, ts: Timestamp, recorded: Timestamp)
        ensures made { self.new ≡ moves_with ts recorded self.old }
        ensures counts { (k now : Known) (h : Heard) → CountsMoves k self.old → self.old < MOST_REFUSALS → ShowsRecord k ts recorded h → HasMore k now [] (h ∷ []) → CountsMoves now self.new }
        ensures last { (k now : Known) (h : Heard) → ts < recorded → ShowsRecord k ts recorded h → HasMore k now [] (h ∷ []) → LastIs (WasMoved now) (λ h. status_ts h.reply ≡ recorded) now.heard_now }
    {
        self.count = with_move(self.count, ts, recorded);
    }

    /// The same count.
    pub fn copied(&self) -> Refusals
        ensures { result ≡ self.now }
    {
        Refusals { count: self.count }
    }

    /// Whether it was moved as often as it may be.
    pub fn are_used_up(&self) -> bool
        ensures exactly { (k : Known) → CountsMoves k self.now → IsTrue result ↔ WasMovedEighth k }
    {
        self.count >= MOST_REFUSALS
    }
}

fn with_move(count: u32, ts: Timestamp, recorded: Timestamp) -> u32
    ensures { result ≡ moves_with ts recorded count }
{
    if ts < recorded && count < MOST_REFUSALS {
        count + 1
    } else {
        count
    }
}
