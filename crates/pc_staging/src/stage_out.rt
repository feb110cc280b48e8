ghost use Rattle.std.specs.Prelude.{◌≡◌};
ghost use Rattle.pc_staging.specs.Kept.{earlier_step, is_dead_by, is_refuted, refuted_above, refuted_at, refuted_by};

use pc_base::Timestamp;

/// A stage that was sent, as long as it was not told that its record went another way.
#[derive(Clone, Copy, Debug)]
pub struct StageOut {
    pub ts: Timestamp,
    /// The first step at which a reply was evaluated that shows one of its writes above it, or missing there.
    pub refuted: Option<u64>,
}

impl StageOut {
    pub(crate) fn is_late(&self) -> bool
        ensures { result ≡ is_refuted self.now }
    {
        self.refuted.is_some()
    }

    /// Whether the record was undecided after a write of the stage was refuted, by the last step at which it was seen undecided.
    pub(crate) fn is_dead(&self, undecided: Option<u64>) -> bool
        ensures { result ≡ is_dead_by undecided self.now }
    {
        match (self.refuted, undecided) {
            (Some(refuted), Some(undecided)) => refuted < undecided,
            _ => false,
        }
    }

    /// One of its writes was written at this timestamp.
    pub(crate) fn refute_below(&mut self, ts: Timestamp, step: u64)
        ensures { self.new ≡ refuted_above ts step self.old }
    {
        if self.ts < ts {
            self.refute(step);
        }
    }

    /// One of its writes is missing at this timestamp.
    pub(crate) fn refute_at(&mut self, ts: Timestamp, step: u64)
        ensures { self.new ≡ refuted_at ts step self.old }
    {
        if self.ts == ts {
            self.refute(step);
        }
    }

    fn refute(&mut self, step: u64)
        ensures { self.new ≡ refuted_by step self.old }
    {
        self.refuted = Some(first_of(self.refuted, step));
    }
}

fn first_of(first: Option<u64>, step: u64) -> u64
    ensures { result ≡ earlier_step first step }
{
    match first {
        Some(first) => first.min(step),
        None => step,
    }
}
