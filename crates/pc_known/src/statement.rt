ghost use Rattle.std.specs.Prelude.{◌≡◌, ◌↔◌, IsTrue};
ghost use Rattle.pc_world.specs.MayTell.{is_past_range};

use crate::call::is_begin;
use pc_base::limits::GREATEST_READING;
use pc_proto::{Answer, Call};
use std::marker::Model;

/// A call that was asked and has not been told its answer yet.
#[derive(Drop)]
pub struct Open<'a> {
    pub call: &'a Call,
    pub reading: u64,
}

impl<'a> Model for Open<'a> {
    ghost use Rattle.pc_world.specs.Known.Statements.{Statement};

    ghost Value = { Statement };

    ghost view = { λ s. record { call = s.call.now; reading = s.reading } };
}

impl<'a> Open<'a> {
    /// Whether it is a recoverer's round.
    pub fn is_round(&self) -> bool
        ensures { IsTrue result ↔ (self.now.call ≡ Call.Round) }
    {
        matches!(self.call, Call::Round)
    }

    /// Whether it is a begin at a reading past the clock's range.
    pub fn is_past_range(&self) -> bool
        ensures { result ≡ is_past_range self.now }
    {
        is_begin(self.call) && self.reading > GREATEST_READING
    }

    /// Whether the answer is that the clock is past its range at this reading.
    pub fn is_clock(&self, answer: &Answer) -> bool
        ensures { IsTrue result ↔ (answer.now ≡ Answer.Clock self.now.reading) }
    {
        match answer {
            Answer::Clock { reading } => *reading == self.reading,
            _ => false,
        }
    }
}
