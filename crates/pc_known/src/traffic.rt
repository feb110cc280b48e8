use pc_proto::{Reply, Request};
use std::marker::Model;

/// A message that the actor sent.
#[derive(Drop)]
pub struct Message<'a> {
    pub number: u64,
    pub range: u32,
    pub request: &'a Request,
}

impl<'a> Model for Message<'a> {
    ghost use Rattle.pc_world.specs.Known.Traffic.{Sent};

    ghost Value = { Sent };

    ghost view = { λ m. record { number = m.number; range = m.range; request = m.request.now } };
}

/// A reply that the actor heard.
#[derive(Drop)]
pub struct Hearing<'a> {
    pub number: u64,
    pub request: &'a Request,
    pub reply: &'a Reply,
    pub step: u64,
}

impl<'a> Model for Hearing<'a> {
    ghost use Rattle.pc_world.specs.Known.Traffic.{Heard};

    ghost Value = { Heard };

    ghost view = { λ h. record { number = h.number; request = h.request.now; reply = h.reply.now; step = h.step } };
}
