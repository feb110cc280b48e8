ghost use Rattle.std.specs.Prelude.{◌≡◌, ℕ, Ok, false, IfOk, List};
ghost use Rattle.pc_base.specs.declared.actor.ActorId.{ActorId};
ghost use Rattle.pc_proto.specs.declared.request.Request.{Request};
ghost use Rattle.pc_resolve.specs.Resolving.{finishing_after, finishing_next};
ghost use Rattle.pc_resolve.specs.ResolveKnows.{FinishingMayCome, ResolveKnows, WasAnsweredToIt};
ghost use Rattle.pc_proto.specs.declared.machine.MachineNext.TheVariants as nexts;
ghost use Rattle.pc_world.specs.Known.{Known};
ghost use Rattle.pc_world.specs.Send.Settling.{MayFinish};

use pc_base::{Key, NoMemory, TryCopy, TxnId};
use pc_proto::{Fate, Keys, MachineNext, Reply, Request};
use std::marker::Model;

/// Finishes a transaction: each of its locks is settled with its fate, in key order, and then its record is removed.
///
/// Versions come of committed transactions alone, and nothing that was committed is lost by it: the laws `versions_are_committed` and
/// `writes_of_committed` of `pc_implicit`.
#[derive(Drop)]
pub struct ResolveMachine {
    id: TxnId,
    anchor: Key,
    fate: Fate,
    locks: Keys,
    /// How many of the locks were settled.
    settled: usize,
    /// Whether a reply to the removal was heard.
    removed: bool,
}

impl Model for ResolveMachine {
    ghost use Rattle.pc_resolve.specs.Resolving.{Resolving};

    ghost Value = { Resolving };

    ghost view = { λ s. record { id = s.id; anchor = s.anchor; fate = s.fate; locks = s.locks; settled = s.settled; removed = s.removed } };
}

impl ResolveMachine {
    /// The machine that finishes this transaction. The locks are in key order.
    pub fn new(id: TxnId, anchor: Key, fate: Fate, locks: Keys) -> ResolveMachine
        ensures made { result ≡ record { id = id; anchor = anchor; fate = fate; locks = locks; settled = 0; removed = false } }
        ensures knows { (k : Known) → MayFinish k result.id result.anchor result.fate result.locks → ResolveKnows k k result }
    {
        ResolveMachine {
            id,
            anchor,
            fate,
            locks,
            settled: 0,
            removed: false,
        }
    }

    /// What is due.
    pub fn next(&self) -> Result<MachineNext, NoMemory>
        ensures due { IfOk result (λ next. next ≡ finishing_next self.now) }
        ensures may { (splits : List (List ℕ)) (actor : ActorId) (start k : Known) → ResolveKnows start k self.now → IfOk result (FinishingMayCome splits actor start k self.now) }
    {
        self.next_due()
    }

    fn next_due(&self) -> Result<MachineNext, NoMemory>
        ensures { IfOk result (λ next. next ≡ finishing_next self.now) }
    {
        match self.locks.get(self.settled) {
            Some(key) => Ok(MachineNext::Send(Request::Resolve {
                id: self.id,
                key: key.copy()?,
                fate: self.fate,
            })),
            None if self.removed => Ok(MachineNext::Finished),
            None => Ok(MachineNext::Send(Request::Remove {
                id: self.id,
                anchor: self.anchor.copy()?,
            })),
        }
    }

    /// This reply to the request that `next` gave was heard.
    pub fn heard(&mut self, reply: &Reply) -> Result<(), NoMemory>
        ensures ok { result ≡ Ok tt }
        ensures made { self.new ≡ finishing_after reply.now self.old }
        ensures knows { (start k later : Known) (request : Request) → ResolveKnows start k self.old → finishing_next self.old ≡ nexts.Send request → WasAnsweredToIt k later request reply.now self.old → ResolveKnows start later self.new }
    {
        self.hear(reply);
        Ok(())
    }

    fn hear(&mut self, reply: &Reply)
        ensures { self.new ≡ finishing_after reply.now self.old }
    {
        if self.settled >= self.locks.len() {
            self.removed = true;
        } else if matches!(reply, Reply::Resolved) {
            self.settled += 1;
        }
    }
}
