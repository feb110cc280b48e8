ghost use Rattle.std.specs.Prelude.{◌≡◌, ◌+◌, ◌<◌, ◌≤◌, ◌^◌, ◌++◌, false, length, Contains, IfErr, IfOk, IfSome, OnErr, OnOk};
ghost use Rattle.pc_base.specs.declared.actor.ActorId.TheVariants.{Range};
ghost use Rattle.pc_history.specs.Parts.{uses_left};
ghost use Rattle.pc_proto.specs.Stamps.{request_stamps};
ghost use Rattle.pc_range.specs.Cell.{IsFullAt};
ghost use Rattle.pc_range.specs.Message.{ComesAfter, IsToldBefore, IsEvalNote};
ghost use Rattle.pc_range.specs.Seats.{AreFree, HandsIn, range_ids};
ghost use Rattle.pc_world.specs.Stamps.{AllBelowGreatest};

use crate::commit_world::CommitWorld;
use crate::eight::Eight;
use crate::gate::Gate;
use crate::message::{Message, ReplyMsg, ServeFault};
use pc_base::NoMemory;
use pc_history::{Named, Note, Opener};
use pc_proto::Keys;
use std::alloc::Global;
use std::marker::Model;
use std::sync::Wait;

/// All ranges, each behind a lock of its own, so that two of them evaluate beside each other.
///
/// There are at most 32. Contracts see them as the splits between them, and how many entries each may have.
#[derive(Drop)]
pub struct Ranges<'a, N: Named<CommitWorld>, G> {
    splits: Keys,
    limit: u64,
    gate: &'a G,
    first: Eight<N, 0, 1, 2, 3, 4, 5, 6, 7>,
    second: Eight<N, 8, 9, 10, 11, 12, 13, 14, 15>,
    third: Eight<N, 16, 17, 18, 19, 20, 21, 22, 23>,
    fourth: Eight<N, 24, 25, 26, 27, 28, 29, 30, 31>,
}

impl<'a, N: Named<CommitWorld>, G> Model for Ranges<'a, N, G> {
    ghost use Rattle.std.specs.Prelude.{◌≡◌, ◌+◌, ◌<◌, ◌≤◌, ◌^◌, length};
    ghost use Rattle.pc_range.specs.Seats.{RangesMeaning};

    ghost Value = { RangesMeaning };

    ghost view = { λ r. record { splits = r.splits; limit = r.limit } };

    ghost invariant = { λ r.
        (length r.splits ≤ 31) × (1 ≤ r.limit) × (r.limit < 2 ^ 32)
        × (r.first ≡ length r.splits + 1) × (r.second ≡ length r.splits + 1)
        × (r.third ≡ length r.splits + 1) × (r.fourth ≡ length r.splits + 1) };
}

impl<'a, N: Named<CommitWorld>, G: Gate> Ranges<'a, N, G> {
    /// Seats all ranges of a world, on which nothing has happened yet.
    pub fn start(
        alloc: Global,
        opener: &mut Opener<CommitWorld, N>,
        splits: Keys,
        limit: u64,
        gate: &'a G,
    ) -> Result<Ranges<'a, N, G>, NoMemory>
        requires limit { (1 ≤ limit) × (limit < 2 ^ 32) }
        requires few_splits { length splits ≤ 31 }
        requires splits { splits ≡ opener.old.world.splits }
        requires free { AreFree 0 opener.old.seated }
        requires few_seats { length opener.old.seated ≤ 65504 }
        ensures ranges { IfOk result (λ r. r ≡ record { splits = splits; limit = limit }) }
        ensures seated { OnOk result (opener.new ≡ record opener.old { seated = opener.old.seated ++ range_ids (length splits + 1) }) }
        ensures same { opener.new ≡ record opener.old { seated = opener.new.seated } }
    {
        let count = splits.len() as u32 + 1;
        let first = Eight::start(alloc, opener, count)?;
        let second = Eight::start(alloc, opener, count)?;
        let third = Eight::start(alloc, opener, count)?;
        let fourth = Eight::start(alloc, opener, count)?;
        Ok(Ranges {
            splits,
            limit,
            gate,
            first,
            second,
            third,
            fourth,
        })
    }

    /// The keys at which the ranges are cut.
    pub fn splits(&self) -> &Keys
        ensures { result.now ≡ self.now.splits }
    {
        &self.splits
    }

    /// Has the message's range evaluate it, under the lock of that range. Where a note is given, the evaluation comes after what it tells of.
    pub fn serve<R: Wait>(
        &self,
        rt: &R,
        msg: Message<N>,
        after: Option<Note<CommitWorld, N>>,
    ) -> Result<ReplyMsg<N>, ServeFault<N>>
        requires there { msg.range ≤ length self.now.splits }
        requires use_left { 1 ≤ uses_left msg.note.known }
        requires below { AllBelowGreatest (request_stamps msg.request) }
        ensures told { IfOk result (λ r. (r.number ≡ msg.number) × IsEvalNote msg.sender msg.number msg.range r.step r.reply r.note.known) }
        ensures later { IfOk result (λ r. IsToldBefore r.step msg.note.known) }
        ensures behind { IfOk result (λ r. IfSome after (λ n. ComesAfter r.step n.known)) }
        ensures full { IfErr result (IsFullAt msg.range self.now.limit msg) }
    {
        if msg.range < 8 {
            self.first.serve(rt, self.gate, self.limit, msg, after)
        } else if msg.range < 16 {
            self.second.serve(rt, self.gate, self.limit, msg, after)
        } else if msg.range < 24 {
            self.third.serve(rt, self.gate, self.limit, msg, after)
        } else {
            self.fourth.serve(rt, self.gate, self.limit, msg, after)
        }
    }

    /// Hands the actors of all ranges in.
    pub fn close(self, opener: &mut Opener<CommitWorld, N>) -> Result<(), NoMemory>
        ensures handed { OnOk result (HandsIn (range_ids (length self.entry.splits + 1)) opener.old opener.new) }
        ensures refused { OnErr result (opener.new.whole ≡ false) }
    {
        self.first.close(opener)?;
        self.second.close(opener)?;
        self.third.close(opener)?;
        self.fourth.close(opener)
    }
}
