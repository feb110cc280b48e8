//! Eight ranges in a row.
ghost use Rattle.std.specs.Prelude.{◌≡◌, ◌+◌, ◌<◌, ◌≤◌, ◌^◌, false, length, IfErr, IfOk, IfSome, OnErr, OnOk};
ghost use Rattle.pc_history.specs.Parts.{uses_left};
ghost use Rattle.pc_proto.specs.Stamps.{request_stamps};
ghost use Rattle.pc_range.specs.Cell.{IsFullAt};
ghost use Rattle.pc_range.specs.Message.{ComesAfter, IsToldBefore, IsEvalNote};
ghost use Rattle.pc_range.specs.Seats.{AreFree, AreInARow, HandsIn, HasSeated, eight_ids, ranges_there};
ghost use Rattle.pc_world.specs.Stamps.{AllBelowGreatest};

use crate::commit_world::CommitWorld;
use crate::gate::Gate;
use crate::message::{Message, ReplyMsg, ServeFault};
use crate::slot::{self, Slot};
use pc_base::NoMemory;
use pc_history::{Named, Note, Opener};
use std::alloc::Global;
use std::marker::Model;
use std::sync::Wait;

/// The ranges of these eight numbers that are there. Contracts see them as how many ranges there are in all.
#[derive(Drop)]
pub(crate) struct Eight<
    N: Named<CommitWorld>,
    const A: u32,
    const B: u32,
    const C: u32,
    const D: u32,
    const E: u32,
    const F: u32,
    const G: u32,
    const H: u32,
> {
    count: u32,
    first: Slot<N, A>,
    second: Slot<N, B>,
    third: Slot<N, C>,
    fourth: Slot<N, D>,
    fifth: Slot<N, E>,
    sixth: Slot<N, F>,
    seventh: Slot<N, G>,
    eighth: Slot<N, H>,
}

impl<
    N: Named<CommitWorld>,
    const A: u32,
    const B: u32,
    const C: u32,
    const D: u32,
    const E: u32,
    const F: u32,
    const G: u32,
    const H: u32,
> Model for Eight<N, A, B, C, D, E, F, G, H> {
    ghost use Rattle.std.specs.Prelude.{◌≡◌, ℕ, is_some, nat_lt};

    ghost Value = { ℕ };

    ghost view = { λ s. s.count };

    ghost invariant = { λ s.
        (is_some s.first ≡ nat_lt A s.count) × (is_some s.second ≡ nat_lt B s.count)
        × (is_some s.third ≡ nat_lt C s.count) × (is_some s.fourth ≡ nat_lt D s.count)
        × (is_some s.fifth ≡ nat_lt E s.count) × (is_some s.sixth ≡ nat_lt F s.count)
        × (is_some s.seventh ≡ nat_lt G s.count) × (is_some s.eighth ≡ nat_lt H s.count) };
}

impl<
    N: Named<CommitWorld>,
    const A: u32,
    const B: u32,
    const C: u32,
    const D: u32,
    const E: u32,
    const F: u32,
    const G: u32,
    const H: u32,
> Eight<N, A, B, C, D, E, F, G, H> {
    /// Seats those that are there.
    pub(crate) fn start(
        alloc: Global,
        opener: &mut Opener<CommitWorld, N>,
        count: u32,
    ) -> Result<Eight<N, A, B, C, D, E, F, G, H>, NoMemory>
        requires row { AreInARow A B C D E F G H }
        requires count { count ≡ length opener.old.world.splits + 1 }
        requires free { AreFree A opener.old.seated }
        requires few { length opener.old.seated + 8 ≤ 65536 }
        ensures count { IfOk result (λ eight. eight ≡ count) }
        ensures seated { OnOk result (HasSeated count (H + 1) (eight_ids A B C D E F G H) opener.old opener.new) }
        ensures same { opener.new ≡ record opener.old { seated = opener.new.seated } }
    {
        let first = slot::start(alloc, opener, count)?;
        let second = slot::start(alloc, opener, count)?;
        let third = slot::start(alloc, opener, count)?;
        let fourth = slot::start(alloc, opener, count)?;
        let fifth = slot::start(alloc, opener, count)?;
        let sixth = slot::start(alloc, opener, count)?;
        let seventh = slot::start(alloc, opener, count)?;
        let eighth = slot::start(alloc, opener, count)?;
        Ok(Eight {
            count,
            first,
            second,
            third,
            fourth,
            fifth,
            sixth,
            seventh,
            eighth,
        })
    }

    /// Serves a message to one of them.
    pub(crate) fn serve<K: Gate, R: Wait>(
        &self,
        rt: &R,
        gate: &K,
        limit: u64,
        msg: Message<N>,
        after: Option<Note<CommitWorld, N>>,
    ) -> Result<ReplyMsg<N>, ServeFault<N>>
        requires row { AreInARow A B C D E F G H }
        requires one { (A ≤ msg.range) × (msg.range ≤ H) }
        requires there { msg.range < self.now }
        requires limit { (1 ≤ limit) × (limit < 2 ^ 32) }
        requires use_left { 1 ≤ uses_left msg.note.known }
        requires below { AllBelowGreatest (request_stamps msg.request) }
        ensures told { IfOk result (λ r. (r.number ≡ msg.number) × IsEvalNote msg.sender msg.number msg.range r.step r.reply r.note.known) }
        ensures later { IfOk result (λ r. IsToldBefore r.step msg.note.known) }
        ensures behind { IfOk result (λ r. IfSome after (λ n. ComesAfter r.step n.known)) }
        ensures full { IfErr result (IsFullAt msg.range limit msg) }
    {
        if msg.range == A {
            slot::serve(rt, &self.first, gate, limit, msg, after)
        } else if msg.range == B {
            slot::serve(rt, &self.second, gate, limit, msg, after)
        } else if msg.range == C {
            slot::serve(rt, &self.third, gate, limit, msg, after)
        } else if msg.range == D {
            slot::serve(rt, &self.fourth, gate, limit, msg, after)
        } else if msg.range == E {
            slot::serve(rt, &self.fifth, gate, limit, msg, after)
        } else if msg.range == F {
            slot::serve(rt, &self.sixth, gate, limit, msg, after)
        } else if msg.range == G {
            slot::serve(rt, &self.seventh, gate, limit, msg, after)
        } else {
            slot::serve(rt, &self.eighth, gate, limit, msg, after)
        }
    }

    /// Hands the actors in of those that are there.
    pub(crate) fn close(self, opener: &mut Opener<CommitWorld, N>) -> Result<(), NoMemory>
        ensures handed { OnOk result (HandsIn (ranges_there self (eight_ids A B C D E F G H)) opener.old opener.new) }
        ensures refused { OnErr result (opener.new.whole ≡ false) }
    {
        slot::close(self.first, opener)?;
        slot::close(self.second, opener)?;
        slot::close(self.third, opener)?;
        slot::close(self.fourth, opener)?;
        slot::close(self.fifth, opener)?;
        slot::close(self.sixth, opener)?;
        slot::close(self.seventh, opener)?;
        slot::close(self.eighth, opener)
    }
}
