//! The place of one range, which may not be there.
ghost use Rattle.std.specs.Prelude.{◌≡◌, ◌+◌, ◌<◌, ◌≤◌, ◌^◌, ◌∷◌, [], cond, false, is_some, length, nat_lt, IfErr, IfOk, IfSome, IsSome, OnErr, OnOk};
ghost use Rattle.pc_base.specs.declared.actor.ActorId.TheVariants.{Range};
ghost use Rattle.pc_history.specs.Parts.{uses_left};
ghost use Rattle.pc_proto.specs.Stamps.{request_stamps};
ghost use Rattle.pc_range.specs.Cell.{IsFullAt};
ghost use Rattle.pc_range.specs.Message.{ComesAfter, IsToldBefore, IsEvalNote};
ghost use Rattle.pc_range.specs.Seats.{AreFree, HandsIn, HasSeated};
ghost use Rattle.pc_world.specs.Stamps.{AllBelowGreatest};

use crate::cell::RangeCell;
use crate::commit_world::CommitWorld;
use crate::gate::Gate;
use crate::message::{Message, ReplyMsg, ServeFault};
use pc_base::{ActorId, NoMemory};
use pc_history::{Named, Note, Opener};
use std::alloc::Global;
use std::sync::{Mutex, Wait};

/// A range behind its lock, where there is one of this number.
pub(crate) type Slot<N, const I: u32> = Option<Mutex<RangeCell<N, I>>>;

/// Seats the range of this number, if there are so many.
pub(crate) fn start<N: Named<CommitWorld>, const I: u32>(
    alloc: Global,
    opener: &mut Opener<CommitWorld, N>,
    count: u32,
) -> Result<Slot<N, I>, NoMemory>
    requires count { count ≡ length opener.old.world.splits + 1 }
    requires free { AreFree I opener.old.seated }
    requires few { length opener.old.seated < 65536 }
    ensures there { IfOk result (λ slot. is_some slot ≡ nat_lt I count) }
    ensures seated { OnOk result (HasSeated count (I + 1) (Range I ∷ []) opener.old opener.new) }
    ensures same { opener.new ≡ record opener.old { seated = opener.new.seated } }
{
    if I >= count {
        return Ok(None);
    }
    let actor = opener.seat(ActorId::Range(I))?;
    Ok(Some(Mutex::new(RangeCell::new(alloc, actor))))
}

/// Serves a message under the lock.
pub(crate) fn serve<N: Named<CommitWorld>, G: Gate, R: Wait, const I: u32>(
    rt: &R,
    slot: &Slot<N, I>,
    gate: &G,
    limit: u64,
    msg: Message<N>,
    after: Option<Note<CommitWorld, N>>,
) -> Result<ReplyMsg<N>, ServeFault<N>>
    requires there { IsSome slot.now }
    requires here { msg.range ≡ I }
    requires limit { (1 ≤ limit) × (limit < 2 ^ 32) }
    requires use_left { 1 ≤ uses_left msg.note.known }
    requires below { AllBelowGreatest (request_stamps msg.request) }
    ensures told { IfOk result (λ r. (r.number ≡ msg.number) × IsEvalNote msg.sender msg.number I r.step r.reply r.note.known) }
    ensures later { IfOk result (λ r. IsToldBefore r.step msg.note.known) }
    ensures behind { IfOk result (λ r. IfSome after (λ n. ComesAfter r.step n.known)) }
    ensures full { IfErr result (IsFullAt I limit msg) }
{
    match slot {
        Some(cell) => {
            let mut cell = cell.lock(rt);
            gate.before(I);
            cell.serve(limit, msg, after)
        }
        None => unreachable!(),
    }
}

/// Hands the range's actor in, if there is one.
pub(crate) fn close<N: Named<CommitWorld>, const I: u32>(
    slot: Slot<N, I>,
    opener: &mut Opener<CommitWorld, N>,
) -> Result<(), NoMemory>
    ensures handed { OnOk result (HandsIn (cond (is_some slot) (Range I ∷ []) []) opener.old opener.new) }
    ensures refused { OnErr result (opener.new.whole ≡ false) }
{
    match slot {
        Some(cell) => opener.hand_in(cell.into_inner().into_actor()),
        None => Ok(()),
    }
}
