ghost use Rattle.std.specs.Prelude.{◌≡◌, ◌↔◌, ◌+◌, ◌^◌, ◌<◌, IfOk, IsTrue, length};
ghost use Rattle.pc_known.specs.Calls.{KeepsCalls};
ghost use Rattle.pc_known.specs.Order.{IsInOrder, IsNextWithin};
ghost use Rattle.pc_known.specs.Sends.{KeepsSends};
ghost use Rattle.pc_world.specs.Known.{Known};
ghost use Rattle.pc_world.specs.MaySend.{MaySend};

use crate::calls::Calls;
use crate::range::goes_to;
use crate::sends::Sends;
use pc_base::{ActorId, NoMemory};
use pc_proto::{Keys, Request};
use std::alloc::Global;

/// Whether a message has the next number, goes to the range of its request, and names no timestamp past the one after the greatest that the
/// actor knows.
pub fn is_in_order(
    alloc: Global,
    splits: &Keys,
    calls: &Calls<'_>,
    sends: &Sends<'_>,
    number: u64,
    range: u32,
    request: &Request,
) -> Result<bool, NoMemory>
    requires { length splits.now + 1 < 2 ^ 32 }
    ensures { (k : Known) → KeepsCalls k calls.now → KeepsSends k sends.now → IfOk result (λ fits. IsTrue fits ↔ IsInOrder splits.now k number range request.now) }
{
    let there = goes_to(alloc, splits, request, range)?;
    if !there {
        return Ok(false);
    }
    Ok(is_next_within(calls, sends, number, request))
}

fn is_next_within(calls: &Calls<'_>, sends: &Sends<'_>, number: u64, request: &Request) -> bool
    ensures { (k : Known) → KeepsCalls k calls.now → KeepsSends k sends.now → IsTrue result ↔ IsNextWithin k number request.now }
{
    sends.is_next(number) && calls.are_within_next(request)
}

/// Whether a listing of a range's records may be sent.
pub fn may_list_records(
    alloc: Global,
    splits: &Keys,
    actor: ActorId,
    calls: &Calls<'_>,
    sends: &Sends<'_>,
    number: u64,
    range: u32,
) -> Result<bool, NoMemory>
    requires { length splits.now + 1 < 2 ^ 32 }
    ensures { (k : Known) → KeepsCalls k calls.now → KeepsSends k sends.now → IfOk result (λ may. IsTrue may ↔ MaySend splits.now actor k number range Request.Records) }
{
    if !calls.is_in_round(actor) {
        return Ok(false);
    }
    is_in_order(
        alloc,
        splits,
        calls,
        sends,
        number,
        range,
        &Request::Records,
    )
}
