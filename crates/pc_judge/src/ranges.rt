ghost use Rattle.std.specs.Prelude.{◌≡◌, ◌↔◌, ◌+◌, ◌^◌, ◌<◌, IfOk, IsTrue, slice_get};
ghost use Rattle.std.specs.Option.{option_copied};
ghost use Rattle.pc_base.specs.declared.actor.ActorId.TheVariants.{Range};
ghost use Rattle.pc_report.specs.Replaying.{AreBlank, HasRoomFor, states_after};
ghost use Rattle.pc_world.specs.Local.{IsAnswer, MayEvaluate};
ghost use Rattle.pc_world.specs.Named.{request_named};
ghost use Rattle.pc_world.specs.RangeState.{RangeState as range_state};

use crate::same::same_reply;
use pc_base::{Entry, NoMemory};
use pc_eval::RangeState;
use pc_proto::{Event, Reply, Request};
use std::alloc::Global;

/// Ranges on which nothing has happened, one more than there are splits.
pub(crate) fn blank_ranges(alloc: Global, splits: usize) -> Result<Vec<RangeState>, NoMemory>
    requires { splits + 1 < 2 ^ 32 }
    ensures { IfOk result (λ states. AreBlank splits states.items) }
{
    let mut states = Vec::new(alloc);
    for _range in 0..splits + 1 {
        states.push(RangeState::new(alloc))?;
    }
    Ok(states)
}

/// Whether the range answers the message that is named as the event says. It evaluates the message.
pub(crate) fn evaluates(
    states: &mut Vec<RangeState>,
    range: u32,
    event: &Event,
    named: Option<&Entry<Event>>,
) -> Result<bool, NoMemory>
    requires { HasRoomFor states.old.items (Range range) (request_named (option_copied named)) }
    ensures may { IfOk result (λ may. (s : range_state) → slice_get states.old.items range ≡ Some s → IsTrue may ↔ MayEvaluate s event.now (option_copied named.entry)) }
    ensures after { IfOk result (λ may. IsTrue may → states.new.items ≡ states_after states.old.items (Range range) (request_named (option_copied named.entry))) }
{
    match (event, request_named(named)) {
        (Event::Eval { reply, .. }, Some(request)) => answers(states, range, request, reply),
        _ => Ok(false),
    }
}

/// The request of the message that is named.
fn request_named<'a>(named: Option<&'a Entry<Event>>) -> Option<&'a Request>
    ensures { option_copied result ≡ request_named (option_copied named.entry) }
{
    match &named?.event {
        Event::Send { request, .. } => Some(request),
        _ => None,
    }
}

/// Whether the range's reply to the request is this one. It evaluates the request.
fn answers(
    states: &mut Vec<RangeState>,
    range: u32,
    request: &Request,
    reply: &Reply,
) -> Result<bool, NoMemory>
    requires { HasRoomFor states.old.items (Range range) (Some request.now) }
    ensures may { IfOk result (λ may. (s : range_state) → slice_get states.old.items range ≡ Some s → IsTrue may ↔ IsAnswer (Some request.now) s reply.now) }
    ensures after { IfOk result (λ may. IsTrue may → states.new.items ≡ states_after states.old.items (Range range) (Some request.now)) }
{
    match states.get_mut(range as usize) {
        Some(state) => Ok(same_reply(&state.eval(request)?, reply)),
        None => Ok(false),
    }
}
