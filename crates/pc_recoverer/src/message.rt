ghost use Rattle.std.specs.Prelude.{◌≡◌, ℕ, IfErr, IfOk, List};
ghost use Rattle.pc_desk.specs.Desk.{DeskMeaning, HasHalted, HasSentNext, MaySendNow, MaySendTo};
ghost use Rattle.pc_exchange.specs.Exchange.{WasExchanged};
ghost use Rattle.pc_exchange.specs.Growing.{HasAllBack};
ghost use Rattle.pc_proto.specs.declared.meta.TxnMeta.{TxnMeta};
ghost use Rattle.pc_proto.specs.declared.reply.Reply.TheVariants as replies;
ghost use Rattle.pc_proto.specs.declared.request.Request.{Request};
ghost use Rattle.pc_proto.specs.declared.request.Request.TheVariants as requests;
ghost use Rattle.pc_recoverer.specs.Broken.{AreFrontOf, AreFrontOfOne, AreFrontOfOneTo, BreaksOffIn, IsOneMessageTo};
ghost use Rattle.pc_recoverer.specs.InRound.{HasOneAway, IsRecovererInRound, WasExchangedWith};

use pc_clock::Clock;
use pc_desk::{Desk, Halt};
use pc_history::Named;
use pc_proto::{Metas, Reply, Request};
use pc_range::{CommitWorld, Gate};
use pc_wire::Wire;
use std::sync::Wait;

/// Sends one message, has it evaluated, and hears its reply, which it gives. No other message of the recoverer is on its way.
pub(crate) fn exchange<N: Named<CommitWorld>, C: Clock, V: Wire, G: Gate, R: Wait>(
    desk: &mut Desk<'_, N, C, V, G>,
    rt: &R,
    request: Request,
) -> Result<Reply, Halt>
    requires back { HasAllBack desk.old }
    requires client { IsRecovererInRound desk.old }
    requires may { MaySendNow desk.old.log request }
    ensures ok { IfOk result (λ reply. WasExchanged desk.old desk.new request reply) }
    ensures clock { desk.new.log.clock ≡ desk.old.log.clock }
    ensures err { IfErr result (HasHalted desk.old desk.new) }
    ensures ended { IfErr result (BreaksOffIn (AreFrontOfOne request) desk.old desk.new) }
{
    desk.send(request)?;
    hear_reply(desk, rt)
}

/// Has the range list its records.
pub(crate) fn list_records<N: Named<CommitWorld>, C: Clock, V: Wire, G: Gate, R: Wait>(
    desk: &mut Desk<'_, N, C, V, G>,
    rt: &R,
    range: u32,
) -> Result<Metas, Halt>
    requires back { HasAllBack desk.old }
    requires client { IsRecovererInRound desk.old }
    requires may { MaySendTo desk.old.log range requests.Records }
    ensures ok { IfOk result (λ metas. WasExchangedWith range desk.old desk.new requests.Records (replies.Listed metas)) }
    ensures clock { desk.new.log.clock ≡ desk.old.log.clock }
    ensures err { IfErr result (HasHalted desk.old desk.new) }
    ensures ended { (metas : List TxnMeta) → IfErr result (BreaksOffIn (AreFrontOf (IsOneMessageTo range requests.Records (replies.Listed metas))) desk.old desk.new) }
{
    desk.send_to(range, Request::Records)?;
    let reply = hear_reply(desk, rt)?;
    match reply {
        Reply::Listed(metas) => Ok(metas),
        _ => unreachable!(),
    }
}

/// Has the message that was sent last evaluated, and hears its reply, which it gives.
fn hear_reply<N: Named<CommitWorld>, C: Clock, V: Wire, G: Gate, R: Wait>(
    desk: &mut Desk<'_, N, C, V, G>,
    rt: &R,
) -> Result<Reply, Halt>
    requires { HasOneAway desk.old }
    ensures ok { (before : DeskMeaning C) (request : Request) (number : ℕ) (sent : HasSentNext before desk.old number request) → HasAllBack before → IfOk result (λ reply. WasExchangedWith sent.range before desk.new request reply) }
    ensures clock { desk.new.log.clock ≡ desk.old.log.clock }
    ensures err { IfErr result (HasHalted desk.old desk.new) }
    ensures ended { (before : DeskMeaning C) (request : Request) (number : ℕ) (sent : HasSentNext before desk.old number request) → IfErr result (BreaksOffIn (AreFrontOfOneTo sent.range request) before desk.new) }
{
    desk.deliver(rt)?;
    let heard = desk.hear()?;
    match heard {
        Some(answered) => Ok(answered.reply),
        None => unreachable!(),
    }
}
