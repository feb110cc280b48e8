//! Beat and Abort: an open transaction shows that it is alive; a rollback aborts its record.

ghost use Rattle.std.specs.Prelude.{◌≡◌, ◌↔◌, IsTrue};
ghost use Rattle.pc_knowledge.specs.Keeping.{KeepsKnowledge};
ghost use Rattle.pc_world.specs.Known.{Known};
ghost use Rattle.pc_world.specs.Send.Abort.{MaySendAbort};
ghost use Rattle.pc_world.specs.Send.Beat.{MaySendBeat};

use crate::call::asks_rollback;
use pc_base::Timestamp;
use pc_knowledge::{Knowledge, is_own_cause};
use pc_known::number;
use pc_proto::{Keys, TxnMeta, Why};

/// Whether the open transaction may send this heartbeat.
pub fn may_send_beat(known: &Knowledge<'_>, meta: &TxnMeta, ts: Timestamp, now: u64) -> bool
    ensures { (k : Known) → KeepsKnowledge k known.now → IsTrue result ↔ MaySendBeat k meta.now ts now }
{
    match known.open_txn() {
        None => false,
        Some(t) => { t.is_meta(meta) && number(ts) == t.write_ts() && known.reading() == Some(now) }
    }
}

/// Whether the open transaction, in a rollback, may send this abort.
pub fn may_send_abort(known: &Knowledge<'_>, meta: &TxnMeta, why: &Why, locks: &Keys) -> bool
    ensures { (k : Known) → KeepsKnowledge k known.now → IsTrue result ↔ MaySendAbort k meta.now why.now locks.now }
{
    match known.open_txn() {
        None => false,
        Some(t) => {
            asks_rollback(known.call())
                && t.is_meta(meta)
                && known.is_uncommitted(t.id())
                && is_own_cause(why, t.restart())
                && t.locks().are(locks)
        }
    }
}
