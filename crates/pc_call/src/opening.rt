ghost use Rattle.std.specs.Prelude.{Bool, ◌≡◌, ◌<◌, true, false, [], ◌∷◌, map, Some, All, IfOk, List};
ghost use Rattle.pc_call.specs.declared.later.LaterPut.{LaterPut};
ghost use Rattle.pc_call.specs.Setting.{Setting};
ghost use Rattle.pc_reads.specs.ReadsStanding.{refresh_to};
ghost use Rattle.pc_call.specs.Waiting.{waits_for_some};
ghost use Rattle.pc_call.specs.Stages.{CommitsOnFrom, HasOutbox, KeepsOutbox, is_to_commit};
ghost use Rattle.pc_world.specs.Known.Transactions.{Txn};
ghost use Rattle.pc_call.specs.Suiting.{SuitsFlightIn};
ghost use Rattle.pc_base.specs.Rising.{AreRising};
ghost use Rattle.pc_call.specs.Committing.{CommitsNow};
ghost use Rattle.pc_call.specs.Ended.{laying};
ghost use Rattle.pc_call.specs.Fresh.{IsFresh};
ghost use Rattle.pc_call.specs.Serving.{InCall, write_call};
ghost use Rattle.pc_proto.specs.declared.call.Call.TheVariants as calls;
ghost use Rattle.pc_proto.specs.declared.why.Why.{Why};
ghost use Rattle.pc_call.specs.declared.purpose.Purpose.TheVariants as purposes;
ghost use Rattle.pc_call.specs.Pieces.{scan_messages, spans_in};
ghost use Rattle.pc_txn.specs.Opened.{own_abort, own_commit, own_get};
ghost use Rattle.pc_wave.specs.Messages.{is_to_send, message_to_send};
ghost use Rattle.pc_world.specs.Known.{Known};
ghost use Rattle.pc_world.specs.Known.Statements.{Statement};

use crate::call::OpenCall;
use crate::pieces::scan_wave;
use crate::purpose::Purpose;
use pc_base::{Key, NoMemory, Span, Value};
use pc_proto::{Keys, Request, Why};
use pc_refusals::Refusals;
use pc_txn::OpenTxn;
use pc_wave::Wave;
use std::alloc::Global;

impl OpenCall {
    /// The open transaction reads a key.
    pub fn get(alloc: Global, txn: &OpenTxn, key: &Key) -> Result<OpenCall, NoMemory>
        ensures made { IfOk result (λ call. call ≡ record { purpose = purposes.Read; wave = message_to_send (own_get txn.now key.now) ∷ [] }) }
        ensures unsent { IfOk result (λ call. All (λ m. is_to_send m ≡ true) call.wave) }
        ensures stands { (set : Setting) (k : Known) (later : List LaterPut) (s : Statement) (why : Why) → IsFresh set.course.loses k txn.now s why → HasOutbox set.course.loses k txn.now later → SuitsFlightIn set.course.pipelines s.call txn.now.in_flight → s.call ≡ calls.Get key.now → waits_for_some (calls.Get key.now) txn.now.in_flight ≡ false → IfOk result (λ call. InCall set k txn.now call.purpose call.wave) }
    {
        let wave = wave_of(alloc, txn.get(key)?)?;
        Ok(OpenCall {
            purpose: Purpose::Read,
            wave,
        })
    }

    /// The open transaction reads a span, by a message to each range that the span meets.
    pub fn scan(
        alloc: Global,
        splits: &Keys,
        txn: &OpenTxn,
        span: &Span,
    ) -> Result<OpenCall, NoMemory>
        ensures made { IfOk result (λ call. call ≡ record { purpose = purposes.Read; wave = scan_messages txn.now (spans_in splits.now span.now) }) }
        ensures unsent { IfOk result (λ call. All (λ m. is_to_send m ≡ true) call.wave) }
        ensures stands { (set : Setting) (k : Known) (later : List LaterPut) (s : Statement) (why : Why) → set.splits ≡ splits.now → AreRising splits.now → IsFresh set.course.loses k txn.now s why → HasOutbox set.course.loses k txn.now later → SuitsFlightIn set.course.pipelines s.call txn.now.in_flight → s.call ≡ calls.Scan span.now → waits_for_some (calls.Scan span.now) txn.now.in_flight ≡ false → IfOk result (λ call. InCall set k txn.now call.purpose call.wave) }
    {
        let wave = scan_wave(alloc, splits, txn, span)?;
        Ok(OpenCall {
            purpose: Purpose::Read,
            wave,
        })
    }

    /// The open transaction, of which no write of this key is in flight, writes; no value is a deletion.
    pub fn write(
        alloc: Global,
        txn: &OpenTxn,
        key: &Key,
        value: &Option<Value>,
    ) -> Result<OpenCall, NoMemory>
        ensures made { IfOk result (λ call. call ≡ laying txn.now key.now value.now) }
        ensures stands { (set : Setting) (k : Known) (later : List LaterPut) (s : Statement) (why : Why) → IsFresh set.course.loses k txn.now s why → HasOutbox set.course.loses k txn.now later → SuitsFlightIn set.course.pipelines s.call txn.now.in_flight → s.call ≡ write_call key.now value.now → waits_for_some (write_call key.now value.now) txn.now.in_flight ≡ false → IfOk result (λ call. InCall set k txn.now call.purpose call.wave) }
    {
        let wave = wave_of(alloc, txn.next_put(key, value)?)?;
        Ok(OpenCall {
            purpose: Purpose::Write,
            wave,
        })
    }

    /// The open transaction commits where its reads are good at its write timestamp, after its commit was moved so often.
    pub fn commit(
        alloc: Global,
        txn: &OpenTxn,
        anchor: &Key,
        refusals: Refusals,
    ) -> Result<OpenCall, NoMemory>
        ensures purpose { IfOk result (λ call. is_to_commit call.purpose ≡ true) }
        ensures made { IfOk result (λ call. call.wave ≡ message_to_send (own_commit txn.now anchor.now) ∷ []) }
        ensures outbox { (loses : Bool) (k : Known) (later : List LaterPut) → HasOutbox loses k txn.now later → IfOk result (λ call. KeepsOutbox loses k txn.now later call.wave) }
        ensures stands { (set : Setting) (k : Known) (later : List LaterPut) (s : Statement) (c : CommitsNow set.course.loses refusals k txn.now s) → c.on.commits.anchor ≡ anchor.now → txn.now.in_flight ≡ [] → HasOutbox set.course.loses k txn.now later → IfOk result (λ call. InCall set k txn.now call.purpose call.wave) }
    {
        let wave = wave_of(alloc, txn.commit(anchor)?)?;
        Ok(OpenCall {
            purpose: Purpose::Commit { refusals },
            wave,
        })
    }

    /// What the open transaction read is refreshed first, from where it reads to where it writes. These are the puts of its last stage, if there was one.
    pub fn refresh(
        alloc: Global,
        txn: &OpenTxn,
        refusals: Refusals,
        puts: Wave,
    ) -> Result<OpenCall, NoMemory>
        ensures purpose { IfOk result (λ call. is_to_commit call.purpose ≡ true) }
        ensures made { IfOk result (λ call. call.wave ≡ map message_to_send (map (refresh_to txn.now.id txn.now.reads.ts txn.now.write_ts) txn.now.reads.spans)) }
        ensures unsent { IfOk result (λ call. All (λ m. is_to_send m ≡ true) call.wave) }
        ensures outbox { (loses : Bool) (k : Known) (later : List LaterPut) → HasOutbox loses k txn.now later → IfOk result (λ call. KeepsOutbox loses k txn.now later call.wave) }
        ensures stands { (set : Setting) (k : Known) (later : List LaterPut) (t : Txn) (s : Statement) → CommitsOnFrom set.course.loses t.read_ts refusals k t txn.now s puts → txn.now.reads.ts < txn.now.write_ts → SuitsFlightIn set.course.pipelines calls.Commit txn.now.in_flight → HasOutbox set.course.loses k txn.now later → IfOk result (λ call. InCall set k txn.now call.purpose call.wave) }
    {
        let requests = txn.reads.refreshes(alloc, txn.id, txn.write_ts)?;
        let wave = wave_of_all(alloc, requests)?;
        Ok(OpenCall {
            purpose: Purpose::Refresh { refusals, puts },
            wave,
        })
    }

    /// The open transaction, which wrote, is rolled back for this cause.
    pub fn abort(alloc: Global, txn: &OpenTxn, anchor: &Key, why: Why) -> Result<OpenCall, NoMemory>
        ensures made { IfOk result (λ call. call.wave ≡ message_to_send (own_abort txn.now why anchor.now) ∷ []) }
        ensures unsent { IfOk result (λ call. All (λ m. is_to_send m ≡ true) call.wave) }
        ensures stands { (set : Setting) (k : Known) (later : List LaterPut) (s : Statement) → IsFresh set.course.loses k txn.now s why → HasOutbox set.course.loses k txn.now later → SuitsFlightIn set.course.pipelines s.call txn.now.in_flight → s.call ≡ calls.Rollback → txn.now.anchor ≡ Some anchor.now → IfOk result (λ call. InCall set k txn.now call.purpose call.wave) }
    {
        let wave = wave_of(alloc, txn.abort(anchor, &why)?)?;
        Ok(OpenCall {
            purpose: Purpose::Abort { why },
            wave,
        })
    }
}

pub(crate) fn wave_of(alloc: Global, request: Request) -> Result<Wave, NoMemory>
    ensures { IfOk result (λ wave. wave ≡ message_to_send request ∷ []) }
{
    let mut wave = Wave::new(alloc);
    wave.add(request)?;
    Ok(wave)
}

fn wave_of_all(alloc: Global, requests: Vec<Request>) -> Result<Wave, NoMemory>
    ensures { IfOk result (λ wave. wave ≡ map message_to_send requests.items) }
{
    let mut wave = Wave::new(alloc);
    for request in requests {
        wave.add(request)?;
    }
    Ok(wave)
}
