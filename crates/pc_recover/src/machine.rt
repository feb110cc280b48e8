ghost use Rattle.std.specs.Prelude.{◌≡◌, ℕ, true, IfOk, OnErr, OnOk, List};
ghost use Rattle.pc_base.specs.declared.actor.ActorId.{ActorId};
ghost use Rattle.pc_proto.specs.declared.request.Request.{Request};
ghost use Rattle.pc_recover.specs.Recovering.{IsRecoveryOf, is_staging_view, over_due, progress_after_deciding, query_of, recover_of, recovering_after, recovering_next, recovering_at};
ghost use Rattle.pc_recover.specs.RecoverKnows.{MayRecover, RecoverKnows, RecoveringMayCome};
ghost use Rattle.pc_proto.specs.declared.machine.MachineNext.TheVariants as nexts;
ghost use Rattle.pc_world.specs.Exchange.{IsPossibleReply, WasAnswered};
ghost use Rattle.pc_world.specs.Known.{Known};

use crate::progress::Progress;
use pc_base::{Key, NoMemory, Timestamp, TryCopy, Who};
use pc_proto::{Finding, MachineNext, Reply, Request, TxnMeta, View, Writes};
use std::marker::Model;

/// Recovers a transaction whose record a push met staging: each write that the record lists is asked for in order, up to the first
/// that is missing; then the record is decided by what was found.
///
/// At the end `next` gives the view that the recovery was answered with: as settled where it is final, else as changed. Recoveries of one
/// transaction agree, and a write that was missing stays so: the laws `recoveries_agree` and `missing_stays` of `pc_implicit`.
#[derive(Drop)]
pub struct RecoverMachine {
    holder: TxnMeta,
    epoch: u32,
    ts: Timestamp,
    writes: Writes,
    by: Who,
    progress: Progress,
}

impl Model for RecoverMachine {
    ghost use Rattle.pc_recover.specs.Recovering.{Recovering};

    ghost Value = { Recovering };

    ghost view = { λ s. record { holder = s.holder; epoch = s.epoch; ts = s.ts; writes = s.writes; by = s.by; progress = s.progress } };
}

impl RecoverMachine {
    /// The recovery of this holder's record, which a push met staging as the view shows. `by` is the actor's own name.
    pub fn new(holder: TxnMeta, view: View, by: Who) -> RecoverMachine
        requires view { is_staging_view view ≡ true }
        ensures made { IsRecoveryOf holder view by result }
        ensures knows { (actor : ActorId) (k : Known) → MayRecover actor k result → RecoverKnows actor k k result }
    {
        match view {
            View::Staging { epoch, ts, writes } => RecoverMachine {
                holder,
                epoch,
                ts,
                writes,
                by,
                progress: Progress::Found(0),
            },
            _ => unreachable!(),
        }
    }

    /// What is due.
    pub fn next(&self) -> Result<MachineNext, NoMemory>
        ensures due { IfOk result (λ next. next ≡ recovering_next self.now) }
        ensures may { (splits : List (List ℕ)) (actor : ActorId) (start k : Known) → RecoverKnows actor start k self.now → IfOk result (RecoveringMayCome splits actor start k self.now) }
    {
        self.next_due()
    }

    fn next_due(&self) -> Result<MachineNext, NoMemory>
        ensures { IfOk result (λ next. next ≡ recovering_next self.now) }
    {
        match &self.progress {
            Progress::Found(found) => match self.writes.get(*found) {
                Some((key, seq)) => self.query(key, *seq),
                None => self.recover(Finding::All),
            },
            Progress::Missing(key) => self.recover(Finding::Missing {
                key: key.copy()?,
                by: self.by,
            }),
            Progress::Over(view) => over_due(view),
        }
    }

    fn query(&self, key: &Key, seq: u32) -> Result<MachineNext, NoMemory>
        ensures { IfOk result (λ next. next ≡ nexts.Send (query_of self.now (key.now, seq))) }
    {
        Ok(MachineNext::Send(Request::Query {
            id: self.holder.id,
            epoch: self.epoch,
            seq,
            ts: self.ts,
            key: key.copy()?,
            by: self.by,
        }))
    }

    fn recover(&self, finding: Finding) -> Result<MachineNext, NoMemory>
        ensures { IfOk result (λ next. next ≡ nexts.Send (recover_of self.now finding)) }
    {
        Ok(MachineNext::Send(Request::Recover {
            id: self.holder.id,
            epoch: self.epoch,
            ts: self.ts,
            anchor: self.holder.anchor.copy()?,
            finding,
        }))
    }

    /// This reply to the request that `next` gave was heard.
    pub fn heard(&mut self, reply: &Reply) -> Result<(), NoMemory>
        ensures made { OnOk result (self.new ≡ recovering_after reply.now self.old) }
        ensures err { OnErr result (self.new ≡ self.old) }
        ensures knows { (actor : ActorId) (start k later : Known) (request : Request) → RecoverKnows actor start k self.old → recovering_next self.old ≡ nexts.Send request → WasAnswered k later request reply.now → IsPossibleReply request reply.now → OnOk result (RecoverKnows actor start later self.new) }
    {
        self.hear(reply)
    }

    fn hear(&mut self, reply: &Reply) -> Result<(), NoMemory>
        ensures ok { OnOk result (self.new ≡ recovering_after reply.now self.old) }
        ensures err { OnErr result (self.new ≡ self.old) }
    {
        match &self.progress {
            Progress::Found(found) if *found < self.writes.len() => {
                let found = *found;
                self.progress = match reply {
                    Reply::Found => Progress::Found(found + 1),
                    Reply::Missing => Progress::Missing(self.writes.as_slice()[found].0.copy()?),
                    _ => Progress::Found(found),
                };
                Ok(())
            }
            Progress::Found(_) | Progress::Missing(_) => self.recovery_heard(reply),
            Progress::Over(_) => Ok(()),
        }
    }

    fn recovery_heard(&mut self, reply: &Reply) -> Result<(), NoMemory>
        ensures ok { OnOk result (self.new ≡ recovering_at (progress_after_deciding reply.now self.old.progress) self.old) }
        ensures err { OnErr result (self.new ≡ self.old) }
    {
        if let Reply::Status(view) = reply {
            self.progress = Progress::Over(view.copy()?);
        }
        Ok(())
    }
}

/// A final view is settled, another is changed.
fn over_due(view: &View) -> Result<MachineNext, NoMemory>
    ensures { IfOk result (λ next. next ≡ over_due view.now) }
{
    let view = view.copy()?;
    if view.fate().is_some() {
        Ok(MachineNext::Settled(view))
    } else {
        Ok(MachineNext::Changed(view))
    }
}
