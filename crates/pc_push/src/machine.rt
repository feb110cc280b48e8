ghost use Rattle.std.specs.Prelude.{◌≡◌, ◌<◌, ℕ, true, IfOk, IfSome, OnErr, OnOk, List};
ghost use Rattle.pc_base.specs.declared.actor.ActorId.{ActorId};
ghost use Rattle.pc_base.specs.Timestamp.{greatest};
ghost use Rattle.pc_proto.specs.declared.request.Request.{Request};
ghost use Rattle.pc_proto.specs.Replies.{is_conflict};
ghost use Rattle.pc_push.specs.Pushing.{IsStart, after_recovery, after_push, goal_of, push_of, resolve_or, round_after, round_next};
ghost use Rattle.pc_push.specs.PushKnows.{Asks, MayPush, PushKnows, RoundMayCome};
ghost use Rattle.pc_proto.specs.declared.machine.MachineNext.TheVariants as nexts;
ghost use Rattle.pc_world.specs.Exchange.{IsPossibleReply, WasAnswered};
ghost use Rattle.pc_world.specs.Known.{Known};

use crate::progress::Progress;
use pc_base::{Key, NoMemory, Priority, Timestamp, TryCopy, Who};
use pc_proto::{Fate, Goal, MachineNext, Reply, Request, TxnMeta};
use std::marker::Model;

/// Pushes the holder of an intent that stood in the way, and settles the intent as the push came out.
///
/// A reader moves the holder past its read, a writer aborts it. Where the push met a staging record, `next` gives it as settled;
/// the caller runs a recovery then, and tells the machine the reply to its `Recover`. What it was answered stays true: the laws
/// `views_stay_true` and `final_views_stay` of `pc_implicit`.
#[derive(Drop)]
pub struct PushMachine {
    holder: TxnMeta,
    key: Key,
    by: Who,
    level: Priority,
    /// The call's reading of the clock, in nanoseconds.
    reading: u64,
    goal: Goal,
    progress: Progress,
}

impl Model for PushMachine {
    ghost use Rattle.pc_push.specs.Pushing.{Pushing};

    ghost Value = { Pushing };

    ghost view = { λ s. record { holder = s.holder; key = s.key; by = s.by; level = s.level; reading = s.reading; goal = s.goal; progress = s.progress } };
}

impl PushMachine {
    /// The round of this conflict. A reader's is told at which timestamp it reads.
    pub fn new(
        conflict: Reply,
        by: Who,
        level: Priority,
        now: u64,
        reader: Option<Timestamp>,
    ) -> PushMachine
        requires conflict { is_conflict conflict ≡ true }
        requires reader { IfSome reader (λ ts. ts < greatest) }
        ensures made { IsStart conflict by level now reader result }
        ensures knows { (actor : ActorId) (k : Known) → MayPush actor k result → PushKnows actor k k result }
    {
        let goal = goal_for(reader);
        match conflict {
            Reply::Conflict { holder, key, .. } => PushMachine {
                holder,
                key,
                by,
                level,
                reading: now,
                goal,
                progress: Progress::Push,
            },
            _ => unreachable!(),
        }
    }

    /// Whose intent stands in the way.
    pub fn holder(&self) -> &TxnMeta
        ensures { result.now ≡ self.now.holder }
    {
        &self.holder
    }

    /// What is due.
    pub fn next(&self) -> Result<MachineNext, NoMemory>
        ensures due { IfOk result (λ next. next ≡ round_next self.now) }
        ensures may { (splits : List (List ℕ)) (actor : ActorId) (start k : Known) → PushKnows actor start k self.now → IfOk result (RoundMayCome splits actor start k self.now) }
    {
        self.next_due()
    }

    fn next_due(&self) -> Result<MachineNext, NoMemory>
        ensures { IfOk result (λ next. next ≡ round_next self.now) }
    {
        match &self.progress {
            Progress::Push => self.push(),
            Progress::Refused => Ok(MachineNext::Refused(self.holder.id)),
            Progress::Unsure(view) => Ok(MachineNext::Settled(view.copy()?)),
            Progress::Resolve(fate) => Ok(MachineNext::Send(Request::Resolve {
                id: self.holder.id,
                key: self.key.copy()?,
                fate: *fate,
            })),
            Progress::Over => Ok(MachineNext::Finished),
        }
    }

    fn push(&self) -> Result<MachineNext, NoMemory>
        ensures { IfOk result (λ next. next ≡ nexts.Send (push_of self.now)) }
    {
        Ok(MachineNext::Send(Request::Push {
            holder: self.holder.copy()?,
            by: self.by,
            level: self.level,
            now: self.reading,
            goal: self.goal,
        }))
    }

    /// This reply was heard: to the request that `next` gave, or, once it gave a staging record, to a recovery of that.
    pub fn heard(&mut self, reply: &Reply) -> Result<(), NoMemory>
        ensures made { OnOk result (self.new ≡ round_after reply.now self.old) }
        ensures err { OnErr result (self.new ≡ self.old) }
        ensures knows { (actor : ActorId) (start k later : Known) (request : Request) → PushKnows actor start k self.old → Asks self.old request → WasAnswered k later request reply.now → IsPossibleReply request reply.now → OnOk result (PushKnows actor start later self.new) }
    {
        self.hear(reply)
    }

    fn hear(&mut self, reply: &Reply) -> Result<(), NoMemory>
        ensures ok { OnOk result (self.new ≡ round_after reply.now self.old) }
        ensures err { OnErr result (self.new ≡ self.old) }
    {
        match &self.progress {
            Progress::Push => self.push_heard(reply),
            Progress::Unsure(_) => {
                self.recovery_heard(reply);
                Ok(())
            }
            Progress::Resolve(_) => {
                self.progress = Progress::Over;
                Ok(())
            }
            Progress::Refused | Progress::Over => Ok(()),
        }
    }

    fn push_heard(&mut self, reply: &Reply) -> Result<(), NoMemory>
        ensures ok { OnOk result (self.new ≡ after_push reply.now self.old) }
        ensures err { OnErr result (self.new ≡ self.old) }
    {
        self.progress = match reply {
            Reply::Status(view) => resolve_or(view.fate_after(self.goal), Progress::Push),
            Reply::Refused(_) => Progress::Refused,
            Reply::Unsure(view) => Progress::Unsure(view.copy()?),
            _ => Progress::Push,
        };
        Ok(())
    }

    fn recovery_heard(&mut self, reply: &Reply)
        ensures { self.new ≡ after_recovery reply.now self.old }
    {
        self.progress = match reply {
            Reply::Status(view) => resolve_or(view.fate(), Progress::Over),
            _ => Progress::Over,
        };
    }
}

/// A reader moves the holder past its read, a writer aborts it.
fn goal_for(reader: Option<Timestamp>) -> Goal
    requires { IfSome reader (λ ts. ts < greatest) }
    ensures { result ≡ goal_of reader }
{
    match reader {
        Some(ts) => Goal::Move(ts.next()),
        None => Goal::Abort,
    }
}

/// The intent is settled with this fate, if there is one.
fn resolve_or(fate: Option<Fate>, otherwise: Progress) -> Progress
    ensures { result ≡ resolve_or fate otherwise }
{
    match fate {
        Some(fate) => Progress::Resolve(fate),
        None => otherwise,
    }
}
