ghost use Rattle.std.specs.Prelude.{◌≡◌, ◌∷◌, ◌++◌, [], IsTrue, List, OnOk};
ghost use Rattle.pc_files.specs.Filing.{AreFiledReplies, AreFiledSends, deciding_of, replies_of};
ghost use Rattle.pc_files.specs.Uncommitted.{AreUncommitted};
ghost use Rattle.pc_world.specs.Known.Traffic.{Heard, Sent, sent_after};
ghost use Rattle.pc_world.specs.StageFate.{IsUncommitted};

use crate::filed::Filed;
use crate::firsts::Firsts;
use crate::named::decided_by;
use pc_base::{NoMemory, TxnId};
use pc_known::fate::is_uncommitted;
use pc_known::{Hearing, Message};
use pc_proto::{Event, Request};
use std::alloc::Global;
use std::collections::BTreeSet;

/// Transactions that have put a write since every stage of theirs was dead and every commit refused, and have sent none since.
#[derive(Drop)]
pub(crate) struct Uncommitted {
    ids: BTreeSet<TxnId>,
}

impl Uncommitted {
    /// None is known.
    pub(crate) fn new(alloc: Global) -> Uncommitted
        ensures { AreUncommitted [] [] result }
    {
        Uncommitted {
            ids: BTreeSet::new(alloc),
        }
    }

    /// Whether the transaction is one of them.
    pub(crate) fn has(&self, id: TxnId) -> bool
        ensures { (sent : List Sent) (heard : List Heard) → AreUncommitted sent heard self.now → IsTrue result → IsUncommitted id sent heard }
    {
        self.ids.contains(&id)
    }

    /// Takes one more entry, after what was filed before it. After a refusal nothing is known.
    pub(crate) fn learn(
        &mut self,
        deciding: &Filed<Message<'_>>,
        replies: &Filed<Hearing<'_>>,
        firsts: &Firsts,
        event: &Event,
    ) -> Result<(), NoMemory>
        ensures { (sent : List Sent) (heard : List Heard) → AreFiledSends sent deciding.now → AreFiledReplies heard replies.now → AreUncommitted sent heard self.old → OnOk result (AreUncommitted (sent_after event.now sent) heard self.new) }
    {
        match event {
            Event::Send { request, .. } => self.send(deciding, replies, firsts, request),
            _ => Ok(()),
        }
    }

    fn send(
        &mut self,
        deciding: &Filed<Message<'_>>,
        replies: &Filed<Hearing<'_>>,
        firsts: &Firsts,
        request: &Request,
    ) -> Result<(), NoMemory>
        ensures { (sent : List Sent) (heard : List Heard) (m : Sent) → AreFiledSends sent deciding.now → AreFiledReplies heard replies.now → AreUncommitted sent heard self.old → m.request ≡ request.now → OnOk result (AreUncommitted (sent ++ m ∷ []) heard self.new) }
    {
        self.note(deciding, replies, firsts, request)?;
        self.decide(request);
        Ok(())
    }

    /// Notes the transaction that puts a write for the first time, where it is uncommitted.
    fn note(
        &mut self,
        deciding: &Filed<Message<'_>>,
        replies: &Filed<Hearing<'_>>,
        firsts: &Firsts,
        request: &Request,
    ) -> Result<(), NoMemory>
        ensures { (sent : List Sent) (heard : List Heard) → AreFiledSends sent deciding.now → AreFiledReplies heard replies.now → AreUncommitted sent heard self.old → OnOk result (AreUncommitted sent heard self.new) }
    {
        match request {
            Request::Put { meta, seq, .. } => {
                if firsts.of(meta.id, meta.epoch, *seq).is_none() {
                    self.put(meta.id, deciding.of(meta.id), replies.of(meta.id))?;
                }
                Ok(())
            }
            _ => Ok(()),
        }
    }

    /// The transaction puts a write for the first time, after these stages, commits and replies.
    fn put(
        &mut self,
        id: TxnId,
        sent: &[Message<'_>],
        heard: &[Hearing<'_>],
    ) -> Result<(), NoMemory>
        ensures { (all : List Sent) (replies : List Heard) → sent.now ≡ deciding_of id all → heard.now ≡ replies_of id replies → AreUncommitted all replies self.old → OnOk result (AreUncommitted all replies self.new) }
    {
        if !self.ids.contains(&id) && is_uncommitted(id, sent, heard) {
            self.ids.insert(id)?;
        }
        Ok(())
    }

    /// The transaction that a stage or commit decides is not kept any more, if the request is one.
    fn decide(&mut self, request: &Request)
        ensures { (sent : List Sent) (heard : List Heard) (m : Sent) → AreUncommitted sent heard self.old → m.request ≡ request.now → AreUncommitted (sent ++ m ∷ []) heard self.new }
    {
        match decided_by(request) {
            Some(id) => {
                self.ids.remove(&id);
            }
            None => {}
        }
    }
}
