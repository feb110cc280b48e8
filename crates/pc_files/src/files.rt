ghost use Rattle.std.specs.Prelude.{◌≡◌, ◌↔◌, ℕ, IsTrue, List, OnOk};
ghost use Rattle.std.specs.List.{list_any};
ghost use Rattle.std.specs.Option.{option_copied};
ghost use Rattle.pc_files.specs.Filing.{AreFiledReplies, AreFiledSends, AreFiledViews, KeepsFiles, deciding_of, replies_of, views_of};
ghost use Rattle.pc_files.specs.FirstPuts.{first_put_of};
ghost use Rattle.pc_files.specs.RefreshedSpans.{is_refreshed};
ghost use Rattle.pc_files.specs.SettledKeys.{settles_key};
ghost use Rattle.pc_world.specs.Known.{Known, known_after, nothing_known};
ghost use Rattle.pc_known.specs.Parts.{part_span};
ghost use Rattle.pc_world.specs.Known.Traffic.{Heard, Sent, heard_after, sent_after};
ghost use Rattle.pc_world.specs.StageFate.{IsUncommitted};

use crate::filed::Filed;
use crate::firsts::Firsts;
use crate::named::{decided_by, txn_named, txn_viewed};
use crate::refreshed::RefreshedSpans;
use crate::settled_keys::SettledKeys;
use crate::uncommitted::Uncommitted;
use pc_base::{Key, NoMemory, Timestamp, TxnId};
use pc_known::fate::is_uncommitted;
use pc_known::{Hearing, Message, Part};
use pc_proto::{Event, Request};
use std::alloc::Global;

/// What an actor sent and heard, by transaction.
#[derive(Drop)]
pub struct Files<'a> {
    /// The stages and commits that were sent.
    deciding: Filed<Message<'a>>,
    /// The number of the first put of each write.
    firsts: Firsts,
    /// The replies that were heard, by the transaction that the request names.
    replies: Filed<Hearing<'a>>,
    /// Those of them that have a view.
    views: Filed<Hearing<'a>>,
    /// The keys that were settled, by transaction.
    settled: SettledKeys<'a>,
    /// How far each span was refreshed, by transaction.
    refreshed: RefreshedSpans<'a>,
    /// The transactions whose stages are known to be dead.
    uncommitted: Uncommitted,
}

impl<'a> Files<'a> {
    /// An actor that has no entry yet.
    pub fn new(alloc: Global) -> Files<'a>
        ensures { KeepsFiles nothing_known result }
    {
        Files {
            deciding: Filed::new(alloc),
            firsts: Firsts::new(alloc),
            replies: Filed::new(alloc),
            views: Filed::new(alloc),
            settled: SettledKeys::new(alloc),
            refreshed: RefreshedSpans::new(alloc),
            uncommitted: Uncommitted::new(alloc),
        }
    }

    /// The stages and commits of the transaction that were sent.
    pub fn deciding(&self, id: TxnId) -> &[Message<'a>]
        ensures { (k : Known) → KeepsFiles k self.now → result.now ≡ deciding_of id k.sent }
    {
        self.deciding.of(id)
    }

    /// The number of the first put of this write that was sent.
    pub fn first_put(&self, id: TxnId, epoch: u32, seq: u32) -> Option<u64>
        ensures { (k : Known) → KeepsFiles k self.now → result ≡ first_put_of id epoch seq k.sent }
    {
        self.firsts.of(id, epoch, seq)
    }

    /// The replies that were heard to requests that name the transaction.
    pub fn replies(&self, id: TxnId) -> &[Hearing<'a>]
        ensures { (k : Known) → KeepsFiles k self.now → result.now ≡ replies_of id k.heard }
    {
        self.replies.of(id)
    }

    /// Those of them that have a view.
    pub fn views(&self, id: TxnId) -> &[Hearing<'a>]
        ensures { (k : Known) → KeepsFiles k self.now → result.now ≡ views_of id k.heard }
    {
        self.views.of(id)
    }

    /// Whether the intent at the key was settled for the transaction.
    pub fn is_settled(&self, id: TxnId, key: &'a Key) -> bool
        ensures { (k : Known) → KeepsFiles k self.now → result ≡ list_any (settles_key id key.now) k.heard }
    {
        self.settled.has(id, key)
    }

    /// Whether every stage of the transaction is dead, and every commit refused.
    pub fn is_uncommitted(&self, id: TxnId) -> bool
        ensures { (k : Known) → KeepsFiles k self.now → IsTrue result ↔ IsUncommitted id k.sent k.heard }
    {
        self.uncommitted.has(id) || is_uncommitted(id, self.deciding(id), self.replies(id))
    }

    /// Whether a read of the span that was made at `ts` is good up to `to`, by refreshes of that very span.
    pub fn is_refreshed(&self, id: TxnId, span: Part<'a>, ts: Timestamp, to: Timestamp) -> bool
        ensures { (k : Known) → KeepsFiles k self.now → result ≡ is_refreshed id (part_span span.entry) ts to k.heard }
    {
        self.refreshed.lead(id, span, ts, to)
    }

    /// Takes one more entry, and the reply that it brings. After a refusal nothing is known.
    pub fn learn(&mut self, event: &'a Event, heard: Option<&Hearing<'a>>) -> Result<(), NoMemory>
        ensures { (k : Known) (top high : ℕ) → KeepsFiles k self.old → OnOk result (KeepsFiles (known_after event.now (option_copied heard.entry) top high k) self.new) }
    {
        self.uncommitted
            .learn(&self.deciding, &self.replies, &self.firsts, event)?;
        file_sent(&mut self.deciding, event)?;
        self.firsts.learn(event)?;
        self.settled.learn(heard)?;
        self.refreshed.learn(heard)?;
        file_view(&mut self.views, heard)?;
        file_heard(&mut self.replies, heard)
    }
}

/// Files the message that the event sends, if it is a stage or commit.
fn file_sent<'a>(deciding: &mut Filed<Message<'a>>, event: &'a Event) -> Result<(), NoMemory>
    ensures { (sent : List Sent) → AreFiledSends sent deciding.old → OnOk result (AreFiledSends (sent_after event.now sent) deciding.new) }
{
    match event {
        Event::Send {
            number,
            range,
            request,
        } => deciding.next(decided_by(request), sent_as(*number, *range, request)),
        _ => Ok(()),
    }
}

fn sent_as(number: u64, range: u32, request: &Request) -> Message<'_>
    ensures { result ≡ record { number = number; range = range; request = request.now } }
{
    Message {
        number,
        range,
        request,
    }
}

/// Files the reply that was heard, if one was.
fn file_heard<'a>(
    replies: &mut Filed<Hearing<'a>>,
    heard: Option<&Hearing<'a>>,
) -> Result<(), NoMemory>
    ensures { (all : List Heard) → AreFiledReplies all replies.old → OnOk result (AreFiledReplies (heard_after (option_copied heard.entry) all) replies.new) }
{
    match heard {
        None => Ok(()),
        Some(hearing) => replies.next(txn_named(hearing.request), copy_of(hearing)),
    }
}

/// Files the reply that was heard, if one was and it has a view.
fn file_view<'a>(
    views: &mut Filed<Hearing<'a>>,
    heard: Option<&Hearing<'a>>,
) -> Result<(), NoMemory>
    ensures { (all : List Heard) → AreFiledViews all views.old → OnOk result (AreFiledViews (heard_after (option_copied heard.entry) all) views.new) }
{
    match heard {
        None => Ok(()),
        Some(hearing) => views.next(txn_viewed(hearing), copy_of(hearing)),
    }
}

fn copy_of<'a>(hearing: &Hearing<'a>) -> Hearing<'a>
    ensures { result ≡ hearing.now }
{
    Hearing {
        number: hearing.number,
        request: hearing.request,
        reply: hearing.reply,
        step: hearing.step,
    }
}
