//! Replays a history once: what its ranges become, and when each transaction is committed.

ghost use Rattle.std.specs.Prelude.{◌≡◌, ◌+◌, ◌^◌, ◌<◌, ◌++◌, ◌∷◌, [], false, is_some, IfOk, OnOk, length, slice_get};
ghost use Rattle.std.specs.List.{list_all, list_any};
ghost use Rattle.std.specs.Option.{option_copied};
ghost use Rattle.pc_proto.specs.Requests.{is_stage, subject};
ghost use Rattle.pc_proto.specs.Table.{place_of};
ghost use Rattle.pc_report.specs.Ordering.{rank_in};
ghost use Rattle.pc_report.specs.ReportOf.{IsRunOver, ending_at, ending_by, rolled_back_in, told_ending};
ghost use Rattle.pc_report.specs.Replaying.{AreBlank, HasRoomAt, HasRoomFor, IsReplayOf, Notes, PointsFollow, after_eval, commit_kept, states_after, asked_in, commit_of_place, ending_in, is_present_in, touched, touched_by_send, touched_in};
ghost use Rattle.pc_report.specs.Seen.{SendsNoStage, kept_of, sends_a_stage};
ghost use Rattle.pc_sent.specs.Sending.{AreSendsOf};
ghost use Rattle.pc_world.specs.Committed.{commit_by, committed_in, key_sent};
ghost use Rattle.pc_world.specs.Named.{request_in};
ghost use Rattle.pc_world.specs.RangeOf.{range_of};

use crate::rows::Ending;
use crate::tables::{keep_first, keep_first_copy};
use pc_base::{ActorId, Entry, Key, NoMemory, Timestamp, TryCopy, TxnId};
use pc_eval::RangeState;
use pc_proto::{Answer, Event, Keys, Record, Request, Standing, Status, Why};
use pc_sent::Sent;
use pc_world::range_of;
use std::alloc::Global;
use std::collections::BTreeMap;

/// Where a committed transaction stands: its timestamp, and after how many entries it was committed.
#[derive(Clone, Copy, Debug, PartialEq, Eq, PartialOrd, Ord)]
pub(crate) struct Rank {
    pub ts: Timestamp,
    pub point: u64,
}

/// What the entries so far come to.
#[derive(Drop)]
pub(crate) struct Replay {
    /// Whether all of each range is kept, or its records and marks alone.
    whole: bool,
    /// The ranges, in key order.
    states: Vec<RangeState>,
    /// The key of each transaction's first put.
    anchors: BTreeMap<TxnId, Key>,
    /// The timestamp at which a transaction was first told committed.
    told: BTreeMap<TxnId, Timestamp>,
    /// The cause for which a transaction was first told rolled back.
    rolled_back: BTreeMap<TxnId, Why>,
    /// After how many entries a transaction was committed.
    points: BTreeMap<TxnId, u64>,
}

impl Replay {
    /// What no entry comes to.
    pub(crate) fn new(alloc: Global, splits: &Keys, whole: bool) -> Result<Replay, NoMemory>
        requires { length splits.now + 1 < 2 ^ 32 }
        ensures replay { IfOk result (IsReplayOf splits.now []) }
        ensures whole { IfOk result (λ r. r.whole ≡ whole) }
    {
        Ok(Replay {
            whole,
            states: blank_ranges(alloc, splits.len())?,
            anchors: BTreeMap::new(alloc),
            told: BTreeMap::new(alloc),
            rolled_back: BTreeMap::new(alloc),
            points: BTreeMap::new(alloc),
        })
    }

    /// Takes one more entry.
    pub(crate) fn follow(
        &mut self,
        splits: &Keys,
        sent: &Sent,
        before: &[Entry<Event>],
        entry: &Entry<Event>,
    ) -> Result<(), NoMemory>
        requires few { length splits.now + 1 < 2 ^ 32 }
        requires sent { AreSendsOf before.now sent.now }
        requires so_far { IsReplayOf splits.now before.now self.old }
        requires unstaged { self.old.whole ≡ false → SendsNoStage before.now }
        requires run { IsRunOver splits.now (before.now ++ entry.now ∷ []) }
        ensures replay { OnOk result (IsReplayOf splits.now (before.now ++ entry.now ∷ []) self.new) }
        ensures whole { OnOk result (self.new.whole ≡ self.old.whole) }
    {
        let length = before.len() as u64 + 1;
        note_anchor(&mut self.anchors, &entry.event)?;
        note_told(&mut self.told, &entry.event)?;
        note_rolled_back(&mut self.rolled_back, &entry.event)?;
        let asked = asked(sent, before, &entry.event);
        let kept = kept_of(self.whole, asked);
        evaluate(&mut self.states, entry.actor, kept)?;
        self.note_point(splits, touched_in(kept, &entry.event), length)?;
        Ok(())
    }

    /// Keeps that this transaction was committed at this point, if it is committed and was not before.
    fn note_point(
        &mut self,
        splits: &Keys,
        touched: Option<TxnId>,
        point: u64,
    ) -> Result<(), NoMemory>
        requires { length splits.now + 1 < 2 ^ 32 }
        ensures points { OnOk result (PointsFollow splits.now touched point self.old self.new) }
        ensures same { OnOk result (self.new ≡ record self.old { points = self.new.points }) }
    {
        let Some(id) = touched else {
            return Ok(());
        };
        if self.points.contains_key(&id) {
            return Ok(());
        }
        if self.commit(splits, id).is_none() {
            return Ok(());
        }
        keep_first(&mut self.points, id, point)?;
        Ok(())
    }

    /// The timestamp at which the transaction is committed, if it is.
    pub fn commit(&self, splits: &Keys, id: TxnId) -> Option<Timestamp>
        requires { length splits.now + 1 < 2 ^ 32 }
        ensures { result ≡ commit_kept splits.now self.now id }
    {
        match self.anchors.get(&id) {
            None => self.told.get(&id).copied(),
            Some(anchor) => {
                let state = state_at(splits, &self.states, anchor)?;
                commit_on(splits, &self.states, state, id)
            }
        }
    }

    /// Where the transaction stands in the commit order, if it is committed.
    pub fn rank(&self, splits: &Keys, id: TxnId) -> Option<Rank>
        requires { length splits.now + 1 < 2 ^ 32 }
        ensures { result ≡ rank_in splits.now self.now id }
    {
        let ts = self.commit(splits, id)?;
        let point = *self.points.get(&id)?;
        Some(Rank { ts, point })
    }

    /// What became of the transaction, which is not committed.
    pub fn ending(&self, splits: &Keys, id: TxnId) -> Result<Ending, NoMemory>
        requires { length splits.now + 1 < 2 ^ 32 }
        ensures { IfOk result (λ ending. ending ≡ ending_in splits.now self.now id) }
    {
        let told = self.rolled_back.get(&id);
        match self.anchors.get(&id) {
            None => told_ending(told, Ending::NoRecord),
            Some(anchor) => match state_at(splits, &self.states, anchor) {
                None => told_ending(told, Ending::NoRecord),
                Some(state) => ending_on(state, id, told),
            },
        }
    }
}

/// Whether an entry sends a stage.
pub(crate) fn any_sends_a_stage(entries: &[Entry<Event>]) -> bool
    ensures { result ≡ list_any (λ e. sends_a_stage e.event) entries.now }
{
    entries.iter().any(|entry| sends_a_stage(&entry.event))
}

fn sends_a_stage(event: &Event) -> bool
    ensures { result ≡ sends_a_stage event.now }
{
    match event {
        Event::Send { request, .. } => is_stage(request),
        _ => false,
    }
}

fn is_stage(request: &Request) -> bool
    ensures { result ≡ is_stage request.now }
{
    matches!(request, Request::Stage { .. })
}

/// The request, unless it changes nothing that is kept.
fn kept_of(whole: bool, asked: Option<&Request>) -> Option<&Request>
    ensures { option_copied result ≡ kept_of whole (option_copied asked.entry) }
{
    let request = asked?;
    if whole || is_of_record(request) {
        Some(request)
    } else {
        None
    }
}

/// Whether the request speaks of a transaction's record.
fn is_of_record(request: &Request) -> bool
    ensures { result ≡ is_some (subject request.now) }
{
    match request {
        Request::Beat { .. }
        | Request::Stage { .. }
        | Request::Commit { .. }
        | Request::Abort { .. }
        | Request::Push { .. }
        | Request::Recover { .. }
        | Request::Remove { .. } => true,
        Request::Get { .. }
        | Request::Scan { .. }
        | Request::Put { .. }
        | Request::Refresh { .. }
        | Request::Query { .. }
        | Request::Resolve { .. }
        | Request::Records => false,
    }
}

/// Ranges on which nothing has happened, one more than there are splits.
fn blank_ranges(alloc: Global, splits: usize) -> Result<Vec<RangeState>, NoMemory>
    requires { splits + 1 < 2 ^ 32 }
    ensures { IfOk result (λ states. AreBlank splits states.items) }
{
    let mut states = Vec::new(alloc);
    for _range in 0..splits + 1 {
        states.push(RangeState::new(alloc))?;
    }
    Ok(states)
}

/// The state of the range that has the key.
fn state_at<'a>(splits: &Keys, states: &'a [RangeState], key: &Key) -> Option<&'a RangeState>
    requires { length splits.now + 1 < 2 ^ 32 }
    ensures { option_copied result ≡ slice_get states.now (range_of splits.now key.now) }
{
    states.get(range_of(splits, key) as usize)
}

fn note_anchor(table: &mut BTreeMap<TxnId, Key>, event: &Event) -> Result<(), NoMemory>
    ensures { OnOk result (Notes key_sent table.old event.now table.new) }
{
    if let Event::Send {
        request: Request::Put { meta, key, .. },
        ..
    } = event
    {
        keep_first_copy(table, meta.id, key)?;
    }
    Ok(())
}

fn note_told(table: &mut BTreeMap<TxnId, Timestamp>, event: &Event) -> Result<(), NoMemory>
    ensures { OnOk result (Notes committed_in table.old event.now table.new) }
{
    if let Event::Tell(Answer::Committed { id, ts }) = event {
        keep_first(table, *id, *ts)?;
    }
    Ok(())
}

fn note_rolled_back(table: &mut BTreeMap<TxnId, Why>, event: &Event) -> Result<(), NoMemory>
    ensures { OnOk result (Notes rolled_back_in table.old event.now table.new) }
{
    if let Event::Tell(Answer::RolledBack { id, why }) = event {
        keep_first_copy(table, *id, why)?;
    }
    Ok(())
}

/// The request that an evaluation answers.
fn asked<'a>(sent: &Sent, before: &'a [Entry<Event>], event: &Event) -> Option<&'a Request>
    requires { AreSendsOf before.now sent.now }
    ensures { option_copied result ≡ asked_in before.now event.now }
{
    let Event::Eval { actor, number, .. } = event else {
        return None;
    };
    let entry = sent.entry(before, *actor, *number)?;
    request_of(&entry.event)
}

fn request_of(event: &Event) -> Option<&Request>
    ensures { option_copied result ≡ request_in event.now }
{
    match event {
        Event::Send { request, .. } => Some(request),
        _ => None,
    }
}

/// Lets a range evaluate the request that its entry answers.
fn evaluate(
    states: &mut Vec<RangeState>,
    actor: ActorId,
    asked: Option<&Request>,
) -> Result<(), NoMemory>
    requires { HasRoomFor states.old.items actor (option_copied asked) }
    ensures { OnOk result (states.new.items ≡ states_after states.old.items actor (option_copied asked.entry)) }
{
    match (actor, asked) {
        (ActorId::Range(range), Some(request)) => eval_at(states, range, request),
        _ => Ok(()),
    }
}

fn eval_at(states: &mut Vec<RangeState>, range: u32, request: &Request) -> Result<(), NoMemory>
    requires { HasRoomAt states.old.items range request.now }
    ensures { OnOk result (states.new.items ≡ after_eval states.old.items range request.now) }
{
    if let Some(state) = states.get_mut(range as usize) {
        state.eval(request)?;
    }
    Ok(())
}

/// The transaction that the event may commit.
fn touched_in(asked: Option<&Request>, event: &Event) -> Option<TxnId>
    ensures { result ≡ touched_in (option_copied asked.entry) event.now }
{
    match event {
        Event::Send { request, .. } => touched_by_send(request),
        Event::Tell(Answer::Committed { id, .. }) => Some(*id),
        Event::Tell(_) => None,
        _ => touched(asked?),
    }
}

fn touched_by_send(request: &Request) -> Option<TxnId>
    ensures { result ≡ touched_by_send request.now }
{
    match request {
        Request::Put { meta, .. } => Some(meta.id),
        _ => None,
    }
}

/// The transaction whose record or intents the request may change.
fn touched(request: &Request) -> Option<TxnId>
    ensures { result ≡ touched request.now }
{
    match request {
        Request::Put { meta, .. }
        | Request::Beat { meta, .. }
        | Request::Stage { meta, .. }
        | Request::Commit { meta, .. }
        | Request::Abort { meta, .. } => Some(meta.id),
        Request::Push { holder, .. } => Some(holder.id),
        Request::Recover { id, .. } | Request::Remove { id, .. } | Request::Resolve { id, .. } => {
            Some(*id)
        }
        Request::Get { .. }
        | Request::Scan { .. }
        | Request::Refresh { .. }
        | Request::Query { .. }
        | Request::Records => None,
    }
}

/// The timestamp at which what this range has of the transaction commits it.
fn commit_on(
    splits: &Keys,
    states: &[RangeState],
    state: &RangeState,
    id: TxnId,
) -> Option<Timestamp>
    requires { length splits.now + 1 < 2 ^ 32 }
    ensures { result ≡ commit_of_place splits.now states.now id (place_of id state.now.table) }
{
    match (state.record(id), state.mark(id)) {
        (Some(kept), _) => commit_by(&kept.status, are_present(splits, states, id, kept)),
        (None, Some(mark)) => commit_by(mark, false),
        (None, None) => None,
    }
}

fn commit_by(status: &Status, present: bool) -> Option<Timestamp>
    ensures { result ≡ commit_by status.now.standing status.now.ts present }
{
    match status.standing {
        Standing::Committed => Some(status.ts),
        Standing::Staging if present => Some(status.ts),
        _ => None,
    }
}

/// Whether each write that the record lists is present.
fn are_present(splits: &Keys, states: &[RangeState], id: TxnId, kept: &Record) -> bool
    requires { length splits.now + 1 < 2 ^ 32 }
    ensures { result ≡ list_all (is_present_in splits.now states.now id kept.now.status.epoch kept.now.status.ts) kept.now.writes }
{
    kept.writes.as_slice().iter().all(|write| is_present(splits, states, id, &kept.status, write))
}

fn is_present(
    splits: &Keys,
    states: &[RangeState],
    id: TxnId,
    status: &Status,
    write: &(Key, u32),
) -> bool
    requires { length splits.now + 1 < 2 ^ 32 }
    ensures { result ≡ is_present_in splits.now states.now id status.now.epoch status.now.ts write.now }
{
    let (key, seq) = write;
    state_at(splits, states, key).is_some_and(|state| state.stands(
        id,
        status.epoch,
        *seq,
        status.ts,
        key,
    ))
}

/// What became of a transaction, by what this range has of it and by what its session was told.
fn ending_on(state: &RangeState, id: TxnId, told: Option<&Why>) -> Result<Ending, NoMemory>
    ensures { IfOk result (λ ending. ending ≡ ending_at (place_of id state.now.table) (option_copied told.entry)) }
{
    match (state.record(id), state.mark(id)) {
        (Some(kept), _) => ending_by(&kept.status.standing, told),
        (None, Some(mark)) => ending_by(&mark.standing, told),
        (None, None) => told_ending(told, Ending::NoRecord),
    }
}

fn ending_by(standing: &Standing, told: Option<&Why>) -> Result<Ending, NoMemory>
    ensures { IfOk result (λ ending. ending ≡ ending_by standing.now (option_copied told.entry)) }
{
    match standing {
        Standing::Aborted(why) => Ok(Ending::Aborted(why.copy()?)),
        Standing::Pending => told_ending(told, Ending::Pending),
        Standing::Staging => told_ending(told, Ending::Staging),
        Standing::Committed => told_ending(told, Ending::NoRecord),
    }
}

/// Aborted, where the session was told so.
fn told_ending(told: Option<&Why>, otherwise: Ending) -> Result<Ending, NoMemory>
    ensures { IfOk result (λ ending. ending ≡ told_ending (option_copied told.entry) otherwise) }
{
    match told {
        Some(why) => Ok(Ending::Aborted(why.copy()?)),
        None => Ok(otherwise),
    }
}
