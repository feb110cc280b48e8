ghost use Rattle.std.specs.Prelude.{◌≡◌, ◌↔◌, ◌+◌, ◌*◌, ◌^◌, ◌≤◌, All, IsTrue};
ghost use Rattle.std.specs.Option.{option_copied};
ghost use Rattle.pc_base.specs.Clock.{clock_now};
ghost use Rattle.pc_world.specs.Known.Clock.{named_stamps};
ghost use Rattle.pc_proto.specs.Stamps.{answer_stamps, event_stamps, fate_stamps, goal_stamps, greatest_of, request_stamps, row_stamps, why_stamps};

use pc_base::{Entry, Timestamp};
use pc_proto::{Answer, Event, Fate, Goal, Request, Rows, Why};

/// The timestamp as a number.
pub fn number(ts: Timestamp) -> u128
    ensures { result ≡ ts }
{
    ts.wall as u128 * (1 << 32) + ts.logical as u128
}

/// The timestamp in the cause of an abort, zero where there is none.
pub(crate) fn why_stamp(why: &Why) -> Timestamp
    ensures { result ≡ greatest_of (why_stamps why.now) }
{
    match why {
        Why::Refresh { ts, .. } => *ts,
        Why::Pushed { .. } | Why::Missing { .. } | Why::Client => Timestamp::ZERO,
    }
}

/// The timestamp in what a push is for, zero where there is none.
pub(crate) fn goal_stamp(goal: Goal) -> Timestamp
    ensures { result ≡ greatest_of (goal_stamps goal) }
{
    match goal {
        Goal::Abort => Timestamp::ZERO,
        Goal::Move(ts) => ts,
    }
}

/// The timestamp in a fate, zero where there is none.
pub(crate) fn fate_stamp(fate: Fate) -> Timestamp
    ensures { result ≡ greatest_of (fate_stamps fate) }
{
    match fate {
        Fate::Committed { ts, .. } | Fate::Pending { ts } => ts,
        Fate::Aborted => Timestamp::ZERO,
    }
}

/// The greatest timestamp in a request, zero where there is none.
pub(crate) fn request_stamp(request: &Request) -> Timestamp
    ensures { result ≡ greatest_of (request_stamps request.now) }
{
    match request {
        Request::Get { ts, .. }
        | Request::Scan { ts, .. }
        | Request::Put { ts, .. }
        | Request::Beat { ts, .. }
        | Request::Stage { ts, .. }
        | Request::Commit { ts, .. }
        | Request::Query { ts, .. }
        | Request::Recover { ts, .. } => *ts,
        Request::Refresh { from, to, .. } => (*from).max(*to),
        Request::Abort { why, .. } => why_stamp(why),
        Request::Push { goal, .. } => goal_stamp(*goal),
        Request::Resolve { fate, .. } => fate_stamp(*fate),
        Request::Remove { .. } | Request::Records => Timestamp::ZERO,
    }
}

/// The greatest timestamp in these rows, zero where there is none.
pub(crate) fn row_stamp(rows: &Rows) -> Timestamp
    ensures { result ≡ greatest_of (row_stamps rows.now) }
{
    let mut last = Timestamp::ZERO;
    for row in rows.as_slice() {
        last = last.max(row.1.stamp());
    }
    last
}

/// The greatest timestamp in an answer, zero where there is none.
pub(crate) fn answer_stamp(answer: &Answer) -> Timestamp
    ensures { result ≡ greatest_of (answer_stamps answer.now) }
{
    match answer {
        Answer::Begun { ts, .. }
        | Answer::Committed { ts, .. }
        | Answer::Restart { ts, .. }
        | Answer::Moved { ts } => *ts,
        Answer::Rows(rows) => row_stamp(rows),
        Answer::RolledBack { why, .. } | Answer::Aborted { why } => why_stamp(why),
        Answer::Value(_)
        | Answer::Written
        | Answer::Learnt
        | Answer::NotYet
        | Answer::Done
        | Answer::Blocked { .. }
        | Answer::Unavailable { .. }
        | Answer::Unknown { .. }
        | Answer::Clock { .. }
        | Answer::NoTxn => Timestamp::ZERO,
    }
}

/// The greatest timestamp in an event, zero where there is none.
pub(crate) fn event_stamp(event: &Event) -> Timestamp
    ensures { result ≡ greatest_of (event_stamps event.now) }
{
    match event {
        Event::Send { request, .. } => request_stamp(request),
        Event::Eval { reply, .. } => reply.last_stamp(),
        Event::Tell(answer) => answer_stamp(answer),
        Event::Ask { .. } | Event::Hear { .. } | Event::Meet { .. } => Timestamp::ZERO,
    }
}

/// The greatest timestamp in the entry that is named, zero where there is none.
pub(crate) fn named_stamp(named: Option<&Entry<Event>>) -> Timestamp
    ensures { result ≡ greatest_of (named_stamps (option_copied named.entry)) }
{
    match named {
        None => Timestamp::ZERO,
        Some(entry) => event_stamp(&entry.event),
    }
}

/// Whether no timestamp in the request is past the one after this.
pub(crate) fn are_within_next(request: &Request, top: Timestamp) -> bool
    ensures { IsTrue result ↔ All (λ ts. ts ≤ top + 1) (request_stamps request.now) }
{
    number(request_stamp(request)) <= number(top) + 1
}

/// Whether this is what the clock gives at this reading.
pub(crate) fn is_clock_now(ts: Timestamp, reading: u64, high: Timestamp) -> bool
    ensures { IsTrue result ↔ (ts ≡ clock_now reading high) }
{
    if high.wall < reading {
        ts == Timestamp::new(reading, 0)
    } else {
        number(ts) == number(high) + 1
    }
}
