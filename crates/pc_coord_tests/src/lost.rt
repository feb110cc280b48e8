//! A commit whose messages are lost, where a request may be sent twice without an answer.

use pc_base::{Key, Priority, Timestamp, TxnId, Value};
use pc_coord::{Coordinator, Next};
use pc_proto::{Answer, Call, Keys, Reply, Request, View};
use std::alloc::Global;
use std::test::Fail;

const TRIES: u32 = 2;

const READING: u64 = 10;

const ID: TxnId = TxnId {
    session: 1,
    number: 1,
};

/// Whether what is due is to be told, and just this.
fn is_to_tell(session: &Coordinator, answer: &Answer) -> Option<bool> {
    let next = session.next().ok()?;
    Some(matches!(&next, Next::Tell(told) if told == answer))
}

/// The same, and it was told then.
fn tells(session: &mut Coordinator, answer: &Answer) -> Option<bool> {
    let is = is_to_tell(session, answer)?;
    session.told();
    Some(is)
}

/// Whether what is due is a put that is told written as it goes out.
fn is_put(session: &Coordinator) -> Option<bool> {
    let next = session.next().ok()?;
    Some(matches!(&next, Next::Later(Request::Put { .. })))
}

/// Whether what is due is a stage of one write that is in flight.
fn is_stage(session: &Coordinator) -> Option<bool> {
    let next = session.next().ok()?;
    Some(
        matches!(&next, Next::Send(Request::Stage { ts, writes, .. }) if *ts == Timestamp::new(READING, 0) && writes.len() == 1),
    )
}

/// Whether what is due is a commit at this timestamp.
fn is_commit(session: &Coordinator, at: Timestamp) -> Option<bool> {
    let next = session.next().ok()?;
    Some(matches!(&next, Next::Send(Request::Commit { ts, .. }) if *ts == at))
}

/// Whether a stage of one write was due; it was sent under this number then.
fn stages(session: &mut Coordinator, number: u64) -> Option<bool> {
    let is = is_stage(session)?;
    session.sent(number).ok()?;
    Some(is)
}

/// Whether a commit at this timestamp was due; it was sent under this number then.
fn commits(session: &mut Coordinator, number: u64, at: Timestamp) -> Option<bool> {
    let is = is_commit(session, at)?;
    session.sent(number).ok()?;
    Some(is)
}

/// Whether the wave is due, in which the message of this number is waited for.
fn waits(session: &Coordinator, number: u64) -> Option<bool> {
    let next = session.next().ok()?;
    Some(next == Next::Wave && session.waits_for(number))
}

/// Asks a put of one key.
fn ask_put(session: &mut Coordinator, alloc: Global) -> Option<()> {
    let key = Key::new(alloc, b"a").ok()?;
    let value = Value::new(alloc, b"x").ok()?;
    session.ask(Call::Put(key, value), READING).ok()
}

/// Whether a transaction is begun, and its put told written as soon as its message 1 went out.
fn writes_at_once(session: &mut Coordinator, alloc: Global) -> Option<bool> {
    session.ask(Call::Begin(Priority::Normal), READING).ok()?;
    let ts = Timestamp::new(READING, 0);
    let begun = tells(session, &Answer::Begun { id: ID, ts })?;
    ask_put(session, alloc)?;
    let put = is_put(session)?;
    session.sent(1).ok()?;
    Some(begun && put && tells(session, &Answer::Written)?)
}

/// Whether message 2 is then the stage of its commit, and the wave waits for both; the put's reply is heard then.
fn stages_a_put(session: &mut Coordinator, alloc: Global) -> Option<bool> {
    let written = writes_at_once(session, alloc)?;
    session.ask(Call::Commit, READING).ok()?;
    let staged = stages(session, 2)?;
    let beside = waits(session, 1)? && waits(session, 2)?;
    let ts = Timestamp::new(READING, 0);
    session.heard(1, 1, &Reply::Written { ts }).ok()?;
    Some(written && staged && beside)
}

/// Whether a stage was due and is waited for, which went out under this number; it is lost then.
fn loses_a_stage(session: &mut Coordinator, number: u64) -> Option<bool> {
    let is = stages(session, number)? && waits(session, number)?;
    session.lost(number).ok()?;
    Some(is)
}

/// Whether a commit at this timestamp was due, which went out under this number; it is lost then.
fn loses_a_commit(session: &mut Coordinator, number: u64, at: Timestamp) -> Option<bool> {
    let is = commits(session, number, at)?;
    session.lost(number).ok()?;
    Some(is)
}

/// The stage, message 2, comes back undecided, with the record at this timestamp.
fn comes_back_above(session: &mut Coordinator, ts: Timestamp) -> Option<()> {
    let moved = View::Pending { epoch: 0, ts };
    session.heard(2, 2, &Reply::Status(moved)).ok()
}

/// What each step of a commit is whose stage is lost, and lost once more.
fn loses_its_stage(session: &mut Coordinator, alloc: Global) -> Option<[bool; 3]> {
    let staged = stages_a_put(session, alloc)?;
    session.lost(2).ok()?;
    let again = loses_a_stage(session, 3)?;
    let unknown = tells(session, &Answer::Unknown { id: ID })?;
    Some([staged, again, unknown])
}

/// What each step of a commit is whose stage comes back undecided, above it, and whose commit is then lost, and lost once more.
fn loses_its_commit(session: &mut Coordinator, alloc: Global) -> Option<[bool; 4]> {
    let staged = stages_a_put(session, alloc)?;
    let above = Timestamp::new(READING, 5);
    comes_back_above(session, above)?;
    let first = loses_a_commit(session, 3, above)?;
    let again = loses_a_commit(session, 4, above)?;
    let unknown = tells(session, &Answer::Unknown { id: ID })?;
    Some([staged, first, again, unknown])
}

#[test]
fn a_stage_that_is_lost_twice_leaves_the_commit_unknown(rt: HostRuntime) -> Result<(), Fail> {
    let splits = Keys::new(rt.alloc());
    let mut session = Coordinator::new(rt.alloc(), 1, TRIES, true, &splits);
    assert_eq!(rt; loses_its_stage(&mut session, rt.alloc()), Some([true; 3]));
    Ok(())
}

#[test]
fn a_commit_that_is_lost_twice_leaves_it_unknown(rt: HostRuntime) -> Result<(), Fail> {
    let splits = Keys::new(rt.alloc());
    let mut session = Coordinator::new(rt.alloc(), 1, TRIES, true, &splits);
    assert_eq!(rt; loses_its_commit(&mut session, rt.alloc()), Some([true; 4]));
    Ok(())
}
