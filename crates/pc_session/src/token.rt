ghost use Rattle.std.specs.Prelude.{◌≡◌, IsSome, Some, slice_get};
ghost use Rattle.pc_session.specs.Token.{IsOfCommit, commit_read};

use pc_base::{Entry, Timestamp, TxnId};
use pc_history::{Named, Note};
use pc_proto::{Answer, Event};
use pc_range::CommitWorld;
use std::marker::Model;

/// Lets a session learn that a transaction committed: at which timestamp, and at which step of the history its own session was told so.
#[derive(Drop)]
pub struct Token<N: Named<CommitWorld>> {
    id: TxnId,
    step: u64,
    ts: Timestamp,
    note: Note<CommitWorld, N>,
}

impl<N: Named<CommitWorld>> Model for Token<N> {
    ghost use Rattle.pc_session.specs.Token.{IsOfCommit, TokenMeaning};

    ghost Value = { TokenMeaning };

    ghost view = { λ t. record { id = t.id; step = t.step; ts = t.ts; known = t.note.known } };

    ghost invariant = { λ t. IsOfCommit (record { id = t.id; step = t.step; ts = t.ts; known = t.note.known }) };
}

impl<N: Named<CommitWorld>> Token<N> {
    /// Of the commit of which the note tells.
    pub(crate) fn of(id: TxnId, step: u64, ts: Timestamp, note: Note<CommitWorld, N>) -> Token<N>
        requires { IsOfCommit (record { id = id; step = step; ts = ts; known = note.known }) }
        ensures { result ≡ record { id = id; step = step; ts = ts; known = note.known } }
    {
        Token { id, step, ts, note }
    }

    /// The transaction that committed.
    pub fn id(&self) -> TxnId
        ensures { result ≡ self.now.id }
    {
        self.id
    }

    /// The transaction, the step and the timestamp of its commit, and the note that tells of it.
    pub(crate) fn into_parts(self) -> (TxnId, u64, Timestamp, Note<CommitWorld, N>)
        ensures parts { self ≡ record { id = result.0; step = result.1; ts = result.2; known = result.3.known } }
        ensures commit { IsOfCommit self }
    {
        let Token { id, step, ts, note } = self;
        (id, step, ts, note)
    }
}

/// The step and the timestamp of the commit that the entry at this place tells.
pub(crate) fn commit_at(entries: &[Entry<Event>], place: usize) -> (u64, Timestamp)
    requires { IsSome (commit_read (slice_get entries.now place)) }
    ensures { commit_read (slice_get entries.now place) ≡ Some result }
{
    match entries.get(place) {
        Some(
            Entry {
                step,
                event: Event::Tell(Answer::Committed { ts, .. }),
                ..
            },
        ) => (*step, *ts),
        _ => unreachable!(),
    }
}
