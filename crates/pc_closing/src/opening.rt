ghost use Rattle.std.specs.Prelude.{◌≡◌, ◌+◌, ◌-◌, ◌<◌, ◌≤◌, ◌^◌, IfOk, OnOk, Some, length};
ghost use Rattle.pc_closing.specs.Opening.{AreSeatedFor, opener_of, seats_up_to};
ghost use Rattle.pc_turns.specs.Shares.{client_at};
ghost use Rattle.pc_world.specs.Local.{Head};

use pc_base::{ActorId, NoMemory};
use pc_history::{Actor, Blank, Named, Opener};
use pc_proto::Keys;
use pc_range::{CommitWorld, Gate, Ranges};
use std::alloc::Global;

/// A history in which nothing has happened: whoever closes it, its ranges, and the actors of its sessions and of its recoverers, in order.
#[derive(Drop)]
pub struct Opened<'a, N: Named<CommitWorld>, G> {
    pub opener: Opener<CommitWorld, N>,
    pub ranges: Ranges<'a, N, G>,
    pub sessions: Vec<Actor<CommitWorld, N>>,
    pub recoverers: Vec<Actor<CommitWorld, N>>,
}

/// Seats the ranges that are cut at the splits, so many sessions, and so many recoverers. Each range may have at most `limit` entries.
pub fn open<'a, N: Named<CommitWorld>, G: Gate>(
    alloc: Global,
    blank: Blank<CommitWorld>,
    splits: Keys,
    sessions: u32,
    recoverers: u32,
    limit: u64,
    gate: &'a G,
) -> Result<Opened<'a, N, G>, NoMemory>
    requires named { (blank.table ≡ N.table) × (N.world ≡ Some blank.world) }
    requires world { blank.world ≡ record { splits = splits; sessions = sessions; recoverers = recoverers } }
    requires limit { (1 ≤ limit) × (limit < 2 ^ 32) }
    requires few_splits { length splits ≤ 31 }
    requires few_clients { sessions + recoverers ≤ 65504 }
    ensures opener { IfOk result (λ o. o.opener ≡ opener_of blank.world) }
    ensures ranges { IfOk result (λ o. o.ranges ≡ record { splits = splits; limit = limit }) }
    ensures sessions { IfOk result (λ o. AreSeatedFor blank.world 0 sessions o.sessions.items) }
    ensures recoverers { IfOk result (λ o. AreSeatedFor blank.world sessions (sessions + recoverers) o.recoverers.items) }
{
    let mut opener = Opener::start(blank);
    let ranges = Ranges::start(alloc, &mut opener, splits, limit, gate)?;
    let first = seat_clients(alloc, &mut opener, sessions, 0, sessions)?;
    let behind = seat_clients(
        alloc,
        &mut opener,
        sessions,
        sessions,
        sessions + recoverers,
    )?;
    Ok(Opened {
        opener,
        ranges,
        sessions: first,
        recoverers: behind,
    })
}

/// Seats the clients from the one index up to the other, behind all that are seated. The first clients, of which there are so many, are
/// sessions.
fn seat_clients<N: Named<CommitWorld>>(
    alloc: Global,
    opener: &mut Opener<CommitWorld, N>,
    sessions: u32,
    from: u32,
    to: u32,
) -> Result<Vec<Actor<CommitWorld, N>>, NoMemory>
    requires before { opener.old.seated ≡ seats_up_to opener.old.world from }
    requires sessions { opener.old.world.sessions ≡ sessions }
    requires order { from ≤ to }
    requires few { to ≤ 65504 }
    ensures seated { OnOk result (opener.new ≡ record opener.old { seated = seats_up_to opener.old.world to }) }
    ensures actors { IfOk result (λ actors. AreSeatedFor opener.old.world from to actors.items) }
{
    let mut actors = Vec::new(alloc);
    for index in from..to {
        actors.push(opener.seat(client(sessions, index))?)?;
    }
    Ok(actors)
}

/// The client of this index, from 0, where the first clients, of which there are so many, are sessions.
fn client(sessions: u32, index: u32) -> ActorId
    requires { index < 2 ^ 32 - 1 }
    ensures { (head : Head) → head.sessions ≡ sessions → result ≡ client_at head index }
{
    if index < sessions {
        ActorId::Session(index + 1)
    } else {
        ActorId::Recoverer(index - sessions + 1)
    }
}
