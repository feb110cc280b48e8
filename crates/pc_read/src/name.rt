ghost use Rattle.std.specs.Prelude.{◌≡◌};
ghost use Rattle.pc_spelling.specs.Reading.{actor_at, id_at, priority_at, range_at, who_at};

use crate::cut::{cut, is};
use crate::number::number32;
use pc_base::{ActorId, Priority, TxnId, Who};

/// A session and a number in it, a dot between them.
#[tactic(auto, unfolding(pc_spelling::specs::Reading::id_at))]
pub fn id(bytes: &[u8]) -> Option<TxnId>
    ensures { result ≡ id_at bytes.now }
{
    let (session, number) = cut(b'.', bytes)?;
    let session = number32(session)?;
    let number = number32(number)?;
    Some(TxnId { session, number })
}

/// A number behind the letter of its kind of actor.
#[tactic(auto, unfolding(pc_spelling::specs::Reading::actor_at))]
pub fn actor(bytes: &[u8]) -> Option<ActorId>
    ensures { result ≡ actor_at bytes.now }
{
    match bytes {
        [b'r', digits @ ..] => Some(ActorId::Range(number32(digits)?)),
        [b's', digits @ ..] => Some(ActorId::Session(number32(digits)?)),
        [b'v', digits @ ..] => Some(ActorId::Recoverer(number32(digits)?)),
        _ => None,
    }
}

/// A range alone.
#[tactic(auto, unfolding(pc_spelling::specs::Reading::range_at))]
pub fn range(bytes: &[u8]) -> Option<u32>
    ensures { result ≡ range_at bytes.now }
{
    match bytes {
        [b'r', digits @ ..] => number32(digits),
        _ => None,
    }
}

/// A recoverer behind its letter, or else a transaction.
#[tactic(auto, unfolding(pc_spelling::specs::Reading::who_at))]
pub fn who(bytes: &[u8]) -> Option<Who>
    ensures { result ≡ who_at bytes.now }
{
    match bytes {
        [] => None,
        [b'v', digits @ ..] => Some(Who::Recoverer(number32(digits)?)),
        _ => Some(Who::Txn(id(bytes)?)),
    }
}

/// A priority by its name.
#[tactic(auto, unfolding(pc_spelling::specs::Reading::priority_at))]
pub fn priority(bytes: &[u8]) -> Option<Priority>
    ensures { result ≡ priority_at bytes.now }
{
    if is(bytes, b"low") {
        Some(Priority::Low)
    } else if is(bytes, b"normal") {
        Some(Priority::Normal)
    } else if is(bytes, b"high") {
        Some(Priority::High)
    } else {
        None
    }
}
