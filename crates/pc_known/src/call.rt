ghost use Rattle.std.specs.Prelude.{◌≡◌, ◌↔◌, IsTrue};
ghost use Rattle.pc_world.specs.Local.{IsCallOf, is_outside, is_round};
ghost use Rattle.pc_world.specs.MayTell.{is_begin, needs_txn};

use pc_base::ActorId;
use pc_proto::Call;

/// Whether the call is a recoverer's round.
pub(crate) fn is_round(call: &Call) -> bool
    ensures { result ≡ is_round call.now }
{
    matches!(call, Call::Round)
}

/// Whether the call is one of this actor's: rounds are a recoverer's, all other calls a session's.
pub(crate) fn is_call_of(actor: ActorId, call: &Call) -> bool
    ensures { IsTrue result ↔ IsCallOf actor call.now }
{
    match actor {
        ActorId::Session(_) => !is_round(call),
        ActorId::Recoverer(_) => is_round(call),
        ActorId::Range(_) => false,
    }
}

/// Whether the call comes where no transaction is open.
pub(crate) fn is_outside(call: &Call) -> bool
    ensures { result ≡ is_outside call.now }
{
    matches!(call, Call::Begin(_) | Call::Learn(_))
}

/// Whether the call needs an open transaction.
pub(crate) fn needs_txn(call: &Call) -> bool
    ensures { result ≡ needs_txn call.now }
{
    match call {
        Call::Get(_)
        | Call::Scan(_)
        | Call::Put(_, _)
        | Call::Delete(_)
        | Call::Commit
        | Call::Rollback => true,
        Call::Begin(_) | Call::Learn(_) | Call::Round => false,
    }
}

/// Whether the call begins a transaction.
pub(crate) fn is_begin(call: &Call) -> bool
    ensures { result ≡ is_begin call.now }
{
    matches!(call, Call::Begin(_))
}
