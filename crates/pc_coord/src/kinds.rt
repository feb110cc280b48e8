ghost use Rattle.std.specs.Prelude.{◌≡◌, IfOk};
ghost use Rattle.pc_coord.specs.Kinds.{begins_at, conflict_due, decision_in, decision_of, status_in, told_outside, written_at};

use pc_base::{NoMemory, Priority, Timestamp, TryCopy};
use pc_proto::{Answer, Call, Reply, View, Why};
use pc_wave::Step;

/// What the reply to a stage, a commit or a heartbeat says of its transaction.
#[derive(Drop)]
pub enum Decision {
    /// It is committed, in this epoch and at this timestamp.
    Committed { epoch: u32, ts: Timestamp },
    /// It is aborted, for this cause.
    Aborted { why: Why },
    /// It is not decided: its record is not final, and stands at this timestamp.
    Refused { recorded: Timestamp },
    /// Nothing.
    Nothing,
}

/// The priority at which the call begins a transaction, if it does.
pub fn begins_at(call: &Call) -> Option<Priority>
    ensures { result ≡ begins_at call.now }
{
    match call {
        Call::Begin(priority) => Some(*priority),
        _ => None,
    }
}

/// What a call that begins nothing is told where no transaction is open.
pub fn told_outside(call: &Call) -> Answer
    ensures { result ≡ told_outside call.now }
{
    match call {
        Call::Learn(_) => Answer::NotYet,
        _ => Answer::NoTxn,
    }
}

/// Where the reply says that a write was written, if it does.
pub fn written_at(reply: &Reply) -> Option<Timestamp>
    ensures { result ≡ written_at reply.now }
{
    match reply {
        Reply::Written { ts } => Some(*ts),
        _ => None,
    }
}

/// The view in a status.
pub fn status_in(reply: &Reply) -> Result<Option<View>, NoMemory>
    ensures { IfOk result (λ view. view ≡ status_in reply.now) }
{
    match reply {
        Reply::Status(view) => Ok(Some(view.copy()?)),
        _ => Ok(None),
    }
}

/// What the reply to a stage, a commit or a heartbeat says of its transaction.
pub fn decision_of(reply: &Reply) -> Result<Decision, NoMemory>
    ensures { IfOk result (λ decision. decision ≡ decision_of reply.now) }
{
    match reply {
        Reply::Status(view) => decision_in(view),
        _ => Ok(Decision::Nothing),
    }
}

fn decision_in(view: &View) -> Result<Decision, NoMemory>
    ensures { IfOk result (λ decision. decision ≡ decision_in view.now) }
{
    match view {
        View::Committed { epoch, ts, .. } => Ok(Decision::Committed {
            epoch: *epoch,
            ts: *ts,
        }),
        View::Aborted { why, .. } => Ok(Decision::Aborted { why: why.copy()? }),
        View::Pending { ts, .. } => Ok(Decision::Refused { recorded: *ts }),
        View::Staging { ts, .. } => Ok(Decision::Refused { recorded: *ts }),
        View::Nothing => Ok(Decision::Nothing),
    }
}

/// The conflict whose round is due, if one is.
pub fn conflict_due(step: Step) -> Option<Reply>
    ensures { result ≡ conflict_due step }
{
    match step {
        Step::Round { conflict, .. } => Some(conflict),
        _ => None,
    }
}
