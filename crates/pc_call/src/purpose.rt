use pc_base::TxnId;
use pc_proto::{Answer, Call, Why};
use pc_refusals::Refusals;
use pc_wave::Wave;

/// What an open call sends its messages for.
#[derive(Drop)]
pub enum Purpose {
    /// The open transaction shows that it is alive, at the reading at which this call was asked; the call goes on after that.
    Beat {
        call: Call,
        reading: u64,
    },
    /// Writes of earlier calls that are still in flight, for which this call waits, or all of them, are proved first; the call goes on after that.
    Prove {
        call: Call,
        all: bool,
    },
    /// It reads.
    Read,
    /// It writes.
    Write,
    /// What it read is refreshed, so that it may commit, after its commit was moved so often. These are the puts of its last stage, if there was one.
    Refresh {
        refusals: Refusals,
        puts: Wave,
    },
    /// It stages beside its writes in flight, after its commit was moved so often.
    Stage {
        refusals: Refusals,
    },
    /// A write of its stage that this holder blocks is asked for. The other messages of the stage wait meanwhile.
    Query {
        refusals: Refusals,
        holder: TxnId,
        puts: Wave,
    },
    /// It commits, after its commit was moved so often.
    Commit {
        refusals: Refusals,
    },
    /// Its commit gives up by this answer, once a heartbeat of this reading has shown that nothing of it is committed.
    LastBeat {
        then: Answer,
        reading: u64,
    },
    /// It is rolled back, for this cause.
    Abort {
        why: Why,
    },
}
