ghost use Rattle.std.specs.Prelude.{◌≡◌, IfOk};
ghost use Rattle.pc_coord.specs.Coordination.{job_left};

use pc_base::{NoMemory, Timestamp};
use pc_call::Left;
use pc_proto::{Fate, Keys, TxnMeta};

/// What is left to be done of a transaction that is over: its locks are to be settled with its fate, and its record removed.
#[derive(Drop)]
pub struct Job {
    pub meta: TxnMeta,
    /// The timestamp at which its commit is to be sent first, where it was told committed otherwise than by its commit.
    pub staged: Option<Timestamp>,
    pub fate: Fate,
    pub locks: Keys,
}

/// The job of what a transaction left, if it left anything.
pub fn job_of(left: Option<Left>) -> Result<Option<Job>, NoMemory>
    ensures { IfOk result (λ job. job ≡ job_left left) }
{
    match left {
        None => Ok(None),
        Some(
            Left {
                meta,
                staged,
                fate,
                locks,
            },
        ) => Ok(Some(Job {
            meta,
            staged,
            fate,
            locks: locks.into_list()?,
        })),
    }
}
