ghost use Rattle.std.specs.Prelude.{◌≡◌};
ghost use Rattle.pc_call.specs.Behind.{left_behind};
ghost use Rattle.pc_call.specs.Finished.{left_at};

use pc_base::Timestamp;
use pc_locks::Locks;
use pc_proto::{Answer, Fate, TxnMeta};
use pc_txn::OpenTxn;

/// What a transaction that was decided left: its locks are to be settled with its fate, and its record removed.
#[derive(Drop)]
pub struct Left {
    pub meta: TxnMeta,
    /// Where its record is to be committed first: it was told committed otherwise than by its commit.
    pub staged: Option<Timestamp>,
    pub fate: Fate,
    pub locks: Locks,
}

/// How a transaction ends: what its call is told, and what it left.
#[derive(Drop)]
pub struct Over {
    pub answer: Answer,
    pub left: Option<Left>,
}

/// What is left of a transaction that ends with this fate.
pub fn left_of(txn: OpenTxn, fate: Fate) -> Option<Left>
    ensures { result ≡ left_at txn.anchor fate txn }
{
    left_after(txn, None, fate)
}

/// What is left of a transaction that ends with this fate, whose record is to be committed first where a timestamp is given.
pub(crate) fn left_after(txn: OpenTxn, staged: Option<Timestamp>, fate: Fate) -> Option<Left>
    ensures { result ≡ left_behind txn.anchor staged fate txn }
{
    let OpenTxn {
        id,
        epoch,
        priority,
        born,
        anchor,
        locks,
        ..
    } = txn;
    match anchor {
        None => None,
        Some(anchor) => Some(Left {
            meta: TxnMeta {
                id,
                epoch,
                priority,
                born,
                anchor,
            },
            staged,
            fate,
            locks,
        }),
    }
}
