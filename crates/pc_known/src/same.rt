ghost use Rattle.std.specs.Prelude.{◌≡◌, ◌↔◌, IsTrue};

use crate::cutting::is_key;
use pc_proto::{Keys, TxnMeta, Writes};

/// Whether the two are the same keys in the same order.
pub fn same_keys(one: &Keys, other: &Keys) -> bool
    ensures { IsTrue result ↔ (one.now ≡ other.now) }
{
    one == other
}

/// Whether the two are the same writes in the same order.
pub fn same_writes(one: &Writes, other: &Writes) -> bool
    ensures { IsTrue result ↔ (one.now ≡ other.now) }
{
    one == other
}

/// Whether the two metas are the same.
pub fn same_meta(one: &TxnMeta, other: &TxnMeta) -> bool
    ensures { IsTrue result ↔ (one.now ≡ other.now) }
{
    one.id == other.id
        && one.epoch == other.epoch
        && one.priority == other.priority
        && one.born == other.born
        && is_key(&one.anchor, &other.anchor)
}
