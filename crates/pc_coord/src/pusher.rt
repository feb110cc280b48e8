use pc_base::{Priority, TxnId};

/// The open transaction, as it pushes others.
#[derive(Clone, Copy, Debug)]
pub struct Pusher {
    pub id: TxnId,
    pub level: Priority,
}
