ghost use Rattle.std.specs.Prelude.{◌≡◌, IfOk};
ghost use Rattle.pc_txn.specs.Queries.{own_query};

use crate::txn::OpenTxn;
use pc_base::{Key, NoMemory, TryCopy, Who};
use pc_proto::Request;

impl OpenTxn {
    /// The message that asks for its write of this key and sequence, at the write timestamp.
    pub fn query(&self, key: &Key, seq: u32) -> Result<Request, NoMemory>
        ensures { IfOk result (λ made. made ≡ own_query self.now key.now seq) }
    {
        Ok(Request::Query {
            id: self.id,
            epoch: self.epoch,
            seq,
            ts: self.write_ts,
            key: key.copy()?,
            by: Who::Txn(self.id),
        })
    }
}
