//! Remove: turns a final record into its mark, which keeps its status for good. It closes the race with a stray message of the
//! transaction: the mark still says how it ended.

ghost use Rattle.std.specs.Prelude.{◌≡◌, IfOk, OnOk, OnErr, if◌then◌else◌};
ghost use Rattle.pc_proto.specs.Place.{is_decided, view_of};
ghost use Rattle.pc_proto.specs.RecordRows.Remove.{remove};
ghost use Rattle.pc_proto.specs.Table.{applied_to, place_of};

use crate::table::RecordTable;
use pc_base::{NoMemory, TryCopy, TxnId};
use pc_proto::Reply;

pub(crate) fn remove(table: &mut RecordTable, id: TxnId) -> Result<Reply, NoMemory>
    ensures reply { let p = place_of id table.old in IfOk result (λ made. made ≡ (if is_decided p then Reply.Removed else Reply.Status (view_of p))) }
    ensures after { OnOk result (table.new ≡ applied_to id (remove (place_of id table.old)) table.old) }
    ensures err { OnErr result (table.new ≡ table.old) }
{
    let place = table.place(id);
    if !place.is_decided() {
        return Ok(Reply::Status(place.view(table.alloc())?));
    }
    if let Some(record) = place.record() {
        let status = record.status.copy()?;
        table.finish(id, status)?;
    }
    Ok(Reply::Removed)
}
