use crate::request::Request;
use crate::view::View;
use pc_base::TxnId;

/// What a machine that settles a transaction asks for next.
#[derive(Debug, PartialEq, Eq, Drop)]
pub enum MachineNext {
    /// This request is to be sent, and its reply to be heard.
    Send(Request),
    /// The transaction's record was met so.
    Settled(View),
    /// The record is no longer what it was, and not final either.
    Changed(View),
    /// The push of this holder was refused.
    Refused(TxnId),
    Finished,
}
