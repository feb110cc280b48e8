ghost use Rattle.std.specs.Prelude.{◌≡◌};
ghost use Rattle.pc_files.specs.Filing.{decided_by, put_by, txn_named, txn_viewed};

use pc_base::TxnId;
use pc_known::Hearing;
use pc_proto::{Reply, Request};

/// The transaction that a stage or commit decides, if the request is one.
pub(crate) fn decided_by(request: &Request) -> Option<TxnId>
    ensures { result ≡ decided_by request.now }
{
    match request {
        Request::Stage { meta, .. } | Request::Commit { meta, .. } => Some(meta.id),
        _ => None,
    }
}

/// The transaction that the request puts a write of, if it is a put.
pub fn put_by(request: &Request) -> Option<TxnId>
    ensures { result ≡ put_by request.now }
{
    match request {
        Request::Put { meta, .. } => Some(meta.id),
        _ => None,
    }
}

/// The transaction that the request names as the one that it is of, or about.
pub(crate) fn txn_named(request: &Request) -> Option<TxnId>
    ensures { result ≡ txn_named request.now }
{
    match request {
        Request::Get { id, .. }
        | Request::Scan { id, .. }
        | Request::Refresh { id, .. }
        | Request::Query { id, .. }
        | Request::Recover { id, .. }
        | Request::Resolve { id, .. }
        | Request::Remove { id, .. } => Some(*id),
        Request::Put { meta, .. }
        | Request::Beat { meta, .. }
        | Request::Stage { meta, .. }
        | Request::Commit { meta, .. }
        | Request::Abort { meta, .. } => Some(meta.id),
        Request::Push { holder, .. } => Some(holder.id),
        Request::Records => None,
    }
}

/// The transaction that the request names, where the reply has a view.
pub(crate) fn txn_viewed(hearing: &Hearing<'_>) -> Option<TxnId>
    ensures { result ≡ txn_viewed hearing.now }
{
    match hearing.reply {
        Reply::Status(_) | Reply::Refused(_) | Reply::Unsure(_) => txn_named(hearing.request),
        _ => None,
    }
}
