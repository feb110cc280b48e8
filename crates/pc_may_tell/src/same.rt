//! When two messages are of one request.

ghost use Rattle.std.specs.Prelude.{◌≡◌, ◌↔◌, IsTrue};
ghost use Rattle.pc_world.specs.SameRequest.{IsSameMessage, IsSamePut, IsSameRequest};

use pc_known::Message;
use pc_proto::Request;

/// Whether the two are the same request.
fn is_equal(one: &Request, other: &Request) -> bool
    ensures { IsTrue result ↔ (one.now ≡ other.now) }
{
    one == other
}

fn is_same_put(one: &Request, other: &Request) -> bool
    ensures { IsTrue result ↔ IsSamePut one.now other.now }
{
    match (one, other) {
        (
            Request::Put { meta, seq, .. },
            Request::Put {
                meta: another,
                seq: at,
                ..
            },
        ) => { meta.id == another.id && meta.epoch == another.epoch && *seq == *at }
        _ => false,
    }
}

/// Whether the two are equal, or puts of one write.
pub(crate) fn is_same_request(one: &Request, other: &Request) -> bool
    ensures { IsTrue result ↔ IsSameRequest one.now other.now }
{
    is_equal(one, other) || is_same_put(one, other)
}

/// Whether two messages are of one request.
pub(crate) fn is_same_message(one: &Message<'_>, other: &Message<'_>) -> bool
    ensures { IsTrue result ↔ IsSameMessage one.now other.now }
{
    one.range == other.range && is_same_request(one.request, other.request)
}
