ghost use Rattle.std.specs.Prelude.{◌≡◌, ◌+◌, ◌^◌, ◌<◌, length};
ghost use Rattle.pc_base.specs.Rising.{AreRising};
ghost use Rattle.pc_world.specs.RangeOf.{GoesTo, IsForOne, range_of, range_of_start};

use pc_base::{Key, Span};
use pc_proto::{Keys, Request};

/// The range that holds a key: the first one lies below the first split, the second from there on, and so on.
pub fn range_of(splits: &Keys, key: &Key) -> u32
    requires { length splits.now + 1 < 2 ^ 32 }
    ensures { result ≡ range_of splits.now key.now }
{
    let below = splits
        .as_slice()
        .iter()
        .filter(|split| *split <= key)
        .count();
    below as u32
}

/// The range in which a span starts.
fn range_of_start(splits: &Keys, span: &Span) -> u32
    requires { length splits.now + 1 < 2 ^ 32 }
    ensures { result ≡ range_of_start splits.now span.now }
{
    match span {
        Span::One(key) => range_of(splits, key),
        Span::Between { from, to: _ } => match from {
            Some(first) => range_of(splits, first),
            None => 0,
        },
    }
}

/// The range that a request is sent to. A listing of records goes to the first; whoever wants those of another range
/// names that itself.
pub fn range_for(splits: &Keys, request: &Request) -> u32
    requires few { length splits.now + 1 < 2 ^ 32 }
    requires rising { AreRising splits.now }
    requires one { IsForOne splits.now request.now }
    ensures { GoesTo splits.now request.now result }
{
    match request {
        Request::Get { key, .. }
        | Request::Put { key, .. }
        | Request::Query { key, .. }
        | Request::Resolve { key, .. } => range_of(splits, key),
        Request::Scan { span, .. } | Request::Refresh { span, .. } => range_of_start(splits, span),
        Request::Beat { meta, .. }
        | Request::Stage { meta, .. }
        | Request::Commit { meta, .. }
        | Request::Abort { meta, .. } => range_of(splits, &meta.anchor),
        Request::Push { holder, .. } => range_of(splits, &holder.anchor),
        Request::Recover { anchor, .. } | Request::Remove { anchor, .. } => {
            range_of(splits, anchor)
        }
        Request::Records => 0,
    }
}
