ghost use Rattle.std.specs.Prelude.{◌≡◌, ◌↔◌, ◌+◌, ◌∷◌, [], ◌^◌, ◌<◌, IfOk, IsTrue, length};
ghost use Rattle.pc_world.specs.RangeOf.{GoesTo, pieces};

use crate::cutting::{is_span, pieces};
use pc_base::{NoMemory, Span};
use pc_proto::{Keys, Request};
use pc_world::range_of;
use std::alloc::Global;

/// Whether the request goes to this range.
pub(crate) fn goes_to(
    alloc: Global,
    splits: &Keys,
    request: &Request,
    range: u32,
) -> Result<bool, NoMemory>
    requires { length splits.now + 1 < 2 ^ 32 }
    ensures { IfOk result (λ goes. IsTrue goes ↔ GoesTo splits.now request.now range) }
{
    match request {
        Request::Get { key, .. }
        | Request::Put { key, .. }
        | Request::Query { key, .. }
        | Request::Resolve { key, .. } => Ok(range == range_of(splits, key)),
        Request::Scan { span, .. } | Request::Refresh { span, .. } => {
            lies_in(alloc, splits, span, range)
        }
        Request::Beat { meta, .. }
        | Request::Stage { meta, .. }
        | Request::Commit { meta, .. }
        | Request::Abort { meta, .. } => Ok(range == range_of(splits, &meta.anchor)),
        Request::Push { holder, .. } => Ok(range == range_of(splits, &holder.anchor)),
        Request::Recover { anchor, .. } | Request::Remove { anchor, .. } => {
            Ok(range == range_of(splits, anchor))
        }
        Request::Records => Ok(range as usize <= splits.len()),
    }
}

/// Whether the span lies in this range alone.
fn lies_in(alloc: Global, splits: &Keys, span: &Span, range: u32) -> Result<bool, NoMemory>
    requires { length splits.now + 1 < 2 ^ 32 }
    ensures { IfOk result (λ lies. IsTrue lies ↔ (pieces splits.now span.now ≡ (range, span.now) ∷ [])) }
{
    let made = pieces(alloc, splits, span)?;
    match made.as_slice() {
        [piece] => Ok(piece.range == range && is_span(piece.part, span)),
        _ => Ok(false),
    }
}
