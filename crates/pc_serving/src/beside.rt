ghost use Rattle.std.specs.Prelude.{All, IfOk};
ghost use Rattle.std.specs.List.{AllZip};
ghost use Rattle.pc_serving.specs.Delivery.{Became, MayBeServed};

use crate::delivery::{Delivery, Outcome};
use pc_base::NoMemory;
use pc_history::Named;
use pc_range::{CommitWorld, Gate, Ranges};
use std::sync::Wait;
use std::thread;
use std::thread::Threads;

/// Has the ranges evaluate the messages of a wave beside each other, each on a thread of its own where one can be made. Gives what became of
/// each, in their order.
pub fn serve_beside<N: Named<CommitWorld> + Send + Sync, G: Gate + Sync, R: Wait + Threads + Sync>(
    rt: &R,
    ranges: &Ranges<'_, N, G>,
    wave: Vec<Delivery<N>>,
) -> Result<Vec<Outcome<N>>, NoMemory>
    requires may { All (MayBeServed ranges.now.splits) wave.items }
    ensures { IfOk result (λ outcomes. AllZip (Became ranges.now.limit) wave.items outcomes.items) }
{
    let serve = |delivery: Delivery<N>| -> Outcome<N>
        requires { MayBeServed ranges.now.splits delivery }
        ensures { Became ranges.entry.now.limit delivery result }
    { ranges.serve(rt, delivery.message, Some(delivery.last)) };
    Ok(thread::map_vec(rt, wave, &serve)?)
}
