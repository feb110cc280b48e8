//! Makes a history on four threads, and with the word `measure` says how long an event takes on one thread and on four.
#![tactic(auto)]

mod fault;
mod free;
mod runs;

use crate::fault::Fault;
use crate::free::Free;
use crate::runs::{bare_on_four, bare_on_one, on_four, on_one};
use pc_history::Blank;
use std::marker::Brand;
use std::{env, io};

/// Events of each thread where nothing is measured.
const FEW: u64 = 1_000;

/// Events of each thread where the time is measured.
const MANY: u64 = 1_000_000;

fn main(rt: HostRuntime) -> Result<(), Fault> {
    let measures = env::args(&rt)?.any(|word| word.as_str() == "measure");
    let times = if measures { MANY } else { FEW };
    let blank = Blank::new(rt.alloc(), Free)?;
    let four = on_four::<Brand, _>(&rt, blank, times)?;
    println!(rt; "{} entries closed", four.entries)?;
    if measures {
        let blank = Blank::new(rt.alloc(), Free)?;
        let one = on_one::<Brand, _>(&rt, blank, times)?;
        let bare_one = bare_on_one(&rt, times)?;
        let bare_four = bare_on_four(&rt, times)?;
        println!(rt;
            "one thread: {} ns for each act, {} ns for each bare fetch_add",
            one.nanos, bare_one
        )?;
        println!(rt;
            "four threads: {} ns for each act, {} ns for each bare fetch_add",
            four.nanos, bare_four
        )?;
    }
    Ok(())
}
