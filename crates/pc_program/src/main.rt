//! The program: its words name a mode, in which it runs a workload or checks the journal of a run.
#![tactic(auto)]

ghost use Rattle.std.specs.Prelude.{◌≡◌, ◌⊎◌};
ghost use Rattle.pc_program.specs.declared.status.Status.TheVariants as statuses;

mod check;
mod clocks;
mod laws;
mod output;
mod run;
mod status;
mod top;

use clocks::SystemClocks;
pub use laws::outputs_are_accepted;
use pc_io::{StdSink, StdSource};
use pc_range::NoGate;
use status::OUT_OF_MEMORY;
pub use status::{Rule, Status};
use std::process::ExitCode;
use std::{env, io};
pub use top::pcommit;

fn main(rt: HostRuntime) -> ExitCode {
    let status = match words(&rt) {
        Ok(words) => pcommit(
            &rt,
            rt.alloc(),
            words.as_slice(),
            &mut StdSource::new(rt.stdin()),
            &mut StdSink::new(rt.stdout()),
            &mut SystemClocks::new(&rt),
            &NoGate,
        ),
        Err(error) if error.kind() == io::ErrorKind::OutOfMemory => Status::NoMemory,
        Err(_) => Status::Usage,
    };
    ExitCode::from(told(&rt, status).code())
}

/// Prints the line of the status on standard error.
///
/// Where memory for the line cannot be had, that is the status, and its own line takes no memory.
fn told(rt: &HostRuntime, status: Status) -> Status
    ensures { (result ≡ status) ⊎ (result ≡ statuses.NoMemory) }
{
    let Ok(text) = status.text(rt.alloc()) else {
        let _ = rt.eprintln(OUT_OF_MEMORY);
        return Status::NoMemory;
    };
    if !text.is_empty() {
        let _ = rt.eprintln(text);
    }
    status
}

/// The words behind the program's name.
fn words(rt: &HostRuntime) -> io::Result<Vec<String>> {
    let mut words = Vec::new(rt.alloc());
    for word in env::args(rt)?.skip(1) {
        words.push(word)?;
    }
    Ok(words)
}
