//! On threads two sessions, and also one session alone, are inside two ranges at once.

use crate::outputs::output;
use pc_range::Gate;
use std::sync::atomic::{AtomicBool, Ordering};
use std::test::Fail;
use std::thread::sleep;
use std::time::{Clock, Duration};

/// How often whoever is inside one range looks whether somebody is inside the other range, a millisecond after each look.
const LOOKS: u32 = 20_000;

/// Two sessions that write in ranges of their own.
const TWO: &str =
    r#"{"version":1,"pipelining":false,"splits":["m"],"sessions":[{"clock":{"start":10,"step":1},"script":[{"do":[{"put":["a","x"]}]}]},{"clock":{"start":20,"step":1},"script":[{"do":[{"put":["n","y"]}]}]}]}"#;

/// One session that reads two ranges in one call.
const ONE: &str =
    r#"{"version":1,"pipelining":false,"splits":["m"],"sessions":[{"clock":{"start":10,"step":1},"script":[{"do":[{"scan":["",""]}]}]}]}"#;

/// One session whose commit stages on the first of two ranges, in the wave in which its two puts are delivered.
const STAGED: &str =
    r#"{"version":1,"splits":["m"],"sessions":[{"clock":{"start":10,"step":1},"script":[{"do":[{"put":["a","x"]},{"put":["n","y"]}]}]}]}"#;

const REPORT: &[u8] =
    b"\nreport\ncommitted 1.1 10.0 a=x\ncommitted 2.1 20.0 n=y\nmap a=x\nmap n=y\nend\n";

/// Holds whoever enters one of two ranges until somebody has entered the other one.
#[derive(Drop)]
struct Meeting<'a, R> {
    rt: &'a R,
    first_entered: AtomicBool,
    second_entered: AtomicBool,
    /// Whether somebody looked so often in vain.
    in_vain: AtomicBool,
}

impl<'a, R: Clock> Meeting<'a, R> {
    fn new(rt: &'a R) -> Meeting<'a, R> {
        Meeting {
            rt,
            first_entered: AtomicBool::new(false),
            second_entered: AtomicBool::new(false),
            in_vain: AtomicBool::new(false),
        }
    }

    fn was_in_vain(&self) -> bool {
        self.in_vain.load(Ordering::SeqCst)
    }

    /// Looks until somebody has entered. Once somebody looked in vain, nobody looks any more.
    fn wait_for(&self, entered: &AtomicBool) {
        for _ in 0..LOOKS {
            if entered.load(Ordering::SeqCst) || self.was_in_vain() {
                return;
            }
            sleep(self.rt, Duration::from_millis(1));
        }
        self.in_vain.store(true, Ordering::SeqCst);
    }
}

impl<'a, R: Clock> Gate for Meeting<'a, R> {
    fn before(&self, range: u32) {
        if range == 0 {
            self.first_entered.store(true, Ordering::SeqCst);
            self.wait_for(&self.second_entered);
        } else {
            self.second_entered.store(true, Ordering::SeqCst);
            self.wait_for(&self.first_entered);
        }
    }
}

/// A program that runs one session after another, in either order, looks in vain.
#[test]
fn two_sessions_are_inside_two_ranges_at_once(rt: HostRuntime) -> Result<(), Fail> {
    let gate = Meeting::new(&rt);
    let out = output(&rt, rt.alloc(), TWO, &gate).ok_or("an output")?;
    assert!(rt; !gate.was_in_vain());
    assert!(rt; out.as_slice().ends_with(REPORT));
    Ok(())
}

/// A program that evaluates the messages of a wave one after another, in either order, looks in vain.
#[test]
fn one_session_is_inside_two_ranges_at_once(rt: HostRuntime) -> Result<(), Fail> {
    let gate = Meeting::new(&rt);
    let out = output(&rt, rt.alloc(), ONE, &gate).ok_or("an output")?;
    assert!(rt; !gate.was_in_vain());
    assert!(rt;
        out.as_slice()
            .ends_with(b"\nreport\ncommitted 1.1 10.0 -\nend\n")
    );
    Ok(())
}

/// The same where the wave has the puts of two calls and a stage.
#[test]
fn a_stage_and_its_puts_are_inside_two_ranges_at_once(rt: HostRuntime) -> Result<(), Fail> {
    let gate = Meeting::new(&rt);
    let out = output(&rt, rt.alloc(), STAGED, &gate).ok_or("an output")?;
    assert!(rt; !gate.was_in_vain());
    assert!(rt;
        out.as_slice().ends_with(b"\nreport\ncommitted 1.1 10.0 a=x,n=y\nmap a=x\nmap n=y\nend\n")
    );
    Ok(())
}
