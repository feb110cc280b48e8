//! The worked rows, in the turns that they state.

use crate::outputs::output_in_turns;
use pc_vectors::{PIPELINED, PIPELINED_BESIDE, ROWS, Row};
use std::alloc::Global;
use std::sync::Wait;
use std::test::Fail;
use std::thread::Threads;

/// Whether the row's workload writes just what the row says.
fn is_as_written<R: Wait + Threads + Sync>(rt: &R, alloc: Global, row: &Row) -> bool {
    match output_in_turns(rt, alloc, row.input) {
        Some(out) => out.as_slice() == row.output,
        None => false,
    }
}

#[test]
fn each_worked_row_writes_its_journal_and_report(rt: HostRuntime) -> Result<(), Fail> {
    for row in ROWS.as_slice() {
        assert!(rt; is_as_written(&rt, rt.alloc(), row), "{}", row.name);
    }
    Ok(())
}

#[test]
fn each_row_of_a_session_that_pipelines_is_as_written(rt: HostRuntime) -> Result<(), Fail> {
    for row in PIPELINED.as_slice() {
        assert!(rt; is_as_written(&rt, rt.alloc(), row), "{}", row.name);
    }
    Ok(())
}

#[test]
fn each_row_of_sessions_that_meet_and_pipeline_is_as_written(rt: HostRuntime) -> Result<(), Fail> {
    for row in PIPELINED_BESIDE.as_slice() {
        assert!(rt; is_as_written(&rt, rt.alloc(), row), "{}", row.name);
    }
    Ok(())
}
