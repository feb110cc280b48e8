//! Worked rows: workloads, and what the run of each writes, for the tests of the crates above.
#![tactic(auto)]

mod late_stage;
mod latest_begin;
mod no_transaction;
mod one_get;
mod one_put;
mod proved_before_a_read;
mod pushed_away;
mod refused_stage;
mod restart_behind_a_stage;
mod row;
mod stage_beside_its_puts;
mod stage_that_is_recovered;
mod stages_on_two_ranges;
mod too_late_begin;
mod two_ranges;

pub use row::Row;

/// Rows whose writes are not pipelined, the simplest first.
pub const ROWS: [Row; 7] = [
    no_transaction::NO_TRANSACTION,
    one_put::ONE_PUT,
    one_get::ONE_GET,
    pushed_away::PUSHED_AWAY,
    latest_begin::LATEST_BEGIN,
    too_late_begin::TOO_LATE_BEGIN,
    two_ranges::TWO_RANGES,
];

/// Rows of one session that pipelines its writes.
pub const PIPELINED: [Row; 3] = [
    proved_before_a_read::PROVED_BEFORE_A_READ,
    stage_beside_its_puts::STAGE_BESIDE_ITS_PUTS,
    stage_that_is_recovered::STAGE_THAT_IS_RECOVERED,
];

/// Rows of two sessions that pipeline their writes and meet each other.
pub const PIPELINED_BESIDE: [Row; 4] = [
    late_stage::LATE_STAGE,
    restart_behind_a_stage::RESTART_BEHIND_A_STAGE,
    refused_stage::REFUSED_STAGE,
    stages_on_two_ranges::STAGES_ON_TWO_RANGES,
];
