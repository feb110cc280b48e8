ghost use Rattle.pc_report.specs.FirstReport.{FirstRowIsReported};

/// What the definitions of the report say of the history that the smallest workload makes.
pub fn first_row_is_reported()
    ensures { FirstRowIsReported }
{}
