ghost use Rattle.pc_serial.specs.FirstRow.{FirstRowIsOneCommit};
ghost use Rattle.pc_serial.specs.FirstRun.{FirstRowIsARun};
ghost use Rattle.pc_serial.specs.StagedRow.{StagedRowRunsPlainly};

/// The history that the smallest workload makes is a run, of which the laws speak.
pub fn first_row_is_a_run()
    ensures { FirstRowIsARun }
{}

/// What the definitions say of it.
pub fn first_row_is_one_commit()
    ensures { FirstRowIsOneCommit }
{}

/// The history of a session whose put is on its way when it commits by stage: a run of one session alone, told plain answers.
pub fn staged_row_runs_plainly()
    ensures { StagedRowRunsPlainly }
{}
