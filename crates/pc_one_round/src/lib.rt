//! A law of how often a session sends in a commit whose writes are staged as they are.
#![tactic(auto)]

ghost use Rattle.pc_one_round.specs.OneRound.{CommitsInOneRound};
ghost use Rattle.pc_one_round.specs.StagedCommit.{StagedRowCommitsAsStaged};

/// A law: a commit whose writes and whose stage are all answered as they were staged sends one wave: nothing goes out behind the first reply.
pub fn commits_in_one_round()
    ensures { CommitsInOneRound }
{}

/// A law: there is such a commit, in a run that is written down.
pub fn staged_row_commits_as_staged()
    ensures { StagedRowCommitsAsStaged }
{}
