ghost use Rattle.pc_serial.specs.Laws.{CommitsAreOrdered, CommittedOnce, HistoriesAreLegal, OneQuietSession, OneSessionRunsInTurn, SessionsGoInTurn};
ghost use Rattle.pc_serial.specs.Making.{OneEntryCommits};
ghost use Rattle.pc_serial.specs.Plain.{OneSessionRunsPlainly};

/// A law: the committed transactions are one legal history of a map.
pub fn histories_are_legal()
    ensures { HistoriesAreLegal }
{}

/// A law: the commit order has the committed transactions and no others, each once, by timestamp and then by commit point.
pub fn commits_are_ordered()
    ensures { CommitsAreOrdered }
{}

/// A law: what was told committed stands in the commit order once.
pub fn committed_once()
    ensures { CommittedOnce }
{}

/// A law: what makes a transaction committed is one entry, of one of four kinds.
pub fn one_entry_commits()
    ensures { OneEntryCommits }
{}

/// A law: of two committed transactions of one session the one that was begun first stands first.
pub fn sessions_go_in_turn()
    ensures { SessionsGoInTurn }
{}

/// A law: where one session is alone, and knows of each commit, its committed transactions run on the plain map in the order in which they were begun.
pub fn one_session_runs_in_turn()
    ensures { OneSessionRunsInTurn }
{}

/// A law: one session alone that hears each reply before it goes on is never told that messages were lost, and so runs on the plain map.
pub fn one_quiet_session()
    ensures { OneQuietSession }
{}

/// A law: one session alone, whose messages go over a quiet wire and which finishes what is over, is told plain answers alone, and runs on the plain map. Its
/// writes may be on their way while it asks further calls, and its commits may stage them.
pub fn one_session_runs_plainly()
    ensures { OneSessionRunsPlainly }
{}
