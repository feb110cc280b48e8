ghost use Rattle.pc_read.specs.JournalsAreRead.{JournalsAreRead};
ghost use Rattle.pc_read.specs.ReadAsSpelled.{JournalsAreSpelled, ReportsAreRead, ReportsAreSpelled};

/// A law: what was printed of a head and a history is read again, each entry at its line.
pub fn journals_are_read()
    ensures { JournalsAreRead }
{}

/// A law: what is read of a text, printed, is the text.
pub fn journals_are_spelled()
    ensures { JournalsAreSpelled }
{}

/// A law: the lines of a report are read as its rows.
pub fn reports_are_read()
    ensures { ReportsAreRead }
{}

/// A law: the rows that are read of a text, each on a line and the line `end` below them, are the text.
pub fn reports_are_spelled()
    ensures { ReportsAreSpelled }
{}
