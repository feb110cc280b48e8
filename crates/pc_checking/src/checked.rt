use pc_check::Rule;

/// How a check ended.
#[derive(Clone, Copy, Debug, PartialEq, Eq)]
pub enum Checked {
    /// The source had a run with its report, and the sink took the line `run`.
    Run,
    /// The source had a journal with a report, of which this line is the first that breaks a rule.
    NotRun { line: u64, rule: Rule },
    /// This line of the source is the first that is outside the grammar.
    Malformed { line: u64 },
    /// The source failed.
    ReadFault,
    /// The source had a run with its report, and the sink failed after so many bytes of the line.
    WriteFault { written: usize },
    /// The source has more bytes than are allowed; so many were read, one more than the limit.
    TooLong { bytes: usize },
    /// Memory ran out.
    NoMemory,
}
