ghost use Rattle.std.specs.Prelude.{◌≡◌, ◌++◌, IfOk, codes, string_bytes};
ghost use Rattle.std.specs.Fmt.{decimal};
ghost use Rattle.pc_program.specs.Status.{code_of, line_of, rule_word};

use pc_base::NoMemory;
pub use pc_check::Rule;
use std::alloc::Global;

/// The line where memory ran out.
pub(crate) const OUT_OF_MEMORY: &str = "pcommit: out of memory";

/// The rule in one word.
fn word_of(rule: Rule) -> &'static str
    ensures { result.now ≡ rule_word rule }
{
    match rule {
        Rule::Step => "step",
        Rule::Actor => "actor",
        Rule::Ask => "ask",
        Rule::Send => "send",
        Rule::Eval => "eval",
        Rule::Hear => "hear",
        Rule::Tell => "tell",
        Rule::Meet => "meet",
        Rule::Report => "report",
    }
}

/// How a call of the program ended.
#[derive(Clone, Copy, Debug, PartialEq, Eq)]
pub enum Status {
    /// The mode's output was written whole.
    Done,
    /// The journal is no run with its report: this line is the first that breaks a rule, and this is the rule.
    NotRun { line: u64, rule: Rule },
    /// The words name no mode.
    Usage,
    /// The source failed.
    ReadFault,
    /// The sink failed, after so many bytes.
    WriteFault { written: usize },
    /// The bytes are no workload, for the reason of this number.
    Workload { number: u8 },
    /// This line of the journal is the first that is outside the grammar.
    Journal { line: u64 },
    /// The input is longer than is allowed; so many bytes of it were read, one more than the limit.
    TooLong { bytes: usize },
    /// Memory ran out.
    NoMemory,
}

impl Status {
    /// The exit status of the program.
    pub fn code(&self) -> u8
        ensures { result ≡ code_of self.now }
    {
        match self {
            Status::Done => 0,
            Status::NotRun { .. } => 1,
            Status::Usage => 2,
            Status::ReadFault => 3,
            Status::WriteFault { .. } => 4,
            Status::Workload { .. } => 5,
            Status::Journal { .. } => 6,
            Status::TooLong { .. } => 7,
            Status::NoMemory => 8,
        }
    }

    /// The line that `main` prints on standard error, without its line feed; no text where there is nothing to say.
    pub fn text(&self, alloc: Global) -> Result<String, NoMemory>
        ensures { IfOk result (λ text. string_bytes text ≡ line_of self.now) }
    {
        match self {
            Status::Done => Ok(String::new(alloc)),
            Status::NotRun { line, rule } => not_run(alloc, *line, *rule),
            Status::Usage => fixed(alloc, "pcommit: usage: pcommit run|check|make --number N"),
            Status::ReadFault => fixed(alloc, "pcommit: read failed"),
            Status::WriteFault { written } => write_failed(alloc, *written),
            Status::Workload { number } => refused(alloc, *number),
            Status::Journal { line } => malformed(alloc, *line),
            Status::TooLong { bytes } => too_long(alloc, *bytes),
            Status::NoMemory => fixed(alloc, OUT_OF_MEMORY),
        }
    }
}

fn fixed(alloc: Global, text: &str) -> Result<String, NoMemory>
    ensures { IfOk result (λ made. string_bytes made ≡ text.now) }
{
    Ok(String::from_str(alloc, text)?)
}

fn not_run(alloc: Global, line: u64, rule: Rule) -> Result<String, NoMemory>
    ensures { IfOk result (λ text. string_bytes text ≡ line_of (Status.NotRun line rule)) }
{
    let mut text = at_line(alloc, line)?;
    text.push_str(word_of(rule))?;
    Ok(text)
}

fn at_line(alloc: Global, line: u64) -> Result<String, NoMemory>
    ensures { IfOk result (λ text. string_bytes text ≡ codes "pcommit: not a run: line " ++ decimal line ++ codes ", rule ") }
{
    Ok(format!(in alloc; "pcommit: not a run: line {line}, rule ")?)
}

fn write_failed(alloc: Global, written: usize) -> Result<String, NoMemory>
    ensures { IfOk result (λ text. string_bytes text ≡ line_of (Status.WriteFault written)) }
{
    Ok(format!(in alloc; "pcommit: write failed after {written} bytes")?)
}

fn refused(alloc: Global, number: u8) -> Result<String, NoMemory>
    ensures { IfOk result (λ text. string_bytes text ≡ line_of (Status.Workload number)) }
{
    Ok(format!(in alloc; "pcommit: workload refused: W{number}")?)
}

fn malformed(alloc: Global, line: u64) -> Result<String, NoMemory>
    ensures { IfOk result (λ text. string_bytes text ≡ line_of (Status.Journal line)) }
{
    Ok(format!(in alloc; "pcommit: journal malformed: line {line}")?)
}

fn too_long(alloc: Global, bytes: usize) -> Result<String, NoMemory>
    ensures { IfOk result (λ text. string_bytes text ≡ line_of (Status.TooLong bytes)) }
{
    let limit = bytes.saturating_sub(1);
    Ok(format!(in alloc; "pcommit: more than {limit} bytes")?)
}
