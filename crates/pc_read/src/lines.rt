ghost use Rattle.std.specs.Prelude.{◌≡◌, ◌+◌, ◌^◌, ◌<◌, ◌∷◌, [], IfOk, IfSome, IsSome, Some, length};
ghost use Rattle.pc_read.specs.Items.{Malformed as malformed_line, entry_items, head_items, text_lines, row_items, second_items, third_items};
ghost use Rattle.pc_read.specs.Left.{StepTakes, TakesNext};
ghost use Rattle.pc_read.specs.Texts.{splits_in};

use crate::cut::{cut, is};
use crate::event::{EntryRef, entry};
use crate::report::is_report_row;
use crate::splits::{actors, owned_splits, ranges};
use pc_base::NoMemory;
use pc_proto::Keys;
use std::alloc::Global;
use std::marker::Model;

/// The head of a journal: the number of ranges and the split keys as they stand in the second line, and the counts of the third.
#[derive(Clone, Copy, Debug)]
pub struct HeadRef<'a> {
    pub splits: &'a [u8],
    pub sessions: u32,
    pub recoverers: u32,
}

impl<'a> HeadRef<'a> {
    /// The split keys in memory of their own.
    pub fn keys(&self, alloc: Global) -> Result<Keys, NoMemory>
        requires { IsSome (splits_in self.now.splits.now) }
        ensures { IfOk result (λ keys. splits_in self.now.splits.now ≡ Some keys) }
    {
        owned_splits(alloc, self.splits)
    }
}

/// A line of a journal and its report; the head stands for the first three.
#[derive(Clone, Copy, Debug)]
pub enum LineRef<'a> {
    Head(HeadRef<'a>),
    Entry(EntryRef<'a>),
    ReportWord,
    Report(&'a [u8]),
    End,
}

/// The first line that is outside the grammar, counted from 1.
#[derive(Clone, Copy, Debug, PartialEq, Eq)]
pub struct Malformed {
    pub line: u64,
}

/// What was read so far.
#[derive(Clone, Copy, Debug)]
pub enum Stage {
    Head,
    Entries,
    Rows,
    Over,
    Done,
}

/// What one line gives, and where the reading goes on.
#[derive(Drop)]
struct Step<'a> {
    given: Result<LineRef<'a>, Malformed>,
    stage: Stage,
    line: u64,
    rest: &'a [u8],
}

/// The lines of a text, one after the other. Contracts see what is left to be read.
#[derive(Debug, Drop)]
pub struct Lines<'a> {
    stage: Stage,
    line: u64,
    rest: &'a [u8],
}

impl<'a> Model for Lines<'a> {
    ghost use Rattle.std.specs.Prelude.{List, ◌+◌, ◌<◌, ◌^◌, length};
    ghost use Rattle.pc_read.specs.Items.{Item};
    ghost use Rattle.pc_read.specs.Left.{items_left};

    ghost Value = { List Item };

    ghost view = { λ s. items_left s.stage s.line s.rest.now };

    ghost invariant = { λ s. s.line + length s.rest.now < 2 ^ 64 };
}

impl<'a> Lines<'a> {
    /// All lines of the bytes.
    pub fn new(bytes: &'a [u8]) -> Lines<'a>
        ensures { result ≡ head_items (text_lines bytes.now) }
    {
        Lines {
            stage: Stage::Head,
            line: 1,
            rest: bytes,
        }
    }

    /// The next line. `None` comes behind the line `end` where nothing stands behind it, and behind a malformed line.
    #[tactic(auto, using(crate::proofs::Steps::over_steps))]
    pub fn next(&mut self) -> Option<Result<LineRef<'a>, Malformed>>
        ensures { TakesNext result self.old self.new }
    {
        let step = match self.stage {
            Stage::Head => head_step(self.rest),
            Stage::Entries => entry_step(self.line, self.rest),
            Stage::Rows => row_step(self.line, self.rest),
            Stage::Over if self.rest.is_empty() => return None,
            Stage::Over => refuse(self.line, self.rest),
            Stage::Done => return None,
        };
        self.stage = step.stage;
        self.line = step.line;
        self.rest = step.rest;
        Some(step.given)
    }
}

/// The line is outside the grammar, and nothing is read behind it.
fn refuse(line: u64, rest: &[u8]) -> Step<'_>
    ensures takes { StepTakes result (malformed_line line ∷ []) }
    ensures line { result.line ≡ line }
    ensures rest { result.rest.now ≡ rest.now }
{
    Step {
        given: Err(Malformed { line }),
        stage: Stage::Done,
        line,
        rest,
    }
}

/// An entry, or the line `report`.
#[tactic(auto, using(crate::proofs::Steps::entry_steps))]
fn entry_step(line: u64, rest: &[u8]) -> Step<'_>
    requires { line + length rest.now < 2 ^ 64 }
    ensures takes { StepTakes result (entry_items line (text_lines rest.now)) }
    ensures room { result.line + length result.rest.now < 2 ^ 64 }
{
    let Some((text, behind)) = cut(b'\n', rest) else {
        return refuse(line, rest);
    };
    if is(text, b"report") {
        return Step {
            given: Ok(LineRef::ReportWord),
            stage: Stage::Rows,
            line: line + 1,
            rest: behind,
        };
    }
    match entry(line, text) {
        Some(entry) => Step {
            given: Ok(LineRef::Entry(entry)),
            stage: Stage::Entries,
            line: line + 1,
            rest: behind,
        },
        None => refuse(line, rest),
    }
}

/// A row of the report, or the line `end`.
#[tactic(auto, using(crate::proofs::Steps::row_steps))]
fn row_step(line: u64, rest: &[u8]) -> Step<'_>
    requires { line + length rest.now < 2 ^ 64 }
    ensures takes { StepTakes result (row_items line (text_lines rest.now)) }
    ensures room { result.line + length result.rest.now < 2 ^ 64 }
{
    let Some((text, behind)) = cut(b'\n', rest) else {
        return refuse(line, rest);
    };
    if is(text, b"end") {
        Step {
            given: Ok(LineRef::End),
            stage: Stage::Over,
            line: line + 1,
            rest: behind,
        }
    } else if is_report_row(text) {
        Step {
            given: Ok(LineRef::Report(text)),
            stage: Stage::Rows,
            line: line + 1,
            rest: behind,
        }
    } else {
        refuse(line, rest)
    }
}

/// The three lines of the head.
#[tactic(auto, using(crate::proofs::Steps::head_steps))]
fn head_step(rest: &[u8]) -> Step<'_>
    requires { 1 + length rest.now < 2 ^ 64 }
    ensures takes { StepTakes result (head_items (text_lines rest.now)) }
    ensures room { result.line + length result.rest.now < 2 ^ 64 }
{
    let Some((text, behind)) = cut(b'\n', rest) else {
        return refuse(1, rest);
    };
    if is(text, b"journal 1") {
        second_step(behind)
    } else {
        refuse(1, rest)
    }
}

/// The second and the third line.
#[tactic(auto, using(crate::proofs::Steps::head_steps))]
fn second_step(rest: &[u8]) -> Step<'_>
    requires { 2 + length rest.now < 2 ^ 64 }
    ensures takes { StepTakes result (second_items (text_lines rest.now)) }
    ensures room { result.line + length result.rest.now < 2 ^ 64 }
{
    let Some((text, behind)) = cut(b'\n', rest) else {
        return refuse(2, rest);
    };
    match ranges(text) {
        Some(splits) => third_step(splits, behind),
        None => refuse(2, rest),
    }
}

/// The third line, below these split keys.
#[tactic(auto, using(crate::proofs::Steps::head_steps))]
fn third_step<'a>(splits: &'a [u8], rest: &'a [u8]) -> Step<'a>
    requires room { 3 + length rest.now < 2 ^ 64 }
    requires splits { IsSome (splits_in splits.now) }
    ensures takes { IfSome (splits_in splits.now) (λ keys. StepTakes result (third_items keys (text_lines rest.now))) }
    ensures room { result.line + length result.rest.now < 2 ^ 64 }
{
    let Some((text, behind)) = cut(b'\n', rest) else {
        return refuse(3, rest);
    };
    match actors(text) {
        Some((sessions, recoverers)) => Step {
            given: Ok(LineRef::Head(HeadRef {
                splits,
                sessions,
                recoverers,
            })),
            stage: Stage::Entries,
            line: 4,
            rest: behind,
        },
        None => refuse(3, rest),
    }
}
