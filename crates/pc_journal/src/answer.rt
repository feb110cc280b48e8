ghost use Rattle.std.specs.Prelude.{◌≡◌, ◌∷◌, ◌++◌, All, OnOk, codes};
ghost use Rattle.std.specs.List.{flat_map};
ghost use Rattle.pc_journal.specs.Fits.{FitsAnswer, FitsBareRow};
ghost use Rattle.pc_journal.specs.ToldRows.{AnswersBare};
ghost use Rattle.pc_journal.specs.Answer.{answer_text, told_row_text};
ghost use Rattle.pc_journal.specs.Lists.{listed};
ghost use Rattle.pc_journal.specs.Side.{◌·◌};

use crate::text::{Text, one, three, two};
use pc_base::{Key, NoMemory, Value};
use pc_proto::{Answer, Origin, Rows};

impl Text for Answer {
    ghost text = { answer_text };

    ghost spelled = { λ answer. AnswersBare answer → FitsAnswer answer };

    fn print(&self, out: &mut Vec<u8>) -> Result<(), NoMemory> {
        match self {
            Answer::Begun { id, ts } => three(b"begun", id, ts, out),
            Answer::Value(value) => two(b"value", value, out),
            Answer::Rows(rows) => print_told_rows(rows, out),
            Answer::Written => one(b"written", out),
            Answer::Committed { id, ts } => three(b"committed", id, ts, out),
            Answer::RolledBack { id, why } => three(b"rolledback", id, why, out),
            Answer::Learnt => one(b"learnt", out),
            Answer::NotYet => one(b"notyet", out),
            Answer::Done => one(b"done", out),
            Answer::Blocked { holder } => two(b"blocked", holder, out),
            Answer::Unavailable { faults } => two(b"unavailable", faults, out),
            Answer::Aborted { why } => two(b"aborted", why, out),
            Answer::Restart { key, ts } => three(b"restart", key, ts, out),
            Answer::Unknown { id } => two(b"unknown", id, out),
            Answer::Moved { ts } => two(b"moved", ts, out),
            Answer::Clock { reading } => two(b"clock", reading, out),
            Answer::NoTxn => one(b"notxn", out),
        }
    }
}

fn print_told_rows(rows: &Rows, out: &mut Vec<u8>) -> Result<(), NoMemory>
    ensures text { OnOk result (out.new.items ≡ out.old.items ++ (codes "rows" · listed told_row_text rows.now)) }
    ensures spelled { OnOk result (All FitsBareRow rows.now) }
{
    one(b"rows ", out)?;
    print_told_list(rows.as_slice(), out)
}

fn print_told_list(rows: &[(Key, Origin, Value)], out: &mut Vec<u8>) -> Result<(), NoMemory>
    ensures text { OnOk result (out.new.items ≡ out.old.items ++ listed told_row_text rows.now) }
    ensures spelled { OnOk result (All FitsBareRow rows.now) }
{
    match rows.split_first() {
        None => one(b"-", out),
        Some((first, rest)) => {
            print_told_row(first, out)?;
            print_more_told_rows(rest, out)
        }
    }
}

fn print_more_told_rows(rows: &[(Key, Origin, Value)], out: &mut Vec<u8>) -> Result<(), NoMemory>
    ensures text { OnOk result (out.new.items ≡ out.old.items ++ flat_map (λ row. 44 ∷ told_row_text row) rows.now) }
    ensures spelled { OnOk result (All FitsBareRow rows.now) }
{
    for row in rows {
        out.push(b',')?;
        print_told_row(row, out)?;
    }
    Ok(())
}

/// A client is told keys and values, and not where they came from.
fn print_told_row(row: &(Key, Origin, Value), out: &mut Vec<u8>) -> Result<(), NoMemory>
    ensures text { OnOk result (out.new.items ≡ out.old.items ++ told_row_text row.now) }
    ensures spelled { OnOk result (FitsBareRow row.now) }
{
    row.0.print(out)?;
    row.2.print(out)
}
