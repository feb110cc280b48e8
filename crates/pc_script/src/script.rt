ghost use Rattle.std.specs.Prelude.{◌≡◌, ◌↔◌, ◌++◌, None, IfOk, IsTrue, OnOk, drop};
ghost use Rattle.std.specs.List.{flat_map};
ghost use Rattle.pc_script.specs.Script.{after_told, calls_of, learnt_of, next_call, opened, rerun, statement_calls};
ghost use Rattle.pc_script.specs.Script.{items_over};
ghost use Rattle.pc_script.specs.Ahead.{with_ahead};
ghost use Rattle.pc_work.specs.declared.item.Item.TheVariants as items;

use crate::planned::Planned;
use pc_base::{Items, NoMemory, Priority, TryCopy, TxnId, Value};
use pc_proto::{Answer, Call};
use pc_work::{Item, Script, Statement, Statements};
use std::alloc::Global;
use std::marker::Model;

/// The calls that one item of a script plans, in order.
type Calls = Items<Planned>;

/// Where a session is in its script. Contracts see it as that position.
#[derive(Drop)]
pub struct ScriptRun<'a> {
    alloc: Global,
    /// The items behind the running one.
    items: &'a [Item],
    /// All calls of the running item.
    calls: Calls,
    /// How many of them are over.
    over: usize,
    /// What the last get was told.
    read: Option<Value>,
    /// Whether the transaction is rolled back in place of what is ahead.
    gives_up: bool,
    /// How many reruns each item has.
    reruns: u32,
    /// How many are left to this one.
    left: u32,
}

impl<'a> Model for ScriptRun<'a> {
    ghost use Rattle.pc_script.specs.Script.{Position};
    ghost use Rattle.pc_script.specs.Ahead.{ahead_of};

    ghost Value = { Position };

    ghost view = { λ s. record { items = s.items.now; calls = s.calls; ahead = ahead_of s.gives_up s.over s.calls; read = s.read; reruns = s.reruns; left = s.left } };
}

impl<'a> ScriptRun<'a> {
    /// At the script's first call.
    pub fn new(alloc: Global, script: &'a Script, reruns: u32) -> Result<ScriptRun<'a>, NoMemory>
        ensures { IfOk result (λ made. made ≡ opened script.now reruns) }
    {
        let mut run = ScriptRun {
            alloc,
            items: script.as_slice(),
            calls: Items::new(alloc),
            over: 0,
            read: None,
            gives_up: false,
            reruns,
            left: reruns,
        };
        run.open()?;
        Ok(run)
    }

    /// The call that comes next. None at the script's end.
    pub fn next(&self) -> Result<Option<Call>, NoMemory>
        ensures { IfOk result (λ call. call ≡ next_call self.now) }
    {
        if self.gives_up {
            return Ok(Some(Call::Rollback));
        }
        match self.calls.get(self.over) {
            None => Ok(None),
            Some(planned) => Ok(Some(planned.call(self.alloc, &self.read)?)),
        }
    }

    /// The transaction of which the call that comes next learns. None where it is no learn, or at the script's end.
    pub fn learns(&self) -> Option<TxnId>
        ensures { result ≡ learnt_of (next_call self.now) }
    {
        if self.gives_up {
            return None;
        }
        match self.calls.get(self.over) {
            None => None,
            Some(planned) => planned.learns(),
        }
    }

    /// Whether no call comes next.
    pub fn is_over(&self) -> bool
        ensures { IsTrue result ↔ (next_call self.now ≡ None) }
    {
        !self.gives_up && self.over >= self.calls.len()
    }

    /// How many items of a script of so many are over.
    pub fn items_over(&self, items: usize) -> usize
        ensures { result ≡ items_over items self.now }
    {
        let running = self.calls.len().min(1);
        items.saturating_sub(self.items.len() + running)
    }

    /// The call was told this.
    pub fn told(&mut self, answer: &Answer) -> Result<(), NoMemory>
        ensures { OnOk result (self.new ≡ after_told answer.now self.old) }
    {
        match answer {
            Answer::Value(value) => {
                self.read = value.copy()?;
                self.go_on();
                Ok(())
            }
            Answer::Begun { .. } | Answer::Rows(_) | Answer::Written => {
                self.go_on();
                Ok(())
            }
            Answer::Blocked { .. } | Answer::Unavailable { .. } | Answer::Moved { .. } => {
                self.ask_again();
                Ok(())
            }
            Answer::Restart { .. } => {
                self.start_again();
                Ok(())
            }
            Answer::NoTxn | Answer::Done => Ok(()),
            Answer::Learnt
            | Answer::NotYet
            | Answer::Committed { .. }
            | Answer::RolledBack { .. }
            | Answer::Aborted { .. }
            | Answer::Unknown { .. }
            | Answer::Clock { .. } => self.open(),
        }
    }

    /// The first call that is ahead is over.
    fn go_on(&mut self)
        ensures { self.new ≡ with_ahead (drop 1 self.old.ahead) self.old }
    {
        if self.gives_up {
            self.gives_up = false;
            self.over = self.calls.len();
        } else if self.over < self.calls.len() {
            self.over += 1;
        }
    }

    /// The same call once more.
    fn ask_again(&mut self)
        ensures { self.new ≡ rerun self.old.ahead self.old.left self.old }
    {
        if self.left == 0 {
            self.gives_up = true;
        } else {
            self.left -= 1;
        }
    }

    /// The transaction's statements once more.
    fn start_again(&mut self)
        ensures { self.new ≡ rerun (drop 1 self.old.calls) self.old.left self.old }
    {
        if self.left == 0 {
            self.gives_up = true;
        } else {
            self.left -= 1;
            self.gives_up = false;
            self.over = 1;
        }
    }

    /// The next item, from its first call.
    fn open(&mut self) -> Result<(), NoMemory>
        ensures { OnOk result (self.new ≡ opened self.old.items self.old.reruns) }
    {
        self.calls = match self.items.split_first() {
            None => Items::new(self.alloc),
            Some((item, items)) => {
                self.items = items;
                item_calls(self.alloc, item)?
            }
        };
        self.over = 0;
        self.read = None;
        self.gives_up = false;
        self.left = self.reruns;
        Ok(())
    }
}

/// The calls of an item: a transaction's begin, its statements and its end; or one learn.
fn item_calls(alloc: Global, item: &Item) -> Result<Calls, NoMemory>
    ensures { IfOk result (λ made. made ≡ calls_of item.now) }
{
    match item {
        Item::Txn {
            priority,
            statements,
            commits,
        } => txn_calls(alloc, *priority, statements, *commits),
        Item::Learn(id) => {
            let mut calls = Items::new(alloc);
            calls.add(Planned::Ask(Call::Learn(*id)))?;
            Ok(calls)
        }
    }
}

/// The calls of a transaction.
fn txn_calls(
    alloc: Global,
    priority: Priority,
    statements: &Statements,
    commits: bool,
) -> Result<Calls, NoMemory>
    ensures { IfOk result (λ made. made ≡ calls_of (items.Txn priority statements.now commits)) }
{
    let mut calls = Items::new(alloc);
    calls.add(Planned::Ask(Call::Begin(priority)))?;
    add_statements(&mut calls, statements.as_slice())?;
    calls.add(Planned::Ask(if commits {
        Call::Commit
    } else {
        Call::Rollback
    }))?;
    Ok(calls)
}

/// Adds the calls of the statements, in order.
fn add_statements(calls: &mut Calls, statements: &[Statement]) -> Result<(), NoMemory>
    ensures { OnOk result (calls.new ≡ calls.old ++ flat_map statement_calls statements.now) }
{
    for statement in statements {
        add_statement(calls, statement)?;
    }
    Ok(())
}

/// Adds the calls of the statement.
fn add_statement(calls: &mut Calls, statement: &Statement) -> Result<(), NoMemory>
    ensures { OnOk result (calls.new ≡ calls.old ++ statement_calls statement.now) }
{
    match statement {
        Statement::Get(key) => calls.add(Planned::Ask(Call::Get(key.copy()?))),
        Statement::Scan(span) => calls.add(Planned::Ask(Call::Scan(span.copy()?))),
        Statement::Put(key, value) => {
            let key = key.copy()?;
            let value = value.copy()?;
            calls.add(Planned::Ask(Call::Put(key, value)))
        }
        Statement::Delete(key) => calls.add(Planned::Ask(Call::Delete(key.copy()?))),
        Statement::Add(key, amount) => {
            calls.add(Planned::Ask(Call::Get(key.copy()?)))?;
            calls.add(Planned::PutSum(key.copy()?, *amount))
        }
    }
}
