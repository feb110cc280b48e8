ghost use Rattle.std.specs.Prelude.{◌≡◌};
ghost use Rattle.serde_json.specs.View.{view};
ghost use Rattle.pc_work.specs.Reading.{Gives};
ghost use Rattle.pc_work.specs.RefusedStatement.{add_refusal, put_refusal, statement_refusal};
ghost use Rattle.pc_work.specs.Sole.{refusal_named, statement_named};
ghost use Rattle.pc_work.specs.Statement.{add_statement, delete_statement, get_statement, put_statement, scan_statement, statement_of};

use crate::amount::{amount_of, amount_refusal};
use crate::fault::Misfit;
use crate::json::{FromJson, pair, sole, two_of};
use crate::judge::Judged;
use crate::refusal::{OTHER_FORM, least};
use crate::span::span_of;
use pc_base::{Items, Key, Span, Value};
use serde_json::Value as Json;
use std::alloc::Global;

/// What a transaction does.
#[derive(Debug, PartialEq, Eq, Drop)]
pub enum Statement {
    Get(Key),
    Scan(Span),
    Put(Key, Value),
    Delete(Key),
    /// Reads a decimal number and writes it with this added; what is no number counts as 0.
    Add(Key, i64),
}

/// The statements of one transaction, in order.
pub type Statements = Items<Statement>;

impl FromJson for Statement {
    ghost found_in = { statement_of };

    fn from_json(alloc: Global, json: &Json) -> Result<Statement, Misfit> {
        match sole(json) {
            Some((name, stated)) => named(alloc, name, stated),
            None => Err(Misfit::OtherForm),
        }
    }
}

/// The statement that the only member states, which has this name.
#[tactic(auto, unfolding(crate::specs::Sole::statement_named))]
fn named(alloc: Global, name: &str, json: &Json) -> Result<Statement, Misfit>
    ensures { Gives result (statement_named name.now (view json.now)) }
{
    match name {
        "get" => get(alloc, json),
        "scan" => scan(alloc, json),
        "put" => put(alloc, json),
        "delete" => delete(alloc, json),
        "add" => add(alloc, json),
        _ => Err(Misfit::OtherForm),
    }
}

fn get(alloc: Global, json: &Json) -> Result<Statement, Misfit>
    ensures { Gives result (get_statement (view json.now)) }
{
    Ok(Statement::Get(Key::from_json(alloc, json)?))
}

fn scan(alloc: Global, json: &Json) -> Result<Statement, Misfit>
    ensures { Gives result (scan_statement (view json.now)) }
{
    Ok(Statement::Scan(span_of(alloc, json)?))
}

#[tactic(auto, unfolding(crate::specs::Statement::put_statement))]
fn put(alloc: Global, json: &Json) -> Result<Statement, Misfit>
    ensures { Gives result (put_statement (view json.now)) }
{
    let (key, value) = pair(json)?;
    let key = Key::from_json(alloc, key)?;
    let value = Value::from_json(alloc, value)?;
    Ok(Statement::Put(key, value))
}

fn delete(alloc: Global, json: &Json) -> Result<Statement, Misfit>
    ensures { Gives result (delete_statement (view json.now)) }
{
    Ok(Statement::Delete(Key::from_json(alloc, json)?))
}

#[tactic(auto, unfolding(crate::specs::Statement::add_statement))]
fn add(alloc: Global, json: &Json) -> Result<Statement, Misfit>
    ensures { Gives result (add_statement (view json.now)) }
{
    let (key, amount) = pair(json)?;
    let key = Key::from_json(alloc, key)?;
    let amount = amount_of(amount)?;
    Ok(Statement::Add(key, amount))
}

/// What a put states: a key and a value.
#[derive(Drop)]
struct PutPair;

/// What an add states: a key and an amount.
#[derive(Drop)]
struct AddPair;

impl Judged for Statement {
    ghost refusal_in = { statement_refusal };

    fn refusal(json: &Json) -> Option<u8> {
        match sole(json) {
            Some((name, stated)) => refusal_named(name, stated),
            None => Some(OTHER_FORM),
        }
    }
}

/// Which rule the only member breaks, which has this name.
#[tactic(auto, unfolding(crate::specs::Sole::refusal_named))]
fn refusal_named(name: &str, json: &Json) -> Option<u8>
    ensures { result ≡ refusal_named name.now (view json.now) }
{
    match name {
        "get" => Key::refusal(json),
        "scan" => Span::refusal(json),
        "put" => PutPair::refusal(json),
        "delete" => Key::refusal(json),
        "add" => AddPair::refusal(json),
        _ => Some(OTHER_FORM),
    }
}

impl Judged for PutPair {
    ghost refusal_in = { put_refusal };

    fn refusal(json: &Json) -> Option<u8> {
        match two_of(json) {
            Some((key, value)) => least(Key::refusal(key), Value::refusal(value)),
            None => Some(OTHER_FORM),
        }
    }
}

impl Judged for AddPair {
    ghost refusal_in = { add_refusal };

    fn refusal(json: &Json) -> Option<u8> {
        match two_of(json) {
            Some((key, amount)) => least(Key::refusal(key), amount_refusal(amount)),
            None => Some(OTHER_FORM),
        }
    }
}
