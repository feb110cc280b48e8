ghost use Rattle.std.specs.Prelude.{◌≡◌};
ghost use Rattle.serde_json.specs.View.{view};
ghost use Rattle.pc_work.specs.Item.{item_of, txn_item};
ghost use Rattle.pc_work.specs.Reading.{Gives};
ghost use Rattle.pc_work.specs.RefusedItem.{item_refusal, txn_refusal};
ghost use Rattle.pc_work.specs.Together.{is_item_there};

use crate::ending::{Ending, commits_or_true};
use crate::fault::Misfit;
use crate::json::{FromJson, has_only, list, member};
use crate::judge::{Judged, in_member, in_stated};
use crate::learn::learn_item;
use crate::priority::priority_or_normal;
use crate::refusal::{OTHER_FORM, least};
use crate::statement::Statements;
use crate::turn::Turns;
use pc_base::{Items, Priority, TxnId};
use serde_json::Value as Json;
use std::alloc::Global;

/// What a session does next.
#[derive(Debug, PartialEq, Eq, Drop)]
pub enum Item {
    /// Learns that this transaction committed, where its session was told so before.
    Learn(TxnId),
    /// Runs a transaction, and commits it or rolls it back.
    Txn {
        priority: Priority,
        statements: Statements,
        commits: bool,
    },
}

/// What one session does, in order.
pub type Script = Items<Item>;

impl Item {
    /// Whether it may stand among so many sessions: a learn names a session that is there, and stands in stated turns alone.
    pub(crate) fn is_there(&self, sessions: usize, turns: &Option<Turns>) -> bool
        ensures { result ≡ is_item_there sessions turns.now self.now }
    {
        match self {
            Item::Learn(id) => {
                turns.is_some() && (id.session >= 1 && id.session as usize <= sessions)
            }
            Item::Txn { .. } => true,
        }
    }
}

impl FromJson for Item {
    ghost found_in = { item_of };

    #[tactic(auto, unfolding(crate::specs::Item::item_of))]
    fn from_json(alloc: Global, json: &Json) -> Result<Item, Misfit> {
        if has_only(json, &["learn"]) {
            learn_item(member(json, "learn")?)
        } else {
            txn_item(alloc, json)
        }
    }
}

/// The transaction that this states.
#[tactic(auto, unfolding(crate::specs::Item::txn_item))]
fn txn_item(alloc: Global, json: &Json) -> Result<Item, Misfit>
    ensures { Gives result (txn_item (view json.now)) }
{
    if !has_only(json, &["do", "priority", "end"]) {
        return Err(Misfit::OtherForm);
    }
    let statements: Statements = list(alloc, member(json, "do")?)?;
    let priority = priority_or_normal(json, "priority")?;
    let commits = commits_or_true(json, "end")?;
    Ok(Item::Txn {
        priority,
        statements,
        commits,
    })
}

impl Judged for Item {
    ghost refusal_in = { item_refusal };

    #[tactic(auto, unfolding(crate::specs::RefusedItem::item_refusal))]
    fn refusal(json: &Json) -> Option<u8> {
        if has_only(json, &["learn"]) {
            in_member::<TxnId>(json, "learn")
        } else {
            txn_refusal(json)
        }
    }
}

/// Which rule a transaction breaks.
#[tactic(auto, unfolding(crate::specs::RefusedItem::txn_refusal))]
fn txn_refusal(json: &Json) -> Option<u8>
    ensures { result ≡ txn_refusal (view json.now) }
{
    if !has_only(json, &["do", "priority", "end"]) {
        return Some(OTHER_FORM);
    }
    let statements = in_member::<Statements>(json, "do");
    let priority = in_stated::<Priority>(json, "priority");
    let ending = in_stated::<Ending>(json, "end");
    least(statements, least(priority, ending))
}
