ghost use Rattle.std.specs.Prelude.{◌≡◌};
ghost use Rattle.serde_json.specs.View.{view};
ghost use Rattle.pc_work.specs.Learn.{learn_item, learnt_in, positive_in};
ghost use Rattle.pc_work.specs.Reading.{Gives};
ghost use Rattle.pc_work.specs.RefusedTexts.{learn_refusal};

use crate::fault::Misfit;
use crate::item::Item;
use crate::judge::Judged;
use crate::number::is_number;
use crate::refusal::{OTHER_FORM, WRONG_TEXT, unless};
use pc_base::TxnId;
use serde_json::Value as Json;

/// The learn of the transaction that this names.
#[tactic(auto, unfolding(crate::specs::Learn::learn_item))]
pub(crate) fn learn_item(json: &Json) -> Result<Item, Misfit>
    ensures { Gives result (learn_item (view json.now)) }
{
    let text = json.as_str().ok_or(Misfit::OtherForm)?;
    let id = learnt_in(text).ok_or(Misfit::OtherForm)?;
    Ok(Item::Learn(id))
}

/// The transaction that the text names: its session, a point, and its number.
fn learnt_in(text: &str) -> Option<TxnId>
    ensures { result ≡ learnt_in text.now }
{
    let (session, number) = text.split_once('.')?;
    let session = positive_in(session)?;
    let number = positive_in(number)?;
    Some(TxnId { session, number })
}

/// The number that a text spells, where it is from 1 and of 32 bits.
fn positive_in(text: &str) -> Option<u32>
    ensures { result ≡ positive_in text.now }
{
    if !is_number(text.as_bytes()) {
        return None;
    }
    match text.parse::<u32>() {
        Ok(number) if number >= 1 => Some(number),
        _ => None,
    }
}

impl Judged for TxnId {
    ghost refusal_in = { learn_refusal };

    fn refusal(json: &Json) -> Option<u8> {
        match json.as_str() {
            Some(text) => unless(learnt_in(text).is_some(), WRONG_TEXT),
            None => Some(OTHER_FORM),
        }
    }
}
