ghost use Rattle.std.specs.Prelude.{◌≡◌};
ghost use Rattle.serde_json.specs.View.{view};
ghost use Rattle.pc_work.specs.Amount.{amount_of};
ghost use Rattle.pc_work.specs.Reading.{Gives};
ghost use Rattle.pc_work.specs.RefusedStatement.{amount_refusal, is_integer};

use crate::fault::Misfit;
use crate::refusal::{OTHER_FORM, WRONG_NUMBER};
use serde_json::Value as Json;

/// The greatest amount that a workload adds, and takes away.
pub const MOST_AMOUNT: i64 = 1_000_000_000;

/// The amount that this is: a whole number from `-MOST_AMOUNT` to `MOST_AMOUNT`.
pub(crate) fn amount_of(json: &Json) -> Result<i64, Misfit>
    ensures { Gives result (amount_of (view json.now)) }
{
    amount_in(json).ok_or(Misfit::OtherForm)
}

fn amount_in(json: &Json) -> Option<i64>
    ensures { result ≡ amount_of (view json.now) }
{
    let amount = json.as_i64()?;
    if amount < -MOST_AMOUNT || amount > MOST_AMOUNT {
        return None;
    }
    Some(amount)
}

/// Which rule an amount breaks.
pub(crate) fn amount_refusal(json: &Json) -> Option<u8>
    ensures { result ≡ amount_refusal (view json.now) }
{
    if amount_in(json).is_some() {
        None
    } else if is_integer(json) {
        Some(WRONG_NUMBER)
    } else {
        Some(OTHER_FORM)
    }
}

fn is_integer(json: &Json) -> bool
    ensures { result ≡ is_integer (view json.now) }
{
    json.as_u64().is_some() || json.as_i64().is_some()
}
