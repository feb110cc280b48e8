ghost use Rattle.std.specs.Prelude.{◌≡◌, IfOk};
ghost use Rattle.pc_base.specs.Value.{IsValue};
ghost use Rattle.pc_script.specs.Sum.{signed_number_in, sum_told};

use pc_base::{NoMemory, Value};
use std::alloc::Global;
use std::str;

/// The sum of what a get was told, read as a number, and this amount, in decimal.
pub(crate) fn sum_told(alloc: Global, told: &Option<Value>, amount: i64) -> Result<Value, NoMemory>
    ensures { IfOk result (λ sum. sum ≡ sum_told told.now amount) }
{
    let number = match told {
        None => 0,
        Some(value) => signed_number_in(alloc, value.as_bytes())?,
    };
    let text = number.saturating_add(amount).to_string(alloc)?;
    // A number's spelling is a value, so that only memory can be wanting.
    Value::new(alloc, text.as_bytes()).map_err(|_| NoMemory)
}

/// The number of 64 bits whose one spelling in decimal these bytes are, and 0 where they are none.
fn signed_number_in(alloc: Global, bytes: &[u8]) -> Result<i64, NoMemory>
    requires { IsValue bytes.now }
    ensures { IfOk result (λ number. number ≡ signed_number_in bytes.now) }
{
    let Ok(text) = str::from_utf8(bytes) else {
        unreachable!()
    };
    match text.parse::<i64>() {
        Err(_) => Ok(0),
        Ok(number) => {
            let spelled = number.to_string(alloc)?;
            Ok(if spelled.as_bytes() == bytes {
                number
            } else {
                0
            })
        }
    }
}
