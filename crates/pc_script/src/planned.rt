ghost use Rattle.std.specs.Prelude.{IfOk, ◌≡◌, ℕ, List, Option, Some};
ghost use Rattle.pc_script.specs.Planned.{planned_call};
ghost use Rattle.pc_script.specs.Script.{learnt_of};

use crate::sum::sum_told;
use pc_base::{Key, NoMemory, TryCopy, TxnId, Value};
use pc_proto::Call;
use std::alloc::Global;

/// A call that a script has planned.
#[derive(Drop)]
pub enum Planned {
    /// This call.
    Ask(Call),
    /// The put, at this key, of the sum of what the last get was told and this amount.
    PutSum(Key, i64),
}

impl Planned {
    /// The call that it comes to, where the last get was told this.
    pub(crate) fn call(&self, alloc: Global, told: &Option<Value>) -> Result<Call, NoMemory>
        ensures { IfOk result (λ call. call ≡ planned_call told.now self.now) }
    {
        match self {
            Planned::Ask(call) => call.copy(),
            Planned::PutSum(key, amount) => {
                let key = key.copy()?;
                let sum = sum_told(alloc, told, *amount)?;
                Ok(Call::Put(key, sum))
            }
        }
    }

    /// The transaction of which it learns. None where it is no learn.
    pub(crate) fn learns(&self) -> Option<TxnId>
        ensures { (told : Option (List ℕ)) → result ≡ learnt_of (Some (planned_call told self.now)) }
    {
        match self {
            Planned::Ask(Call::Learn(id)) => Some(*id),
            _ => None,
        }
    }
}
