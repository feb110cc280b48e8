ghost use Rattle.std.specs.Prelude.{◌≡◌, ◌≢◌, ◌↔◌, ℕ, IfOk, IsTrue, OnOk};
ghost use Rattle.std.specs.BTreeMap.{get};
ghost use Rattle.std.specs.Option.{option_copied};
ghost use Rattle.std.specs.Ordering.{nat_cmp};
ghost use Rattle.pc_history.specs.Own.{pair};
ghost use Rattle.pc_judge.specs.Keeping.{IsKeptOf, KeepsClient};
ghost use Rattle.pc_world.specs.Known.{Known, learn};
ghost use Rattle.pc_world.specs.Local.{Head, MayDo};

use pc_base::{ActorId, Entry, NoMemory};
use pc_check::Client;
use pc_proto::{Event, Keys};
use std::alloc::Global;
use std::collections::BTreeMap;

/// Whether the session or recoverer of this number may make the entry. Where it may, the entry is taken.
pub(crate) fn may_make<'a, C: Client<'a> + Drop>(
    alloc: Global,
    splits: &'a Keys,
    clients: &mut BTreeMap<u32, C>,
    number: u32,
    entry: &'a Entry<Event>,
    named: Option<&'a Entry<Event>>,
) -> Result<bool, NoMemory>
    requires { IsKeptOf C.keeps splits.now entry.now.actor (get nat_cmp clients.old number) }
    ensures may { IfOk result (λ may. (head : Head) (k : Known) → head.splits ≡ splits.now → KeepsClient C.keeps head entry.now.actor k (get nat_cmp clients.old number) → IsTrue may ↔ MayDo head entry.now.actor k entry.now.event) }
    ensures taken { IfOk result (λ may. IsTrue may → (head : Head) (k : Known) → head.splits ≡ splits.now → KeepsClient C.keeps head entry.now.actor k (get nat_cmp clients.old number)
        → KeepsClient C.keeps head entry.now.actor (learn (pair entry.now (option_copied named.entry)) k) (get nat_cmp clients.new number)) }
    ensures others { OnOk result ((other : ℕ) → other ≢ number → get nat_cmp clients.new other ≡ get nat_cmp clients.old other) }
{
    let mut client = client_of::<C>(alloc, splits, clients, number, entry.actor)?;
    let may = client.may(&entry.event)?;
    if may {
        client.add(entry, named)?;
        clients.insert(number, client)?;
    }
    Ok(may)
}

/// Takes out the client of this number, or a new one where none is kept.
fn client_of<'a, C: Client<'a> + Drop>(
    alloc: Global,
    splits: &'a Keys,
    clients: &mut BTreeMap<u32, C>,
    number: u32,
    actor: ActorId,
) -> Result<C, NoMemory>
    ensures kept { IfOk result (λ client. (head : Head) (k : Known) → head.splits ≡ splits.now → KeepsClient C.keeps head actor k (get nat_cmp clients.old number) → C.keeps head actor k client) }
    ensures others { OnOk result ((other : ℕ) → other ≢ number → get nat_cmp clients.new other ≡ get nat_cmp clients.old other) }
{
    match clients.remove(&number) {
        Some(client) => Ok(client),
        None => C::new(alloc, actor, splits),
    }
}
