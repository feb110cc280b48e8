//! Brings the entries of all actors into the order of their numbers.
ghost use Rattle.std.specs.Prelude.{◌≡◌, ◌<◌, ◌≢◌, ℕ, length, map, All, IfOk, vec_items, vec_len, slice_index};
ghost use Rattle.std.specs.Vec.Iter.{into_iter_items};
ghost use Rattle.pc_history.specs.Dealt.{AreDealt, IsDealtBack, AreInTurns};

use pc_base::{Entry, NoMemory};
use std::alloc::Global;
use std::vec::IntoIter;

/// The entries of these lists in the order of their numbers, which are those below `steps`, each once. Each list is in this order already.
/// No entry is compared with another: it is noted for each number which list has it, and then each entry is moved once.
pub(crate) fn merge<E: Drop>(
    alloc: Global,
    lists: Vec<Vec<Entry<E>>>,
    steps: usize,
) -> Result<Vec<Entry<E>>, NoMemory>
    requires { AreDealt (map vec_items lists.items) steps }
    ensures { IfOk result (λ v. IsDealtBack v.items (map vec_items lists.items) steps) }
{
    let mut turns = vec![in alloc; 0; steps]?;
    let mut fronts = Vec::with_capacity(alloc, lists.len())?;
    for list in lists {
        note_turns(turns.as_mut_slice(), list.as_slice(), fronts.len());
        fronts.push_reserved(list.into_iter());
    }
    in_turns(alloc, turns.as_slice(), fronts)
}

// Notes that these entries are in the list at this place.
fn note_turns<E>(turns: &mut [usize], entries: &[Entry<E>], at: usize)
    requires { All (λ e. e.step < length turns.old) entries.now }
    ensures len { length turns.new ≡ length turns.old }
    ensures noted { All (λ e. slice_index turns.new e.step ≡ at) entries.now }
    ensures kept { (k : ℕ) → All (λ e. e.step ≢ k) entries.now → slice_index turns.new k ≡ slice_index turns.old k }
{
    for entry in entries {
        turns[entry.step as usize] = at;
    }
}

// Takes the next entry of the list whose turn it is, until each turn is over.
fn in_turns<E: Drop>(
    alloc: Global,
    turns: &[usize],
    mut fronts: Vec<IntoIter<Entry<E>>>,
) -> Result<Vec<Entry<E>>, NoMemory>
    requires { All (λ turn. turn < vec_len fronts) turns.now }
    ensures { IfOk result (λ v. AreInTurns v.items turns.now (map into_iter_items fronts.items)) }
{
    let mut merged = Vec::with_capacity(alloc, turns.len())?;
    for turn in turns {
        if let Some(entry) = fronts[*turn].next() {
            merged.push_reserved(entry);
        }
    }
    Ok(merged)
}
