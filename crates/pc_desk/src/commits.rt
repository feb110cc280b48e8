ghost use Rattle.std.specs.Prelude.{◌≡◌, ◌-◌, ◌<◌, ◌≤◌, ◌^◌, false, length, All, IfOk, OnErr, OnOk};
ghost use Rattle.std.specs.BTreeMap.{get};
ghost use Rattle.pc_base.specs.Transaction.{txn_cmp};
ghost use Rattle.pc_desk.specs.Commits.{KeepsPlace, commit_told_by};
ghost use Rattle.pc_history.specs.Closed.{IsSound, StandsInHistory};
ghost use Rattle.pc_history.specs.Parts.{IsCausedFor, IsLocalFor, acted, knowledge};
ghost use Rattle.pc_world.specs.Run.{protocol, spends};

use pc_base::{NoMemory, TxnId};
use pc_history::{Actor, Named};
use pc_proto::{Answer, Event};
use pc_range::CommitWorld;
use std::collections::BTreeMap;

/// The transaction that the event tells committed.
fn commit_told_by(event: &Event) -> Option<TxnId>
    ensures { result ≡ commit_told_by event.now }
{
    match event {
        Event::Tell(Answer::Committed { id, .. }) => Some(*id),
        _ => None,
    }
}

/// Where the event tells a commit, that has this place from now on.
fn keep_place(
    places: &mut BTreeMap<TxnId, usize>,
    event: &Event,
    place: usize,
) -> Result<(), NoMemory>
    ensures kept { OnOk result (KeepsPlace (commit_told_by event.now) place (get txn_cmp places.old) (get txn_cmp places.new)) }
    ensures err { OnErr result (places.new.entries ≡ places.old.entries) }
{
    match commit_told_by(event) {
        Some(id) => {
            places.insert(id, place)?;
            Ok(())
        }
        None => Ok(()),
    }
}

/// Makes the event; where it tells a commit, its place is found from now on. Gives its step.
pub(crate) fn make<N: Named<CommitWorld>>(
    actor: &mut Actor<CommitWorld, N>,
    places: &mut BTreeMap<TxnId, usize>,
    event: Event,
) -> Result<u64, NoMemory>
    requires spare { 1 ≤ actor.old.spare }
    requires short { length actor.old.part.own < 2 ^ 32 }
    requires local { IsLocalFor (protocol actor.old.world) actor.old.part event }
    requires caused { IsCausedFor (protocol actor.old.world) actor.old.part event }
    requires free { spends event ≡ false }
    ensures stored { IfOk result (λ step. actor.new ≡ record actor.old {
      part = acted (protocol actor.old.world) step event actor.old.part;
      spare = actor.old.spare - 1;
    }) }
    ensures above { IfOk result (λ step. All (λ e. e.step < step) (knowledge actor.old.part)) }
    ensures small { IfOk result (λ step. step < 2 ^ 48) }
    ensures sound { OnOk result (IsSound (protocol actor.old.world) (knowledge actor.new.part)) }
    ensures stands { OnOk result (StandsInHistory (protocol actor.old.world) actor.new.part) }
    ensures places { OnOk result (KeepsPlace (commit_told_by event) (length actor.old.part.own) (get txn_cmp places.old) (get txn_cmp places.new)) }
    ensures err { OnErr result ((actor.new ≡ actor.old) × (places.new.entries ≡ places.old.entries)) }
{
    let place = actor.entries().len();
    keep_place(places, &event, place)?;
    Ok(actor.act(event))
}
