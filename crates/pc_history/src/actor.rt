ghost use Rattle.std.specs.Prelude.{◌≡◌, ℕ, ◌<◌, ◌≤◌, ◌-◌, ◌^◌, length, IsOk, OnOk, OnErr, IfOk, Some, All};
ghost use Rattle.pc_history.specs.Own.{entries_of};
ghost use Rattle.pc_history.specs.Parts.{knowledge, CanSpend, IsCausedFor, IsLocalFor, acted, gave, noted, told};
ghost use Rattle.pc_history.specs.Closed.{IsSound, StandsInHistory};
ghost use Rattle.pc_history.specs.Steps.{TellsAct, TellsLook};
ghost use Rattle.pc_history.specs.Ties.{ActorIsTied, ActorFields};

use crate::asked::Asked;
use crate::blank::{StepSeat, StepTable};
use crate::named::Named;
use crate::note::Note;
use crate::steps::{Acting, Looking, Noting, Taking};
use crate::world::World;
use pc_base::{ActorId, Entry, NoMemory};
use std::alloc::Global;
use std::marker::{Brand, Model, PhantomData};
use std::sync::Arc;

/// Makes and stores the events of one id.
#[derive(Drop)]
pub struct Actor<W: World, N: Named<W>> {
    table: Arc<StepTable<W>, Global>,
    seat: StepSeat<W>,
    id: ActorId,
    entries: Vec<Entry<W::Event>>,
    name: PhantomData<N>,
}

impl<W: World, N: Named<W>> Model for Actor<W, N> {
    ghost use Rattle.std.specs.Prelude.{◌-◌, vec_len, vec_capacity};
    ghost use Rattle.pc_history.specs.Meanings.{ActorMeaning};
    ghost use Rattle.pc_history.specs.Ties.{ActorIsTied, ActorFields};

    ghost Value = { ActorMeaning W W.Event };

    ghost view = { λ a. record { world = a.table.value.shared.key; part = a.seat.me.0.part; spare = vec_capacity a.entries - vec_len a.entries } };

    ghost invariant = { λ a. ActorIsTied N.table N.world a.table.value.shared.key a.table.value.shared.table_id a.seat.table_id a.seat.me a.id a.entries.items };
}

impl<W: World, N: Named<W>> Actor<W, N> {
    /// The id that it was seated with.
    pub fn id(&self) -> ActorId
        ensures { result ≡ self.now.part.id }
    {
        self.id
    }

    /// Its part of the history.
    pub fn entries(&self) -> &[Entry<W::Event>]
        ensures { result.now ≡ entries_of self.now.part.own }
    {
        self.entries.as_slice()
    }

    /// Makes room for one more entry.
    pub fn room(&mut self) -> Result<(), NoMemory>
        ensures same { (self.new.world ≡ self.old.world) × (self.new.part ≡ self.old.part) }
        ensures ok { OnOk result (1 ≤ self.new.spare) }
        ensures err { OnErr result (self.new ≡ self.old) }
        ensures succeeds { 1 ≤ self.old.spare → IsOk result }
    {
        self.entries.reserve(1)?;
        Ok(())
    }

    /// Takes the next number for the event, and stores the entry.
    pub fn act(&mut self, event: W::Event) -> u64
        requires spare { 1 ≤ self.old.spare }
        requires short { length self.old.part.own < 2 ^ 32 }
        requires local { IsLocalFor (W.sense self.old.world) self.old.part event }
        requires caused { IsCausedFor (W.sense self.old.world) self.old.part event }
        requires can_spend { CanSpend (W.sense self.old.world) self.old.part event }
        ensures stored { self.new ≡ record self.old {
          part = acted (W.sense self.old.world) result event self.old.part;
          spare = self.old.spare - 1;
        } }
        ensures above { All (λ e. e.step < result) (knowledge self.old.part) }
        ensures sound { IsSound (W.sense self.old.world) (knowledge self.new.part) }
        ensures stands { StandsInHistory (W.sense self.old.world) self.new.part }
        ensures small { result < 2 ^ 48 }
    {
        self.act_as::<Brand>(event)
    }

    /// Gives a note of its own entry at a place, with so many uses: how often the entry may be spent by those who get the note.
    pub fn note(&mut self, place: usize, uses: u32) -> Result<Note<W, N>, NoMemory>
        requires { place < length self.old.part.own }
        ensures same { self.new ≡ record self.old {
          part = record self.old.part { given = self.new.part.given };
        } }
        ensures note { IfOk result (λ n.
            (n.world ≡ self.old.world) × (n.known ≡ noted place uses self.old.part)) }
        ensures given { OnOk result (self.new.part ≡ gave place uses self.old.part) }
        ensures err { OnErr result (self.new ≡ self.old) }
    {
        let table = self.table.clone()?;
        Ok(self.note_as::<Brand>(table, (place, uses)))
    }

    /// Knows the entry of a note from now on, with its place, and has the note's uses.
    pub fn take(&mut self, note: Note<W, N>)
        ensures told { self.new ≡ record self.old { part = told note.known self.old.part } }
        ensures world { note.world ≡ self.old.world }
        ensures sound { IsSound (W.sense self.old.world) (knowledge self.new.part) }
        ensures stands { StandsInHistory (W.sense self.old.world) self.new.part }
    {
        let seat = note.into_seat();
        self.table.shared.join_seat::<Taking>(&mut self.seat, seat);
        self.look();
    }

    /// How many steps were taken so far.
    pub fn look(&mut self) -> u64
        ensures same { self.new ≡ self.old }
        ensures above { All (λ e. e.step < result) (knowledge self.old.part) }
        ensures sound { IsSound (W.sense self.old.world) (knowledge self.old.part) }
        ensures stands { StandsInHistory (W.sense self.old.world) self.old.part }
        ensures small { result ≤ 2 ^ 48 }
    {
        self.table.shared.load::<Looking>(&mut self.seat, 0)
    }

    fn act_as<J: Asked<W::Event>>(&mut self, event: W::Event) -> u64
        requires asked { J.asked ≡ Some event }
        requires spare { 1 ≤ self.old.spare }
        requires short { length self.old.part.own < 2 ^ 32 }
        requires local { IsLocalFor (W.sense self.old.world) self.old.part event }
        requires caused { IsCausedFor (W.sense self.old.world) self.old.part event }
        requires can_spend { CanSpend (W.sense self.old.world) self.old.part event }
        ensures stored { self.new ≡ record self.old {
          part = acted (W.sense self.old.world) result event self.old.part;
          spare = self.old.spare - 1;
        } }
        ensures tells { TellsAct (W.sense self.old.world) self.old.part result event }
    {
        let step = self
            .table
            .shared
            .fetch_add::<Acting<J>>(&mut self.seat, 0, 1);
        let actor = self.id;
        let entry = Entry { step, actor, event };
        self.entries.push_reserved(entry);
        step
    }

    fn note_as<J: Asked<(usize, u32)>>(
        &mut self,
        table: Arc<StepTable<W>, Global>,
        asked: (usize, u32),
    ) -> Note<W, N>
        requires asked { J.asked ≡ Some asked }
        requires same { (table.value.shared.key ≡ self.old.world) × (table.value.shared.table_id ≡ N.table) }
        requires within { asked.0 < length self.old.part.own }
        ensures note { (result.world ≡ self.old.world) × (result.known ≡ noted asked.0 asked.1 self.old.part) }
        ensures actor { self.new ≡ record self.old { part = gave asked.0 asked.1 self.old.part } }
    {
        let seat = self.table.shared.split_seat::<Noting<J>>(&mut self.seat);
        Note::of(table, seat)
    }
}

impl<W: World, N: Named<W>> Actor<W, N> {
    pub(crate) fn of(
        table: Arc<StepTable<W>, Global>,
        seat: StepSeat<W>,
        id: ActorId,
        entries: Vec<Entry<W::Event>>,
    ) -> Actor<W, N>
        requires { ActorIsTied N.table N.world table.value.shared.key table.value.shared.table_id seat.table_id seat.me id entries.items }
        ensures { (result.world ≡ table.value.shared.key) × (result.part ≡ seat.me.0.part) }
    {
        Actor {
            table,
            seat,
            id,
            entries,
            name: PhantomData,
        }
    }

    // Its seat and its entries.
    pub(crate) fn into_fields(self) -> (StepSeat<W>, Vec<Entry<W::Event>>)
        ensures tied { ActorFields N.table N.world self result.0.table_id result.0.me result.1.items }
    {
        let Actor {
            table: _,
            seat,
            id: _,
            entries,
            name: _,
        } = self;
        (seat, entries)
    }
}
