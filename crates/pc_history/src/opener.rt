ghost use Rattle.std.specs.Prelude.{◌≡◌, ◌<◌, ◌++◌, ◌∷◌, [], ◌&&◌, true, false, is_ok, length, IfOk, OnOk, OnErr, IsErr, Contains, Some};
ghost use Rattle.pc_history.specs.Parts.{newcomer};
ghost use Rattle.pc_history.specs.Closed.{AllHandedIn, IsHistoryOf};

use crate::actor::Actor;
use crate::asked::Asked;
use crate::blank::{Blank, StepSeat, StepTable};
use crate::merge::merge;
use crate::named::Named;
use crate::steps::{Closing, HandingIn, Seating};
use crate::world::World;
use pc_base::{ActorId, Entry, NoMemory};
use std::alloc::Global;
use std::marker::{Brand, Model, PhantomData};
use std::sync::Arc;

/// Seats the actors of one history, and closes it once all of them were handed in.
#[derive(Drop)]
pub struct Opener<W: World, N: Named<W>> {
    alloc: Global,
    table: Arc<StepTable<W>, Global>,
    seat: StepSeat<W>,
    lists: Vec<Vec<Entry<W::Event>>>,
    whole: bool,
    name: PhantomData<N>,
}

impl<W: World, N: Named<W>> Model for Opener<W, N> {
    ghost use Rattle.pc_history.specs.Meanings.{OpenerMeaning};
    ghost use Rattle.std.specs.Prelude.{map, vec_items};
    ghost use Rattle.pc_history.specs.Ties.{OpenerIsTied};

    ghost Value = { OpenerMeaning W W.Event };

    ghost view = { λ o. record { world = o.table.value.shared.key; seated = o.seat.me.0.seated; parts = o.seat.me.0.parts; whole = o.whole } };

    ghost invariant = { λ o. OpenerIsTied N.table N.world o.table.value.shared.key o.table.value.shared.table_id o.seat.table_id o.seat.me o.whole (map vec_items o.lists.items) };
}

impl<W: World, N: Named<W>> Opener<W, N> {
    /// Opens the history of a table that `N` names.
    pub fn start(blank: Blank<W>) -> Opener<W, N>
        requires { (blank.table ≡ N.table) × (N.world ≡ Some blank.world) }
        ensures { result ≡ record { world = blank.world; seated = []; parts = []; whole = true } }
    {
        let Blank { alloc, table, seat } = blank;
        Opener {
            alloc,
            table,
            seat,
            lists: Vec::new(alloc),
            whole: true,
            name: PhantomData,
        }
    }

    /// Seats an actor. A seat is for good: its id is never seated again.
    pub fn seat(&mut self, id: ActorId) -> Result<Actor<W, N>, NoMemory>
        requires free { Contains self.old.seated id → ⊥ }
        requires few { length self.old.seated < 65536 }
        ensures same { self.new ≡ record self.old { seated = self.new.seated } }
        ensures actor { IfOk result (λ a. (a.world ≡ self.old.world) × (a.part ≡ newcomer id)) }
        ensures seated { OnOk result (self.new.seated ≡ self.old.seated ++ id ∷ []) }
        ensures err { OnErr result (self.new ≡ self.old) }
    {
        let table = self.table.clone()?;
        Ok(self.seat_as::<Brand>(table, id))
    }

    fn seat_as<J: Asked<ActorId>>(
        &mut self,
        table: Arc<StepTable<W>, Global>,
        id: ActorId,
    ) -> Actor<W, N>
        requires asked { J.asked ≡ Some id }
        requires same { (table.value.shared.key ≡ self.old.world) × (table.value.shared.table_id ≡ N.table) }
        requires free { Contains self.old.seated id → ⊥ }
        requires few { length self.old.seated < 65536 }
        ensures actor { (result.world ≡ self.old.world) × (result.part ≡ newcomer id) }
        ensures opener { self.new ≡ record self.old { seated = self.old.seated ++ id ∷ [] } }
    {
        let seat = self.table.shared.split_seat::<Seating<J>>(&mut self.seat);
        Actor::of(table, seat, id, Vec::new(self.alloc))
    }

    /// Takes an actor back, with its part of the history. After a refusal `close` answers want of memory.
    pub fn hand_in(&mut self, actor: Actor<W, N>) -> Result<(), NoMemory>
        ensures parts { self.new ≡ record self.old {
          parts = self.old.parts ++ actor.part ∷ [];
          whole = self.old.whole && is_ok result;
        } }
        ensures world { actor.world ≡ self.old.world }
    {
        let (seat, entries) = actor.into_fields();
        self.table
            .shared
            .join_seat::<HandingIn>(&mut self.seat, seat);
        if let Err(error) = self.lists.push(entries) {
            self.whole = false;
            return Err(NoMemory::from(error));
        }
        Ok(())
    }

    /// The one history, in the order of its numbers.
    pub fn close(mut self) -> Result<Vec<Entry<W::Event>>, NoMemory>
        requires { AllHandedIn self.seated self.parts }
        ensures history { IfOk result (λ entries.
            IsHistoryOf (W.sense self.world) entries.items self.parts) }
        ensures refused { self.whole ≡ false → IsErr result }
    {
        let steps = self.table.shared.load::<Closing>(&mut self.seat, 0);
        let Opener {
            alloc,
            table: _,
            seat: _,
            lists,
            whole,
            name: _,
        } = self;
        if !whole {
            return Err(NoMemory);
        }
        merge(alloc, lists, steps as usize)
    }
}
