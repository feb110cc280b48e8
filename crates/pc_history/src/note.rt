ghost use Rattle.std.specs.Prelude.{◌≡◌, ◌≤◌, IfOk, OnOk, OnErr, Some};
ghost use Rattle.pc_history.specs.Parts.{uses_left, without_uses, with_uses};
ghost use Rattle.pc_history.specs.Ties.{NoteIsTied, NoteFields};

use crate::asked::Asked;
use crate::blank::{StepSeat, StepTable};
use crate::named::Named;
use crate::steps::Copying;
use crate::world::World;
use pc_base::NoMemory;
use std::alloc::Global;
use std::marker::{Brand, Model, PhantomData};
use std::sync::Arc;

/// Tells whoever takes it of one entry of its actor. The one `known` that contracts see is that entry, with its place in its actor's list and
/// how many uses of it come with the note.
#[derive(Drop)]
pub struct Note<W: World, N: Named<W>> {
    table: Arc<StepTable<W>, Global>,
    seat: StepSeat<W>,
    name: PhantomData<N>,
}

impl<W: World, N: Named<W>> Model for Note<W, N> {
    ghost use Rattle.pc_history.specs.Meanings.{NoteMeaning};
    ghost use Rattle.pc_history.specs.Ties.{NoteIsTied};

    ghost Value = { NoteMeaning W W.Event };

    ghost view = { λ n. record { world = n.table.value.shared.key; known = n.seat.me.0.part.known } };

    ghost invariant = { λ n. NoteIsTied N.table N.world n.table.value.shared.key n.table.value.shared.table_id n.seat.table_id n.seat.me };
}

impl<W: World, N: Named<W>> Note<W, N> {
    /// Copies a note. The copy gets so many of its uses.
    pub fn again(&mut self, uses: u32) -> Result<Note<W, N>, NoMemory>
        requires { uses ≤ uses_left self.old.known }
        ensures same { self.new.world ≡ self.old.world }
        ensures copy { IfOk result (λ n.
            (n.world ≡ self.old.world) × (n.known ≡ with_uses uses self.old.known)) }
        ensures rest { OnOk result (self.new.known ≡ without_uses uses self.old.known) }
        ensures err { OnErr result (self.new ≡ self.old) }
    {
        let table = self.table.clone()?;
        Ok(self.again_as::<Brand>(table, uses))
    }

    fn again_as<J: Asked<u32>>(&mut self, table: Arc<StepTable<W>, Global>, uses: u32) -> Note<W, N>
        requires asked { J.asked ≡ Some uses }
        requires same { (table.value.shared.key ≡ self.old.world) × (table.value.shared.table_id ≡ N.table) }
        requires enough { uses ≤ uses_left self.old.known }
        ensures copy { (result.world ≡ self.old.world) × (result.known ≡ with_uses uses self.old.known) }
        ensures rest { self.new ≡ record self.old { known = without_uses uses self.old.known } }
    {
        let seat = self.table.shared.split_seat::<Copying<J>>(&mut self.seat);
        Note::of(table, seat)
    }

    pub(crate) fn of(table: Arc<StepTable<W>, Global>, seat: StepSeat<W>) -> Note<W, N>
        requires { NoteIsTied N.table N.world table.value.shared.key table.value.shared.table_id seat.table_id seat.me }
        ensures { (result.world ≡ table.value.shared.key) × (result.known ≡ seat.me.0.part.known) }
    {
        Note {
            table,
            seat,
            name: PhantomData,
        }
    }

    pub(crate) fn into_seat(self) -> StepSeat<W>
        ensures tied { NoteFields N.table N.world self result.table_id result.me }
    {
        let Note {
            table: _,
            seat,
            name: _,
        } = self;
        seat
    }
}
