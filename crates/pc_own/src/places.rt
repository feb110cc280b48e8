ghost use Rattle.std.specs.Prelude.{◌≡◌, ◌∷◌, ◌++◌, [], List, None, OnOk, length};
ghost use Rattle.pc_own.specs.Places.{ArePlacesOf, place_by_sequence};
ghost use Rattle.pc_world.specs.Known.Writes.{Write};

use pc_base::NoMemory;
use std::alloc::Global;
use std::collections::BTreeMap;

/// The places of an epoch's writes by their sequences, and the greatest sequence.
#[derive(Drop)]
pub(crate) struct Places {
    pub places: BTreeMap<u32, usize>,
    pub last: u32,
}

impl Places {
    /// Nothing was written.
    pub(crate) fn new(alloc: Global) -> Places
        ensures { ArePlacesOf [] result }
    {
        Places {
            places: BTreeMap::new(alloc),
            last: 0,
        }
    }

    pub(crate) fn clear(&mut self)
        ensures { ArePlacesOf [] self.new }
    {
        self.places.clear();
        self.last = 0;
    }

    /// The place of the write of this sequence, if there is one.
    pub(crate) fn place(&self, seq: u32) -> Option<usize>
        ensures { (writes : List Write) → ArePlacesOf writes self.now → result ≡ place_by_sequence seq writes }
    {
        self.places.get(&seq).copied()
    }

    /// Takes one more write, of a sequence that no write has, which stands last. After a refusal nothing is known.
    pub(crate) fn add(&mut self, seq: u32, place: usize) -> Result<(), NoMemory>
        ensures { (writes : List Write) (w : Write) → ArePlacesOf writes self.old → w.seq ≡ seq → place ≡ length writes → place_by_sequence seq writes ≡ None → OnOk result (ArePlacesOf (writes ++ w ∷ []) self.new) }
    {
        self.places.insert(seq, place)?;
        self.last = self.last.max(seq);
        Ok(())
    }
}
