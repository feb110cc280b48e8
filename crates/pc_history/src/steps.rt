//! The kinds of step on the table.
use crate::asked::Asked;
use crate::view::View;
use crate::world::World;
use atomic_table::{Join, Play, Split};
use pc_base::ActorId;
use std::marker::PhantomData;

/// The opener makes a seat.
pub(crate) struct Seating<J>(PhantomData<J>);

impl<W, E, J: Asked<ActorId>> Split<View<W, E>> for Seating<J> {
    ghost use Rattle.pc_history.specs.Steps.{after_seating, seated_view};

    ghost left = { after_seating J.asked };

    ghost right = { seated_view J.asked };
}

/// An actor makes a note of its entry at a place, with so many uses.
pub(crate) struct Noting<J>(PhantomData<J>);

impl<W, E, J: Asked<(usize, u32)>> Split<View<W, E>> for Noting<J> {
    ghost use Rattle.pc_history.specs.Steps.{after_noting, noted_view};

    ghost left = { after_noting J.asked };

    ghost right = { noted_view J.asked };
}

/// A note is copied, with so many of its uses.
pub(crate) struct Copying<J>(PhantomData<J>);

impl<W, E, J: Asked<u32>> Split<View<W, E>> for Copying<J> {
    ghost use Rattle.pc_history.specs.Steps.{after_copying, copied_view};

    ghost left = { after_copying J.asked };

    ghost right = { copied_view J.asked };
}

/// An actor takes a note.
pub(crate) struct Taking;

impl<W, E> Join<View<W, E>> for Taking {
    ghost use Rattle.pc_history.specs.Steps.{after_taking, spent};

    ghost both = { after_taking };

    ghost spent = { spent };
}

/// The opener takes an actor back.
pub(crate) struct HandingIn;

impl<W, E> Join<View<W, E>> for HandingIn {
    ghost use Rattle.pc_history.specs.Steps.{after_handing_in, spent};

    ghost both = { after_handing_in };

    ghost spent = { spent };
}

/// An actor makes an event.
pub(crate) struct Acting<J>(PhantomData<J>);

impl<W: World, J: Asked<W::Event>> Play<(), View<W, W::Event>> for Acting<J> {
    ghost use Rattle.pc_history.specs.Steps.{Acts};

    ghost then = { λ step. Acts W.sense J.asked };
}

/// An actor looks.
pub(crate) struct Looking;

impl<W: World> Play<(), View<W, W::Event>> for Looking {
    ghost use Rattle.pc_history.specs.Steps.{Looks};

    ghost then = { λ step. Looks W.sense };
}

/// The opener closes the history.
pub(crate) struct Closing;

impl<W: World> Play<(), View<W, W::Event>> for Closing {
    ghost use Rattle.pc_history.specs.Steps.{Closes};

    ghost then = { λ step. Closes W.sense };
}
