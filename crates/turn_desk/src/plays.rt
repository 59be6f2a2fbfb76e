//! What each step at the table tells.
ghost use Rattle.std.specs.Prelude.{ℕ};

use crate::pass::View;
use crate::turn::Turn;
use atomic_table::{Join, Play, Split};
use std::marker::{Brand, PhantomData};

/// A pass draws a ticket.
pub(crate) struct DrawTicket;

impl<V, A, B, O> Play<Option<V>, View<A, B, O>> for DrawTicket {
    ghost use Rattle.turn_desk.specs.Steps.{draws};

    ghost then = { draws };
}

/// A pass looks whether its ticket is served, and takes the value if it is.
pub(crate) struct LookForTurn<V> {
    of: PhantomData<V>,
}

impl<V: Turn> Play<Option<V>, View<V::Ask, V::Answer, V::Opening>> for LookForTurn<V> {
    ghost use Rattle.turn_desk.specs.Steps.{looks};

    ghost then = { looks V.history V.opening V.room };
}

/// A pass counts its turn, and the value is home again.
pub(crate) struct CountTurn<V> {
    of: PhantomData<V>,
}

impl<V: Turn> Play<Option<V>, View<V::Ask, V::Answer, V::Opening>> for CountTurn<V> {
    ghost use Rattle.turn_desk.specs.Steps.{counts};

    ghost then = { counts V.history };
}

/// A pass that took another one in looks at the line.
pub(crate) struct PutTogether;

impl<V, A, B, O> Play<Option<V>, View<A, B, O>> for PutTogether {
    ghost use Rattle.turn_desk.specs.Steps.{puts_together};

    ghost then = { puts_together };
}

/// How many parts are cut off. Each call picks it.
pub(crate) trait Parts {
    ghost parts: { ℕ };
}

impl Parts for Brand {
    ghost parts = { 0 };
}

/// Some parts are cut off a pass.
pub(crate) struct CutParts<N> {
    parts: PhantomData<N>,
}

impl<A, B, O, N: Parts> Split<View<A, B, O>> for CutParts<N> {
    ghost use Rattle.turn_desk.specs.Views.{cut, remaining};

    ghost left = { remaining N.parts };

    ghost right = { cut N.parts };
}

/// A pass takes another one in.
pub(crate) struct TakeIn;

impl<A, B, O> Join<View<A, B, O>> for TakeIn {
    ghost use Rattle.turn_desk.specs.Views.{taking_in, spent};

    ghost both = { taking_in };

    ghost spent = { spent };
}
