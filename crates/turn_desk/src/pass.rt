ghost use Rattle.std.specs.Prelude.{◌≡◌, []};
ghost use Rattle.turn_desk.specs.Views.{IsIdle};

use crate::line::Noted;
use crate::turn::Turn;
use atomic_table::{Seat, TableRule};
use std::collections::LinkedList;
use std::marker::PhantomData;
use std::snapshot::Snapshot;

/// What a pass knows. No value of it is made.
pub struct View<A, B, O> {
    /// How many turns it may take, those that it took counted.
    pub parts: u64,
    /// What the value opened with; none where the pass was joined into another.
    pub opening: Option<O>,
    /// The beginning of the line that it has seen.
    pub notes: LinkedList<Noted<A, B>>,
    /// What a pass that was joined into it had noted, until it looks at the line.
    pub beside: LinkedList<Noted<A, B>>,
    /// Its place, where it waits or is served.
    pub ticket: Option<u64>,
    /// Whether it has the value in hand.
    pub serves: bool,
}

/// What the table is told when it is made.
#[derive(Drop)]
pub struct Key<V> {
    /// The parts of all passes together.
    pub parts: u32,
    /// The value as it came to the desk.
    pub first: Snapshot<V>,
}

/// What holds of the table between any two steps.
pub struct DeskRule<V> {
    of: PhantomData<V>,
}

impl<V: Turn> TableRule<Option<V>, View<V::Ask, V::Answer, V::Opening>, Key<V>> for DeskRule<V> {
    ghost use Rattle.turn_desk.specs.Rule.{IsKept};
    ghost use Rattle.turn_desk.specs.Views.{newcomer};

    ghost holds = { λ key. IsKept V.history V.opening V.room key };

    ghost first = { λ key. newcomer key.parts (V.opening key.first.value) };
}

/// A pass at the table, which may be in the midst of a turn.
pub(crate) type Hand<V> = Seat<
    Option<V>,
    View<<V as Turn>::Ask, <V as Turn>::Answer, <V as Turn>::Opening>,
>;

/// The right to a number of turns at a desk. One that is dropped takes its parts along, and then nobody can close the desk.
#[derive(Drop)]
pub struct Pass<V: Turn> {
    pub(crate) hand: Hand<V>,
    ghost empty: { hand.me.1 ≡ [] },
    ghost idle: { IsIdle hand.me.0 },
}
