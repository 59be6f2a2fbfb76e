ghost use Rattle.std.specs.Prelude.{◌≡◌, ℕ, ◌<◌, ◌≤◌, ◌+◌, ◌++◌, ◌∷◌, [], length, IfOk};
ghost use mathlib.Core.List.{IsPrefix};
ghost use Rattle.turn_desk.specs.Line.{entry_of, served, owns_at, AddsTurn, Merges};

use crate::pass::{DeskRule, Key, Pass, View};
use crate::plays::{CutParts, Parts, PutTogether, TakeIn};
use crate::turn::Turn;
use atomic_table::Table;
use ind_base::NoMemory;
use std::alloc::Global;
use std::marker::Brand;
use std::snapshot::Snapshot;
use std::sync::Wait;

/// A value that threads take in turns, each pass as often as it has parts.
#[derive(Drop)]
pub struct Desk<V: Turn + Drop> {
    pub(crate) table: Table<
        Option<V>,
        View<V::Ask, V::Answer, V::Opening>,
        Key<V>,
        DeskRule<V>,
        Global,
    >,
    ghost sized: { (table.shared.table_id.words ≡ 2) × (table.shared.table_id.slots ≡ 1) },
}

impl<V: Turn + Drop> Desk<V> {
    ghost use Rattle.turn_desk.specs.Views.{remaining, cut};
    ghost use Rattle.turn_desk.specs.Passes.{IsPassOf, known, opening_of, all_parts, parts_of, notes_of, seen, turns};

    /// Puts a value at a desk, with a pass that has all parts: each is one turn. Where memory doesn't suffice the value is dropped.
    pub fn begin(alloc: Global, value: V, parts: u32) -> Result<(Desk<V>, Pass<V>), NoMemory>
        requires empty { V.history value ≡ [] }
        requires room { (0 < parts) × (parts ≤ V.room (V.opening value)) }
        ensures own { IfOk result (λ made. IsPassOf made.0 made.1) }
        ensures opening { IfOk result (λ made. opening_of V.opening made.0 ≡ V.opening value) }
        ensures parts { IfOk result (λ made. (parts_of made.1 ≡ parts) × (all_parts made.0 ≡ parts)) }
        ensures fresh { IfOk result (λ made. notes_of made.1 ≡ []) }
    {
        let key = Key {
            parts,
            first: Snapshot::of(&value),
        };
        let mut slots = Vec::new(alloc);
        slots.push(Some(value))?;
        match Table::new(alloc, &[0, 0], slots, &key) {
            Ok((table, hand)) => Ok((Desk { table }, Pass { hand })),
            Err(_) => Err(NoMemory),
        }
    }

    /// Waits for the pass's turn, and asks. Where the value has no memory for it, the turn stands in the line as a blank one, and is used up like any other.
    pub fn turn<R: Wait>(
        &self,
        rt: &R,
        pass: &mut Pass<V>,
        ask: V::Ask,
    ) -> Result<V::Answer, NoMemory>
        requires own { IsPassOf self.now pass.old }
        requires fits { V.fits (opening_of V.opening self.now) ask }
        requires parts { length (turns pass.old) < parts_of pass.old }
        ensures own { IsPassOf self.now pass.new }
        ensures parts { parts_of pass.new ≡ parts_of pass.old }
        ensures answer { IfOk result (λ answer. V.is_answer (opening_of V.opening self.now) answer) }
        // The turn comes after all that the pass had seen, and is seen.
        ensures line { AddsTurn (notes_of pass.old) (entry_of ask result) (notes_of pass.new) }
        ensures turns { turns pass.new ≡ turns pass.old ++ entry_of ask result ∷ [] }
    {
        let mut value = self.take(rt, &mut pass.hand);
        let answer = value.turn(ask);
        self.put_back(&mut pass.hand, value);
        answer
    }

    fn cut<N: Parts>(&self, pass: &mut Pass<V>, parts: u32) -> Pass<V>
        requires picked { parts ≡ N.parts }
        requires own { IsPassOf self.now pass.old }
        requires parts { (0 < N.parts) × (N.parts < parts_of pass.old) × (length (turns pass.old) + N.parts ≤ parts_of pass.old) }
        ensures own { IsPassOf self.now pass.new × IsPassOf self.now result }
        ensures left { known pass.new ≡ remaining N.parts (known pass.old) }
        ensures right { known result ≡ cut N.parts (known pass.old) }
    {
        Pass {
            hand: self.table.shared.split_seat::<CutParts<N>>(&mut pass.hand),
        }
    }

    /// Gives parts of a pass to a new one.
    pub fn split_pass(&self, pass: &mut Pass<V>, parts: u32) -> Pass<V>
        requires own { IsPassOf self.now pass.old }
        // What the pass keeps is at least 1, and at least the turns that it took.
        requires parts { (0 < parts) × (parts < parts_of pass.old) × (length (turns pass.old) + parts ≤ parts_of pass.old) }
        ensures own { IsPassOf self.now pass.new × IsPassOf self.now result }
        ensures parts { (parts_of pass.new + parts ≡ parts_of pass.old) × (parts_of result ≡ parts) }
        ensures same { notes_of pass.new ≡ notes_of pass.old }
        ensures fresh { (seen result ≡ seen pass.old) × (turns result ≡ []) }
    {
        self.cut::<Brand>(pass, parts)
    }

    /// Takes another pass in, with its parts and its turns.
    pub fn join_pass(&self, into: &mut Pass<V>, from: Pass<V>)
        requires own { IsPassOf self.now into.old × IsPassOf self.now from }
        ensures own { IsPassOf self.now into.new }
        ensures parts { parts_of into.new ≡ parts_of into.old + parts_of from }
        ensures seen { IsPrefix (seen into.old) (seen into.new) × IsPrefix (seen from) (seen into.new) }
        // Each turn stays at its place, and no place is of both.
        ensures places { (p : ℕ) → owns_at p (notes_of into.new) ≡ owns_at p (notes_of into.old) + owns_at p (notes_of from) }
        ensures turns { Merges (turns into.old) (turns from) (turns into.new) }
    {
        let Pass { hand } = from;
        self.table.shared.join_seat::<TakeIn>(&mut into.hand, hand);
        // The join itself tells nothing of where the turns stand: a look at the line does.
        self.table.shared.load::<PutTogether>(&mut into.hand, 0);
    }

    /// Gives the value back, once all passes were joined into this one.
    pub fn close(self, pass: Pass<V>) -> V
        requires own { IsPassOf self pass }
        requires all { parts_of pass ≡ all_parts self }
        ensures opening { V.opening result ≡ opening_of V.opening self }
        ensures history { V.history result ≡ served (turns pass) }
        // The pass has seen the whole line, and each turn of it is its own.
        ensures whole { turns pass ≡ seen pass }
    {
        let Desk { table } = self;
        let Pass { hand } = pass;
        let mut closed = table.close_with(hand);
        let slot = closed.take(0);
        closed.free();
        match slot {
            Some(value) => value,
            None => unreachable!(),
        }
    }
}
