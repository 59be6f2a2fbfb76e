//! The steps of a turn. In their midst a pass is not idle, so they work on its seat at the table.
ghost use Rattle.std.specs.Prelude.{◌≡◌, ◌<◌, true, false, [], ◌∷◌, Some, None, IsTrue};
ghost use Rattle.turn_desk.specs.Views.{IsIdle, taken};
ghost use Rattle.turn_desk.specs.Steps.{drawn, SeesMore, Takes, IsTaken, IsTurned, IsReady, IsCounted, Ends};
ghost use Rattle.turn_desk.specs.Passes.{IsHandOf};

use crate::desk::Desk;
use crate::pass::Hand;
use crate::plays::{CountTurn, DrawTicket, LookForTurn};
use crate::turn::Turn;
use std::sync::Wait;
use std::thread;

const SERVING: usize = 0;

const TICKET: usize = 1;

impl<V: Turn + Drop> Desk<V> {
    fn draw(&self, hand: &mut Hand<V>) -> u64
        requires own { IsHandOf self.now hand.old }
        requires idle { IsIdle hand.old.me.0 × (hand.old.me.1 ≡ []) }
        requires parts { taken hand.old.me.0 < hand.old.me.0.parts }
        ensures own { IsHandOf self.now hand.new }
        ensures ticket { hand.new.me ≡ (drawn hand.old.me.0 result, []) }
    {
        self.table.shared.fetch_add::<DrawTicket>(hand, TICKET, 1)
    }

    // Whether the ticket is served. The value then belongs to the hand, and lies in its slot until it is taken out.
    fn look(&self, hand: &mut Hand<V>, ticket: u64) -> bool
        requires own { IsHandOf self.now hand.old }
        requires waits { (hand.old.me.0.ticket ≡ Some ticket) × (hand.old.me.0.serves ≡ false) }
        requires empty { hand.old.me.1 ≡ [] }
        ensures own { IsHandOf self.now hand.new }
        ensures yes { IsTrue result → Takes V.history V.opening V.room hand.old.me hand.new.me }
        ensures no { result ≡ false → SeesMore hand.old.me.0 hand.new.me.0 × (hand.new.me.1 ≡ []) }
    {
        self.table.shared.load::<LookForTurn<V>>(hand, SERVING) == ticket
    }

    fn wait<R: Wait>(&self, rt: &R, hand: &mut Hand<V>, ticket: u64)
        requires own { IsHandOf self.now hand.old }
        requires waits { (hand.old.me.0.ticket ≡ Some ticket) × (hand.old.me.0.serves ≡ false) }
        requires empty { hand.old.me.1 ≡ [] }
        ensures own { IsHandOf self.now hand.new }
        ensures takes { Takes V.history V.opening V.room hand.old.me hand.new.me }
    {
        for _ in rt.forever() {
            let served = self.look(hand, ticket);
            if served {
                return;
            }
            thread::yield_now();
        }
        unreachable!()
    }

    /// Waits for a turn, and takes the value out of its slot.
    pub(crate) fn take<R: Wait>(&self, rt: &R, hand: &mut Hand<V>) -> V
        requires own { IsHandOf self.now hand.old }
        requires idle { IsIdle hand.old.me.0 × (hand.old.me.1 ≡ []) }
        requires parts { taken hand.old.me.0 < hand.old.me.0.parts }
        ensures own { IsHandOf self.now hand.new }
        ensures takes { IsTaken V.history V.opening V.room hand.old.me.0 result hand.new.me }
    {
        let ticket = self.draw(hand);
        self.wait(rt, hand, ticket);
        let Some(value) = self.table.shared.exchange(hand, 0, None) else {
            unreachable!()
        };
        value
    }

    fn put_home(&self, hand: &mut Hand<V>, value: V)
        requires own { IsHandOf self.now hand.old }
        requires out { hand.old.me.1 ≡ (0, None) ∷ [] }
        ensures own { IsHandOf self.now hand.new }
        ensures home { hand.new.me ≡ (hand.old.me.0, (0, Some value) ∷ []) }
    {
        self.table.shared.exchange(hand, 0, Some(value));
    }

    // After this step the next ticket is served.
    fn count(&self, hand: &mut Hand<V>)
        requires own { IsHandOf self.now hand.old }
        requires serves { hand.old.me.0.serves ≡ true }
        requires home { IsReady V.history V.opening hand.old.me }
        ensures own { IsHandOf self.now hand.new }
        ensures counted { IsCounted V.history hand.old.me hand.new.me }
    {
        self.table
            .shared
            .fetch_add::<CountTurn<V>>(hand, SERVING, 1);
    }

    /// Puts the value back into its slot, and counts the turn.
    pub(crate) fn put_back(&self, hand: &mut Hand<V>, value: V)
        requires own { IsHandOf self.now hand.old }
        requires out { hand.old.me.1 ≡ (0, None) ∷ [] }
        requires serves { hand.old.me.0.serves ≡ true }
        requires turned { IsTurned V.history V.opening hand.old.me.0 value }
        ensures own { IsHandOf self.now hand.new }
        ensures ends { Ends V.history hand.old.me.0 value hand.new.me }
    {
        // The next ticket is served once the turn is counted, so the value has to be home by then.
        self.put_home(hand, value);
        self.count(hand);
    }
}
