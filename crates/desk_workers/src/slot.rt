ghost use Rattle.std.specs.Prelude.{◌≡◌, ◌<◌, ◌≤◌, ◌+◌, [], IfOk, IfSome};
ghost use Rattle.turn_desk.specs.Passes.{IsPassOf, all_parts, opening_of, parts_of, turns};
ghost use Rattle.desk_workers.specs.Standing.{IsFresh, TakesBack, Answered};

use ind_base::NoMemory;
use std::alloc::Global;
use turn_desk::{Desk, Pass, Turn};

/// What is at hand of a desk's passes.
#[derive(Drop)]
pub(crate) struct Slot<V: Turn> {
    pub pass: Option<Pass<V>>,
    /// How many parts are left to give.
    pub parts: u32,
}

impl<V: Turn + Drop> Slot<V> {
    /// Puts a value at a desk for so many asks. A desk without any has one part.
    pub fn begin(alloc: Global, value: V, asks: u32) -> Result<(Desk<V>, Slot<V>), NoMemory>
        requires empty { V.history value ≡ [] }
        requires room { (0 < V.room (V.opening value)) × (asks ≤ V.room (V.opening value)) }
        ensures opening { IfOk result (λ made. opening_of V.opening made.0 ≡ V.opening value) }
        ensures fresh { IfOk result (λ made. IsFresh made.0 made.1) }
        ensures parts { IfOk result (λ made. (made.1.parts ≡ all_parts made.0) × (asks ≤ all_parts made.0) × (0 < all_parts made.0)) }
    {
        let parts = if asks == 0 { 1 } else { asks };
        let (desk, pass) = Desk::begin(alloc, value, parts)?;
        Ok((
            desk,
            Slot {
                pass: Some(pass),
                parts,
            },
        ))
    }

    /// Gives a pass with so many parts. The last one is what is left of the desk's own.
    pub fn give(&mut self, desk: &Desk<V>, parts: u32) -> Pass<V>
        requires fresh { IsFresh desk.now self.old }
        requires parts { (0 < parts) × (parts ≤ self.old.parts) }
        ensures fresh { IsFresh desk.now self.new }
        ensures left { self.new.parts + parts ≡ self.old.parts }
        ensures own { IsPassOf desk.now result }
        ensures parts { (parts_of result ≡ parts) × (turns result ≡ []) }
    {
        let mut pass = match self.pass.take() {
            Some(pass) => pass,
            None => unreachable!(),
        };
        if parts < self.parts {
            let given = desk.split_pass(&mut pass, parts);
            self.pass = Some(pass);
            self.parts -= parts;
            given
        } else {
            self.parts = 0;
            pass
        }
    }

    /// Takes a pass back that has put its asks.
    pub fn take_back(&mut self, desk: &Desk<V>, from: Pass<V>)
        requires own { IsPassOf desk.now from × IfSome self.old.pass (λ pass. IsPassOf desk.now pass) }
        requires answers { Answered V.is_answer (opening_of V.opening desk.now) (turns from) }
        ensures back { TakesBack V.is_answer V.opening desk.now from self.old.pass self.new.pass }
    {
        let pass = match self.pass.take() {
            None => from,
            Some(mut pass) => {
                desk.join_pass(&mut pass, from);
                pass
            }
        };
        self.pass = Some(pass);
    }
}
