//! Points that change without memory, where there is room for all runs that there can be.

ghost use Rattle.std.specs.Prelude.{◌≡◌, ◌+◌, ◌<◌, ◌≤◌, ℕ, true, IfOk, OnOk};
ghost use Rattle.partition_locks.specs.Held.{IsAbove, IsFree, held_times, holds_all, is_roomy, point_times};

use crate::edits::{add, take_out};
use crate::points::Points;
use ind_base::{NoMemory, Span};
use std::alloc::Global;

impl Points {
    /// Makes room for all runs that there can be of points below 1024. What is held stays.
    pub fn make_roomy(&mut self) -> Result<(), NoMemory>
        requires { IsAbove 1024 self.old }
        ensures ok { OnOk result (is_roomy self.new ≡ true) }
        ensures same { self.new.runs ≡ self.old.runs }
    {
        self.items.reserve(513)?;
        Ok(())
    }

    /// The same points, with room for all runs that there can be.
    pub fn copy_roomy(&self, alloc: Global) -> Result<Points, NoMemory>
        requires { is_roomy self.now ≡ true }
        ensures { IfOk result (λ p. (p.runs ≡ self.now.runs) × (is_roomy p ≡ true)) }
    {
        let mut points = self.copy(alloc)?;
        points.make_roomy()?;
        Ok(points)
    }

    /// Takes points out that are all held.
    pub fn take_points(&mut self, span: &Span)
        requires roomy { is_roomy self.old ≡ true }
        requires held { holds_all self.old span.now ≡ true }
        ensures taken { (x : ℕ) → held_times self.old x ≡ held_times self.new x + point_times span.now x }
        ensures roomy { is_roomy self.new ≡ true }
    {
        if span.lo > span.hi {
            return;
        }
        match take_out(&mut self.items, span) {
            Ok(()) => {}
            Err(_) => unreachable!(),
        }
    }

    /// Adds points below 1024 of which none is held.
    pub fn put_points(&mut self, span: &Span)
        requires roomy { is_roomy self.old ≡ true }
        requires free { IsFree self.old span.now }
        requires below { span.now.hi < 1024 }
        ensures put { (x : ℕ) → held_times self.new x ≡ held_times self.old x + point_times span.now x }
        ensures roomy { is_roomy self.new ≡ true }
    {
        if span.lo > span.hi {
            return;
        }
        match add(&mut self.items, span) {
            Ok(()) => {}
            Err(_) => unreachable!(),
        }
    }
}
