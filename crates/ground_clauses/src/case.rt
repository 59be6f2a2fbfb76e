//! Cases: two operations and a target, at classes that stand for elements.

use spec_model::Classes;

/// What a case is about: a clause that isn't marked, or a locked predicate, by its place.
#[derive(Clone, Copy, Debug)]
pub enum Target {
    Clause(u32),
    Locked(u32),
}

/// Operations `a` and `b` in declaration order, a target, and a class number for each of the
/// pattern's elements: the plain parameters of `a`, those of `b`, and the target's variables.
#[derive(Clone, Copy, Debug)]
pub struct Case {
    pub a: u32,
    pub b: u32,
    pub target: Target,
    pub classes: Classes,
    /// Bit `k` says whether class `k` lies in the interval of `a`.
    pub bits_a: u32,
    /// Bit `k` says whether class `k` lies in the interval of `b`.
    pub bits_b: u32,
}
