//! Points that a replica holds.

ghost use Rattle.std.specs.Prelude.{◌≡◌, ◌<◌, ◌≤◌, ℕ, filter, IfOk, OnOk};
ghost use Rattle.spec_model.specs.Universe.{below};
ghost use Rattle.run_model.specs.Points.{missing_of, run_of, runs_of};
ghost use Rattle.partition_locks.specs.Held.{holds, lies_in, lies_within, IsAbove};

use crate::runs::{both_in, clip, missing_in, run_in};
use ind_base::{List, NoMemory, Span};
use std::alloc::Global;
use std::marker::Model;

/// A set of points, as spans in ascending order of which no two touch.
#[derive(Drop)]
pub struct Points {
    pub(crate) items: Vec<Span>,
}

impl Model for Points {
    ghost use Rattle.partition_locks.specs.Held.{HeldPoints, AreApart};
    ghost use Rattle.partition_locks.specs.Edits.{spare_in};

    ghost Value = { HeldPoints };

    ghost view = { λ p. record { runs = p.items.items; spare = spare_in p.items } };

    ghost invariant = { λ p. AreApart 0 p.items.items };
}

impl Points {
    /// The points of the span, or none.
    pub fn begin(alloc: Global, points: Option<Span>) -> Result<Points, NoMemory>
        ensures { IfOk result (λ p. (x : ℕ) → holds p x ≡ lies_within points x) }
    {
        let mut items = Vec::new(alloc);
        if let Some(span) = points {
            if span.lo <= span.hi {
                items.push(span)?;
            }
        }
        Ok(Points { items })
    }

    /// The same points; for how many more there is room isn't said.
    pub fn copy(&self, alloc: Global) -> Result<Points, NoMemory>
        ensures { IfOk result (λ p. p.runs ≡ self.now.runs) }
    {
        let items = Vec::from_slice(alloc, self.items.as_slice())?;
        Ok(Points { items })
    }

    /// Makes room for so many pieces more. What is held stays.
    pub fn ready(&mut self, pieces: u32) -> Result<(), NoMemory>
        ensures ok { OnOk result (pieces ≤ self.new.spare) }
        ensures same { self.new.runs ≡ self.old.runs }
        ensures room { self.old.spare ≤ self.new.spare }
    {
        self.items.reserve(pieces as usize)?;
        Ok(())
    }

    /// The lowest point of the span that isn't held.
    pub fn first_missing(&self, span: &Span) -> Option<u32>
        ensures { result ≡ missing_of (holds self.now) span.now }
    {
        missing_in(self.items.as_slice(), span)
    }

    /// The first run of held points in the span.
    pub fn first_run(&self, span: &Span) -> Option<Span>
        ensures { result ≡ run_of (holds self.now) span.now }
    {
        run_in(self.items.as_slice(), span)
    }

    /// The lowest point of the span that isn't held, and the first run of held points in it.
    pub fn first_both(&self, span: &Span) -> (Option<u32>, Option<Span>)
        ensures missing { result.0 ≡ missing_of (holds self.now) span.now }
        ensures run { result.1 ≡ run_of (holds self.now) span.now }
    {
        both_in(self.items.as_slice(), span)
    }

    /// The points below one, in runs that are as long as can be.
    pub fn runs_below(&self, alloc: Global, all: u32) -> Result<List<Span>, NoMemory>
        ensures runs { IfOk result (λ runs. runs ≡ runs_of (filter (holds self.now) (below all))) }
        ensures points { IfOk result (λ runs. (x : ℕ) → x < all → lies_in runs x ≡ holds self.now x) }
    {
        let mut out = List::new(alloc);
        clip(self.items.as_slice(), all, &mut out)?;
        Ok(out)
    }

    /// All points that are held, in runs that are as long as can be.
    pub fn runs(&self) -> &[Span]
        ensures value { result.now ≡ self.now.runs }
        ensures runs { (all : ℕ) → IsAbove all self.now
            → result.now ≡ runs_of (filter (holds self.now) (below all)) }
    {
        self.items.as_slice()
    }
}
