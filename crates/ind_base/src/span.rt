//! Spans of numbers, kept in the value itself.

ghost use Rattle.std.specs.Prelude.{◌≡◌, ◌<◌, ◌≤◌, [], ◌∷◌, ◌++◌, length, slice_get};
ghost use Rattle.ind_base.specs.Spans.{span_between};

use crate::few::Few;
use std::marker::Model;

/// The numbers from `lo` up to `hi`, both counted in. A single number `n` is the span from `n` to `n`.
#[derive(Clone, Copy, PartialEq, Eq)]
pub struct Span {
    pub lo: u32,
    pub hi: u32,
}

/// At most four spans, which are copied with the value and hold no heap.
#[derive(Clone, Copy)]
pub struct Spans {
    lows: Few<4>,
    highs: Few<4>,
}

/// The span between two ends, where both are there.
fn between(lo: Option<u32>, hi: Option<u32>) -> Option<Span>
    ensures { result ≡ span_between lo hi }
{
    match (lo, hi) {
        (Some(lo), Some(hi)) => Some(Span { lo, hi }),
        _ => None,
    }
}

impl Model for Spans {
    ghost use Rattle.std.specs.Prelude.{◌≡◌, ◌≤◌, List, ℕ, length, map};
    ghost use Rattle.ind_base.specs.declared.span.Span.{Span};
    ghost use Rattle.ind_base.specs.Spans.{paired, lows_back, highs_back};

    ghost Value = { List Span };

    ghost view = { λ s. paired s.lows s.highs };

    ghost invariant = { λ s. (length s.lows ≡ length s.highs) × (length s.lows ≤ 4) };

    ghost inverse = { λ ps. record { lows = map (λ p. p.lo) ps; highs = map (λ p. p.hi) ps } };

    ghost inverse_ok = { λ s h i. record {
      lows = lows_back s.lows s.highs h.0 i;
      highs = highs_back s.lows s.highs h.0 i;
    } };
}

impl Spans {
    /// No spans.
    pub fn new() -> Spans
        ensures { result ≡ [] }
    {
        Spans {
            lows: Few::new(),
            highs: Few::new(),
        }
    }

    /// How many spans there are.
    pub fn len(&self) -> usize
        ensures value { result ≡ length self.now }
        ensures fits { result ≤ 4 }
    {
        self.lows.len()
    }

    /// The span at a place, counted from 0; `None` behind the last one.
    pub fn get(&self, at: usize) -> Option<Span>
        ensures { result ≡ slice_get self.now at }
    {
        between(self.lows.get(at), self.highs.get(at))
    }

    /// Adds a span at the end.
    pub fn push(&mut self, span: Span)
        requires { length self.old < 4 }
        ensures { self.new ≡ self.old ++ span ∷ [] }
    {
        self.lows.push(span.lo);
        self.highs.push(span.hi);
    }
}
