//! Points that are one span, or none.

ghost use Rattle.std.specs.Prelude.{◌≡◌, ◌≤◌, IfSome};
ghost use Rattle.run_model.specs.Points.{missing_of, run_of};
ghost use Rattle.partition_locks.specs.Held.{lies_within};

use crate::runs::{missing_in, run_in};
use ind_base::Span;

/// The lowest point of the span that isn't among them.
pub fn span_missing(points: Option<Span>, span: &Span) -> Option<u32>
    requires { IfSome points (λ p. p.lo ≤ p.hi) }
    ensures { result ≡ missing_of (lies_within points) span.now }
{
    match points {
        Some(run) => missing_in(&[run], span),
        None => missing_in(&[], span),
    }
}

/// The first run of them in the span.
pub fn span_run(points: Option<Span>, span: &Span) -> Option<Span>
    requires { IfSome points (λ p. p.lo ≤ p.hi) }
    ensures { result ≡ run_of (lies_within points) span.now }
{
    match points {
        Some(run) => run_in(&[run], span),
        None => run_in(&[], span),
    }
}
