//! Which targets two operations can touch at all: those with a predicate that both have lines for.

ghost use Rattle.std.specs.Prelude.{◌≡◌, ◌<◌, ◌&&◌, ◌||◌, length};
ghost use Rattle.std.specs.List.{list_any};
ghost use Rattle.spec_model.specs.Truths as truths;
ghost use Rattle.ground_clauses.specs.Cases.{TargetKnown};
ghost use Rattle.ground_clauses.specs.Reached.{can_touch, is_line_of, is_named};

use crate::case::Target;
use crate::places::{clause_at, op_at};
use spec_model::{Clause, Line, Literal, Spec};

/// Whether a line sets or clears the predicate.
fn is_of(line: &Line, pred: u32) -> bool
    ensures { result ≡ is_line_of pred line.now }
{
    match line {
        Line::Set { pred: of, .. } | Line::Clear { pred: of, .. } => pred == *of,
        _ => false,
    }
}

/// Whether some of these lines sets or clears the predicate.
fn has_line(lines: &[Line], pred: u32) -> bool
    ensures { result ≡ list_any (is_line_of pred) lines.now }
{
    for line in lines {
        if is_of(line, pred) {
            return true;
        }
    }
    false
}

/// Whether some of these lines sets or clears the predicate of one of these literals.
fn names_any(lines: &[Line], literals: &[Literal]) -> bool
    ensures { result ≡ list_any (is_named lines.now) literals.now }
{
    for literal in literals {
        if let Literal::Atom { pred, .. } = literal {
            if has_line(lines, *pred) {
                return true;
            }
        }
    }
    false
}

/// Whether some of these lines sets or clears a predicate of the clause.
fn names_clause(lines: &[Line], clause: &Clause) -> bool
    ensures { result ≡ (list_any (is_named lines.now) clause.now.premise || list_any (is_named lines.now) clause.now.conclusion) }
{
    names_any(lines, clause.premise.as_slice()) || names_any(lines, clause.conclusion.as_slice())
}

/// Whether an operation has a line for a predicate of the target: else it touches the target at no
/// classes.
fn reaches_target(spec: &Spec, op: u32, target: Target) -> bool
    requires known { op < length spec.now.ops }
    requires target { TargetKnown spec.now target }
    ensures { result ≡ can_touch spec.now (truths.op_at spec.now op).lines target }
{
    let lines = op_at(spec, op).lines.as_slice();
    match target {
        Target::Clause(place) => names_clause(lines, clause_at(spec, place)),
        Target::Locked(pred) => has_line(lines, pred),
    }
}

/// Whether both operations have lines for predicates of the target: else no case of theirs is
/// touched, and its patterns needn't be gone through.
pub(crate) fn both_reach(spec: &Spec, a: u32, b: u32, target: Target) -> bool
    requires known_a { a < length spec.now.ops }
    requires known_b { b < length spec.now.ops }
    requires target { TargetKnown spec.now target }
    ensures { result ≡ (can_touch spec.now (truths.op_at spec.now a).lines target && can_touch spec.now (truths.op_at spec.now b).lines target) }
{
    reaches_target(spec, a, target) && reaches_target(spec, b, target)
}
