//! The table of four states, at the atoms of a case.

ghost use Rattle.std.specs.Prelude.{◌≡◌, length};
ghost use Rattle.spec_model.specs.Stable as stable;
ghost use Rattle.spec_model.specs.Truths as truths;
ghost use Rattle.ground_clauses.specs.Cases as cases;
ghost use Rattle.ground_clauses.specs.Cases.{CaseKnown};
ghost use Rattle.ground_clauses.specs.Fronts.{acts};
ghost use Rattle.ground_clauses.specs.Query as queries;

use crate::case::Case;
use crate::reach::op_sets;
use crate::touched::{Acting, first_sets, second_sets};
use spec_model::{Atom, Entry, Moment, Rule, Spec, Touch};

/// Whether the winning value of a rule is true.
fn rule_wins(rule: Rule) -> bool
    ensures { result ≡ truths.rule_wins rule }
{
    match rule {
        Rule::AddWins | Rule::Locked => true,
        Rule::RemoveWins => false,
    }
}

/// The winning value of a predicate's atoms.
#[tactic(auto, using(crate::proofs::Reaches::past_end))]
pub(crate) fn winner(spec: &Spec, pred: u32) -> bool
    ensures { result ≡ truths.wins spec.now pred }
{
    let preds = spec.preds.as_slice();
    if (pred as usize) < preds.len() {
        rule_wins(preds[pred as usize].rule)
    } else {
        true
    }
}

/// What setting an atom is, by the value that wins there.
fn touch_of(wins: bool, set: Option<bool>) -> Touch
    ensures { result ≡ stable.touch_of wins set }
{
    match set {
        None => Touch::Leaves,
        Some(value) => if value == wins {
            Touch::Wins
        } else {
            Touch::Loses
        },
    }
}

/// The entry of the table for a state, by what the two instances do to the atom.
pub(crate) fn entry(first: Touch, second: Touch, moment: Moment) -> Entry
    ensures { result ≡ stable.entry first second moment }
{
    match (moment, first, second) {
        (Moment::First, Touch::Wins, _)
        | (Moment::Second, _, Touch::Wins)
        | (Moment::Both, Touch::Wins, _)
        | (Moment::Both, _, Touch::Wins) => Entry::Always,
        (Moment::First, Touch::Loses, _) | (Moment::Both, Touch::Loses, Touch::Leaves) => {
            Entry::Same(Moment::First)
        }
        (Moment::Second, _, Touch::Loses) | (Moment::Both, Touch::Leaves, Touch::Loses) => {
            Entry::Same(Moment::Second)
        }
        (Moment::Both, Touch::Loses, Touch::Loses) => Entry::Same(Moment::Both),
        _ => Entry::Same(Moment::Start),
    }
}

/// What the two operations of a case do to an atom.
fn touch_first(spec: &Spec, case: &Case, atom: &Atom) -> Touch
    requires { CaseKnown spec.now case.now }
    ensures { result ≡ stable.touch_of (queries.winner spec.now atom.now) ((cases.case_sets spec.now case.now).one atom.now.pred atom.now.args) }
{
    touch_of(
        winner(spec, atom.pred),
        first_sets(spec, case, atom.pred, atom.args.as_slice()),
    )
}

/// What the second operation of a case does to an atom.
fn touch_second(spec: &Spec, case: &Case, atom: &Atom) -> Touch
    requires { CaseKnown spec.now case.now }
    ensures { result ≡ stable.touch_of (queries.winner spec.now atom.now) ((cases.case_sets spec.now case.now).other atom.now.pred atom.now.args) }
{
    touch_of(
        winner(spec, atom.pred),
        second_sets(spec, case, atom.pred, atom.args.as_slice()),
    )
}

/// What the two operations of a case do to an atom.
#[derive(Clone, Copy)]
pub(crate) struct Touches {
    pub(crate) first: Touch,
    pub(crate) second: Touch,
}

/// What an operation does to an atom where this value wins.
fn touch_by(wins: bool, acting: &Acting<'_>, atom: &Atom) -> Touch
    ensures { result ≡ stable.touch_of wins (acts acting.now atom.now.pred atom.now.args) }
{
    let args = atom.args.as_slice();
    touch_of(
        wins,
        op_sets(acting.op, acting.classes, acting.bits, atom.pred, args),
    )
}

/// What two operations do to an atom.
pub(crate) fn touches_by(
    spec: &Spec,
    first: &Acting<'_>,
    second: &Acting<'_>,
    atom: &Atom,
) -> Touches
    ensures first { result.first ≡ stable.touch_of (queries.winner spec.now atom.now) (acts first.now atom.now.pred atom.now.args) }
    ensures second { result.second ≡ stable.touch_of (queries.winner spec.now atom.now) (acts second.now atom.now.pred atom.now.args) }
{
    let wins = winner(spec, atom.pred);
    Touches {
        first: touch_by(wins, first, atom),
        second: touch_by(wins, second, atom),
    }
}

/// What the two operations of a case do to an atom.
pub(crate) fn touches_in(spec: &Spec, case: &Case, atom: &Atom) -> Touches
    requires { CaseKnown spec.now case.now }
    ensures first { result.first ≡ stable.touch_of (queries.winner spec.now atom.now) ((cases.case_sets spec.now case.now).one atom.now.pred atom.now.args) }
    ensures second { result.second ≡ stable.touch_of (queries.winner spec.now atom.now) ((cases.case_sets spec.now case.now).other atom.now.pred atom.now.args) }
{
    Touches {
        first: touch_first(spec, case, atom),
        second: touch_second(spec, case, atom),
    }
}

/// The table's entry for an atom in a state.
pub(crate) fn entry_at(spec: &Spec, case: &Case, atom: &Atom, moment: Moment) -> Entry
    requires { CaseKnown spec.now case.now }
    ensures { result ≡ queries.entry_at spec.now (cases.case_sets spec.now case.now) atom.now moment }
{
    entry(
        touch_first(spec, case, atom),
        touch_second(spec, case, atom),
        moment,
    )
}
