//! What a model of a query says of its atoms.

ghost use Rattle.std.specs.Prelude.{◌≡◌, ◌<◌, length, map, IfOk};
ghost use Rattle.spec_model.specs.Fits.{IsWellFormed};
ghost use Rattle.ground_clauses.specs.Cases.{CaseKnown};
ghost use Rattle.ground_clauses.specs.Listing.{CaseFits};
ghost use Rattle.ground_clauses.specs.States as states;
ghost use Rattle.ground_clauses.specs.declared.case.Target.TheVariants as targets;

use crate::case::{Case, Target};
use crate::memory::Memory;
use crate::queries::{Asked, Subject, number_of};
use crate::state_lit::Variable;
use crate::table::{entry_at, winner};
use ind_base::{List, NoMemory};
use spec_model::{Atom, Entry, Moment, Spec};
use std::alloc::Global;

/// An atom at classes, and its truth without both operations, with the first, with the second, and
/// with both.
#[derive(Clone, Copy)]
pub struct AtomStates {
    pub atom: Atom,
    pub start: bool,
    pub first: bool,
    pub second: bool,
    pub both: bool,
}

/// The atom's truth in a state of the model.
fn truth_in_state(asked: &Asked<'_>, model: &[bool], atom: &Atom, moment: Moment) -> bool
    requires { CaseKnown asked.now.spec.now asked.now.case.now }
    ensures { result ≡ states.truth_in_state asked.now.spec.now asked.now.case.now asked.now.variables.now model.now atom.now moment }
{
    let wins = winner(asked.spec, atom.pred);
    match entry_at(asked.spec, asked.case, atom, moment) {
        Entry::Always => wins,
        Entry::Same(moment) => {
            let variable = Variable {
                atom: *atom,
                moment,
            };
            let at = number_of(asked.variables, &variable);
            let has_it = model.get(at).copied().unwrap_or(false);
            has_it == wins
        }
    }
}

/// The atom's truths in the four states of the model.
fn states_of(asked: &Asked<'_>, model: &[bool], atom: &Atom) -> AtomStates
    requires { CaseKnown asked.now.spec.now asked.now.case.now }
    ensures { result ≡ states.states_of asked.now.spec.now asked.now.case.now asked.now.variables.now model.now atom.now }
{
    AtomStates {
        atom: *atom,
        start: truth_in_state(asked, model, atom, Moment::Start),
        first: truth_in_state(asked, model, atom, Moment::First),
        second: truth_in_state(asked, model, atom, Moment::Second),
        both: truth_in_state(asked, model, atom, Moment::Both),
    }
}

/// The truths of these atoms in the four states of the model.
#[tactic(auto, using(crate::proofs::Building::map_step))]
fn all_states(
    alloc: Global,
    asked: &Asked<'_>,
    model: &[bool],
    atoms: &[Atom],
) -> Result<List<AtomStates>, NoMemory>
    requires { CaseKnown asked.now.spec.now asked.now.case.now }
    ensures { IfOk result (λ found. found ≡ map (states.states_of asked.now.spec.now asked.now.case.now asked.now.variables.now model.now) atoms.now) }
{
    let mut found = List::new(alloc);
    for atom in atoms {
        found.push(states_of(asked, model, atom))?;
    }
    Ok(found)
}

/// The truths in the four states of the model, of the atoms of a query about the clause at this place.
fn clause_states(
    alloc: Global,
    spec: &Spec,
    case: &Case,
    place: u32,
    model: &[bool],
) -> Result<List<AtomStates>, NoMemory>
    requires well_formed { IsWellFormed spec.now }
    requires fits { CaseFits spec.now case.now }
    requires clause { place < length spec.now.clauses }
    ensures { IfOk result (λ found. found ≡ states.target_states spec.now case.now model.now (targets.Clause place)) }
{
    let mut memory = Memory::new(alloc, spec);
    let mut subject = Subject::new(alloc);
    subject.find(alloc, spec, case, place, &mut memory)?;
    let asked = Asked {
        spec,
        case,
        variables: subject.variables.as_slice(),
    };
    all_states(alloc, &asked, model, subject.atoms.as_slice())
}

/// Each atom of a case's query, by its first appearance, with its truths in the four states of a
/// model, a truth for each variable. A locked predicate has no query, and so no atoms.
pub fn atom_states(
    alloc: Global,
    spec: &Spec,
    case: &Case,
    model: &[bool],
) -> Result<List<AtomStates>, NoMemory>
    requires well_formed { IsWellFormed spec.now }
    requires fits { CaseFits spec.now case.now }
    ensures { IfOk result (λ found. found ≡ states.query_states spec.now case.now model.now) }
{
    match case.target {
        Target::Clause(place) => clause_states(alloc, spec, case, place, model),
        Target::Locked(_) => Ok(List::new(alloc)),
    }
}
