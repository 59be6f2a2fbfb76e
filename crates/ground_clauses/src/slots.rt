//! Where atoms may stand in a list.

ghost use Rattle.std.specs.Prelude.{◌<◌};

use ind_base::NoMemory;
use spec_model::Atom;
use std::alloc::Global;

/// For each atom, by a number that is made of it, a place at which it may stand in a list. What is
/// named is tried and never relied on, so the places stay as they are where a new list begins.
#[derive(Drop)]
pub(crate) struct Slots {
    places: Vec<usize>,
}

/// One of an atom's classes, of which there are at most twelve.
fn class_of(args: &[u32], at: usize) -> usize
    ensures { result < 12 }
{
    (args.get(at).copied().unwrap_or(0) % 12) as usize
}

/// A number of its own for each predicate below 64 with three classes below twelve.
fn code(pred: u32, first: usize, second: usize, third: usize) -> usize
    requires first { first < 12 }
    requires second { second < 12 }
    requires third { third < 12 }
    ensures { result < 110592 }
{
    let pred = (pred % 64) as usize;
    ((pred * 12 + first) * 12 + second) * 12 + third
}

/// The class of the variable at this place of these.
fn class_in(classes: &[u32], vars: &[u32], at: usize) -> usize
    ensures { result < 12 }
{
    match vars.get(at) {
        Some(var) => class_of(classes, *var as usize),
        None => 0,
    }
}

/// The number of the predicate's atom at the classes of these variables, by the first three.
pub(crate) fn code_at(pred: u32, classes: &[u32], vars: &[u32]) -> usize
    ensures { result < 110592 }
{
    code(
        pred,
        class_in(classes, vars, 0),
        class_in(classes, vars, 1),
        class_in(classes, vars, 2),
    )
}

impl Slots {
    /// No place was noted.
    pub(crate) fn new(alloc: Global) -> Slots {
        Slots {
            places: Vec::new(alloc),
        }
    }

    /// The place that was noted last for an atom with this number, if any was.
    pub(crate) fn place_at(&self, code: usize) -> usize {
        self.places.get(code).copied().unwrap_or(0)
    }

    /// The place that was noted last for the predicate's atom at the classes of these variables.
    pub(crate) fn hint_at(&self, pred: u32, classes: &[u32], vars: &[u32]) -> usize {
        self.place_at(code_at(pred, classes, vars))
    }

    /// Notes the place of an atom with this number.
    pub(crate) fn note(&mut self, code: usize, place: usize) -> Result<(), NoMemory>
        requires { code < 110592 }
    {
        for _ in self.places.len()..code + 1 {
            self.places.push(0)?;
        }
        if let Some(slot) = self.places.get_mut(code) {
            *slot = place;
        }
        Ok(())
    }
}

/// The number of an atom, by its first three classes.
fn code_of(atom: &Atom) -> usize
    ensures { result < 110592 }
{
    let args = atom.args.as_slice();
    code(
        atom.pred,
        class_of(args, 0),
        class_of(args, 1),
        class_of(args, 2),
    )
}

/// Notes the place of each of these atoms.
pub(crate) fn note_places(atoms: &[Atom], slots: &mut Slots) -> Result<(), NoMemory> {
    for (place, atom) in atoms.iter().enumerate() {
        slots.note(code_of(atom), place)?;
    }
    Ok(())
}
