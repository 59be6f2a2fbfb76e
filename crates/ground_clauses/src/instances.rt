//! The hypotheses of a query: the clauses at classes that meet its target.

ghost use Rattle.std.specs.Prelude.{◌≡◌, true, ◌<◌, ◌≤◌, ◌+◌, ◌++◌, ◌&&◌, ◌||◌, length, map, filter, IfOk, OnOk, OnErr};
ghost use Rattle.std.specs.List.{list_any, flat_map, AllByRecursion};
ghost use Rattle.spec_model.specs.Fits.{IsWellFormed};
ghost use Rattle.spec_model.specs.Truths as truths;
ghost use Rattle.ground_clauses.specs.Cases as cases;
ghost use Rattle.ground_clauses.specs.Cases.{CaseKnown};
ghost use Rattle.ground_clauses.specs.Instances.{atoms_at, clause_instances, found_from, instance_of, can_agree, can_be, can_be_atom, can_share, is_shared, meets, with_all, with_one};
ghost use Rattle.ground_clauses.specs.Query as queries;
ghost use Rattle.ground_clauses.specs.Query.{literal_atoms};

use crate::case::Case;
use crate::literals::{is_at, same_atom};
use crate::pattern::{class_count, pattern_sorts};
use crate::places::clause_at;
use crate::slots::{Slots, code_at};
use crate::touched::{class_at, equalities_true, target_classes, values};
use ind_base::{List, NoMemory};
use spec_model::{Args, Atom, Clause, Literal, Spec, Var};

/// A clause of the specification at classes.
#[derive(Clone, Copy)]
pub(crate) struct Instance<'a> {
    pub(crate) clause: &'a Clause,
    pub(crate) classes: Args,
}

/// Whether an atom is among these.
pub(crate) fn atom_among(atom: &Atom, atoms: &[Atom]) -> bool
    ensures { result ≡ list_any (queries.same_atom atom.now) atoms.now }
{
    for other in atoms {
        if same_atom(atom, other) {
            return true;
        }
    }
    false
}

/// Whether the predicate's atom at the classes of these variables stands at this place: else it may
/// stand at another.
#[tactic(auto, using(crate::proofs::Once::found_at))]
fn stands_at(atoms: &[Atom], place: usize, pred: u32, classes: &[u32], vars: &[u32]) -> bool
    ensures { result ≡ true → list_any (queries.same_atom (queries.atom_of pred (truths.values classes.now vars.now))) atoms.now ≡ true }
{
    match atoms.get(place) {
        Some(other) => is_at(other, pred, classes, vars),
        None => false,
    }
}

/// Appends the atoms of these literals at the classes.
#[tactic(auto, using(crate::proofs::Building::atoms_step))]
fn add_atoms(literals: &[Literal], classes: &[u32], atoms: &mut List<Atom>) -> Result<(), NoMemory>
    ensures { OnOk result (atoms.new ≡ atoms.old ++ atoms_at classes.now literals.now) }
{
    for literal in literals {
        if let Literal::Atom { pred, vars } = literal {
            let args = values(classes, vars);
            atoms.push(Atom { pred: *pred, args })?;
        }
    }
    Ok(())
}

/// Appends the atoms of a clause at classes.
#[tactic(auto, using(crate::proofs::Building::instance_atoms_parts))]
fn add_clause_atoms(
    clause: &Clause,
    classes: &[u32],
    atoms: &mut List<Atom>,
) -> Result<(), NoMemory>
    ensures { OnOk result (atoms.new ≡ atoms.old ++ queries.instance_atoms (cases.over clause.now classes.now)) }
{
    add_atoms(clause.premise.as_slice(), classes, atoms)?;
    add_atoms(clause.conclusion.as_slice(), classes, atoms)?;
    Ok(())
}

/// Whether the predicate's atom at the classes of these variables is among these.
fn values_among(pred: u32, classes: &[u32], vars: &[u32], atoms: &[Atom]) -> bool
    ensures { result ≡ list_any (queries.same_atom (queries.atom_of pred (truths.values classes.now vars.now))) atoms.now }
{
    for other in atoms {
        if is_at(other, pred, classes, vars) {
            return true;
        }
    }
    false
}

/// Whether a literal, at the classes, is one of the target's atoms.
fn shares(target: &[Atom], literal: &Literal, classes: &[u32]) -> bool
    ensures { result ≡ is_shared target.now classes.now literal.now }
{
    match literal {
        Literal::Atom { pred, vars } => { values_among(*pred, classes, vars.as_slice(), target) }
        Literal::Equal { .. } => false,
    }
}

/// Whether some of these literals, at the classes, is one of the target's atoms.
fn shares_any(target: &[Atom], literals: &[Literal], classes: &[u32]) -> bool
    ensures { result ≡ list_any (is_shared target.now classes.now) literals.now }
{
    for literal in literals {
        if shares(target, literal, classes) {
            return true;
        }
    }
    false
}

/// Whether the clause at the classes meets one of the target's atoms, and isn't true by equalities.
#[tactic(auto, using(crate::proofs::Building::meets_apart))]
fn meets_target(target: &[Atom], clause: &Clause, classes: &[u32]) -> bool
    ensures { result ≡ meets target.now (cases.over clause.now classes.now) }
{
    !equalities_true(clause, classes)
        && (shares_any(target, clause.premise.as_slice(), classes)
            || shares_any(target, clause.conclusion.as_slice(), classes))
}

/// What the hypotheses of a case are looked for by: the pattern's sorts and classes, and the atoms
/// of the target.
#[derive(Clone, Copy)]
pub(crate) struct Search<'a> {
    pub(crate) sorts: &'a [u32],
    pub(crate) classes: &'a [u32],
    pub(crate) target: &'a [Atom],
}

/// Whether the variable at this place can have this class, where the first classes are these.
fn may_be(front: &[u32], var: u32, class: u32) -> bool
    ensures { result ≡ can_be front.now var class }
{
    !((var as usize) < front.len()) || class_at(front, var) == class
}

/// Whether these variables can have these classes, where the first classes are these.
#[tactic(auto, using(crate::proofs::Pruning::agree_step, crate::proofs::Pruning::agree_end))]
fn may_agree(front: &[u32], vars: &[u32], args: &[u32]) -> bool
    ensures { result ≡ can_agree front.now vars.now args.now }
{
    let mut left = args;
    for var in vars {
        let [class, rest @ ..] = left else {
            return false;
        };
        if !may_be(front, *var, *class) {
            return false;
        }
        left = rest;
    }
    left.is_empty()
}

/// Whether the predicate's atom at these variables can be one of these, where the first classes are
/// these.
fn values_may_be(pred: u32, front: &[u32], vars: &[u32], atoms: &[Atom]) -> bool
    ensures { result ≡ list_any (can_be_atom pred front.now vars.now) atoms.now }
{
    for atom in atoms {
        if pred == atom.pred && may_agree(front, vars, atom.args.as_slice()) {
            return true;
        }
    }
    false
}

/// Whether a literal can be one of the target's atoms, where the first classes are these.
fn may_share(target: &[Atom], literal: &Literal, front: &[u32]) -> bool
    ensures { result ≡ can_share target.now front.now literal.now }
{
    match literal {
        Literal::Atom { pred, vars } => values_may_be(*pred, front, vars.as_slice(), target),
        Literal::Equal { .. } => false,
    }
}

/// Whether some of these literals can be one of the target's atoms, where the first classes are
/// these.
fn may_share_any(target: &[Atom], literals: &[Literal], front: &[u32]) -> bool
    ensures { result ≡ list_any (can_share target.now front.now) literals.now }
{
    for literal in literals {
        if may_share(target, literal, front) {
            return true;
        }
    }
    false
}

/// Whether the clause can meet the target, where the first classes are these: else the other classes
/// needn't be gone through.
fn may_meet(target: &[Atom], clause: &Clause, front: &[u32]) -> bool
    ensures { result ≡ (list_any (can_share target.now front.now) clause.now.premise || list_any (can_share target.now front.now) clause.now.conclusion) }
{
    may_share_any(target, clause.premise.as_slice(), front)
        || may_share_any(target, clause.conclusion.as_slice(), front)
}

/// Appends the instances of a clause that meet the target, whose first classes are these.
#[tactic(auto, using(crate::proofs::Pruning::none_found, crate::proofs::Finding::found_end, crate::proofs::Finding::found_each, crate::proofs::Finding::found_more))]
fn add_instances<'a>(
    search: &Search<'_>,
    clause: &'a Clause,
    front: Args,
    vars: &[Var],
    found: &mut List<Instance<'a>>,
) -> Result<(), NoMemory>
    requires { length front + length vars.now ≤ 4 }
    ensures { OnOk result (map instance_of found.new ≡ map instance_of found.old ++ found_from search.now clause.now front vars.now) }
{
    if vars.is_empty() {
        if meets_target(search.target, clause, front.as_slice()) {
            found.push(Instance {
                clause,
                classes: front,
            })?;
        }
        return Ok(());
    }
    if !may_meet(search.target, clause, front.as_slice()) {
        return Ok(());
    }
    let (head, rest) = vars.split_at(1);
    let count = class_count(search.sorts, search.classes, head[0].sort);
    for class in 0..count {
        let mut longer = front;
        longer.push(class as u32);
        add_instances(search, clause, longer, rest, found)?;
    }
    Ok(())
}

/// Appends the instances of a clause that meet the target.
#[tactic(auto, using(crate::proofs::Finding::found_clause))]
fn add_clause_instances<'a>(
    search: &Search<'_>,
    clause: &'a Clause,
    found: &mut List<Instance<'a>>,
) -> Result<(), NoMemory>
    requires { length clause.now.vars ≤ 4 }
    ensures { OnOk result (map instance_of found.new ≡ map instance_of found.old ++ clause_instances search.now clause.now) }
{
    add_instances(search, clause, Args::new(), clause.vars.as_slice(), found)?;
    Ok(())
}

/// Appends the instances of these clauses that meet the target.
#[tactic(auto, using(crate::proofs::Building::flat_step, crate::proofs::Finding::few_at))]
fn find_instances<'a>(
    search: &Search<'_>,
    clauses: &'a [Clause],
    found: &mut List<Instance<'a>>,
) -> Result<(), NoMemory>
    requires { AllByRecursion (λ c. length c.vars ≤ 4) clauses.now }
    ensures { OnOk result (map instance_of found.new ≡ map instance_of found.old ++ flat_map (clause_instances search.now) clauses.now) }
{
    for clause in clauses {
        add_clause_instances(search, clause, found)?;
    }
    Ok(())
}

/// Finds the hypotheses of the query of a case about this clause, in place of those found before.
/// The list of the target's atoms is room for the search.
#[tactic(auto, using(crate::proofs::Finding::found_all, crate::proofs::Finding::few_vars))]
pub(crate) fn find_hypotheses<'a>(
    spec: &'a Spec,
    case: &Case,
    place: u32,
    target: &mut List<Atom>,
    found: &mut List<Instance<'a>>,
) -> Result<(), NoMemory>
    requires well_formed { IsWellFormed spec.now }
    requires known { CaseKnown spec.now case.now }
    requires clause { place < length spec.now.clauses }
    ensures { OnOk result (map instance_of found.new ≡ cases.case_hypotheses spec.now case.now place) }
{
    target.truncate(0);
    found.truncate(0);
    add_clause_atoms(clause_at(spec, place), target_classes(spec, case), target)?;
    let sorts = pattern_sorts(spec, case.a, case.b, case.target);
    let search = Search {
        sorts: sorts.as_slice(),
        classes: case.classes.as_slice(),
        target: target.as_slice(),
    };
    find_instances(&search, spec.clauses.as_slice(), found)?;
    Ok(())
}

/// Appends an atom with this number, unless it is there.
fn add_new(
    atom: Atom,
    code: usize,
    slots: &mut Slots,
    once: &mut List<Atom>,
) -> Result<(), NoMemory>
    requires { code < 110592 }
    ensures { OnOk result (once.new ≡ with_one once.old atom) }
{
    if !atom_among(&atom, once.as_slice()) {
        slots.note(code, once.len())?;
        once.push(atom)?;
    }
    Ok(())
}

/// Appends the predicate's atom at the classes of these variables, unless it is there. The slots name
/// the place at which to look first.
#[tactic(auto, using(crate::proofs::Once::there_already))]
fn add_at(
    pred: u32,
    classes: &[u32],
    vars: &Args,
    slots: &mut Slots,
    once: &mut List<Atom>,
) -> Result<(), NoMemory>
    ensures { OnOk result (once.new ≡ with_one once.old (queries.atom_of pred (truths.values classes.now vars.now))) }
{
    let places = vars.as_slice();
    let code = code_at(pred, classes, places);
    if stands_at(once.as_slice(), slots.place_at(code), pred, classes, places) {
        return Ok(());
    }
    let args = values(classes, vars);
    add_new(Atom { pred, args }, code, slots, once)
}

/// Appends the atom of a literal at the classes, if it is one that isn't there.
fn add_literal(
    literal: &Literal,
    classes: &[u32],
    slots: &mut Slots,
    once: &mut List<Atom>,
) -> Result<(), NoMemory>
    ensures { OnOk result (once.new ≡ with_all once.old (literal_atoms classes.now literal.now)) }
{
    match literal {
        Literal::Atom { pred, vars } => add_at(*pred, classes, vars, slots, once),
        Literal::Equal { .. } => Ok(()),
    }
}

/// Appends those atoms of these literals at the classes that aren't there.
#[tactic(auto, using(crate::proofs::Once::literals_step))]
fn add_new_atoms(
    literals: &[Literal],
    classes: &[u32],
    slots: &mut Slots,
    once: &mut List<Atom>,
) -> Result<(), NoMemory>
    ensures { OnOk result (once.new ≡ with_all once.old (atoms_at classes.now literals.now)) }
{
    for literal in literals {
        add_literal(literal, classes, slots, once)?;
    }
    Ok(())
}

/// Appends those atoms of an instance that aren't there.
fn add_instance_atoms(
    instance: &Instance<'_>,
    slots: &mut Slots,
    once: &mut List<Atom>,
) -> Result<(), NoMemory>
    ensures { OnOk result (once.new ≡ with_all once.old (queries.instance_atoms (instance_of instance.now))) }
{
    let classes = instance.classes.as_slice();
    add_new_atoms(instance.clause.premise.as_slice(), classes, slots, once)?;
    add_new_atoms(instance.clause.conclusion.as_slice(), classes, slots, once)?;
    Ok(())
}

/// Lists the atoms of these instances by their first appearance, in place of those listed before.
#[tactic(auto, using(crate::proofs::Once::instances_step))]
pub(crate) fn list_atoms(
    instances: &[Instance<'_>],
    slots: &mut Slots,
    once: &mut List<Atom>,
) -> Result<(), NoMemory>
    ensures { OnOk result (once.new ≡ queries.atoms_of (map instance_of instances.now)) }
{
    once.truncate(0);
    for instance in instances {
        add_instance_atoms(instance, slots, once)?;
    }
    Ok(())
}
