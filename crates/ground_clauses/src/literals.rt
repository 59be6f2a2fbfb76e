//! Lists of literals over four states.

ghost use Rattle.std.specs.Prelude.{◌≡◌, ◌++◌, OnOk, IfOk, true, false, map};
ghost use Rattle.std.specs.List.{list_any, flat_map, AllByRecursion};
ghost use Rattle.ground_clauses.specs.Asking.{sets_in};
ghost use Rattle.ground_clauses.specs.Literals.{clause_forms, signed_forms};
ghost use Rattle.ground_clauses.specs.Query as queries;
ghost use Rattle.ground_clauses.specs.Rows as rows;
ghost use Rattle.spec_model.specs.Truths as truths;
ghost use Rattle.ground_clauses.specs.Rows.{CanLook, IsNumbered, IsNumberedForm};

use crate::rows::{Looking, Row, Seen, new_row, seen_in};
use crate::state_lit::{StateLit, Variable};
use crate::touched::{class_at, values};
use ind_base::{List, NoMemory};
use spec_model::{Args, Atom, Clause, Literal, Moment};
use std::alloc::Global;

/// Whether two lists of numbers are equal. They are a few numbers long, and a plain loop is the
/// fastest way over so few.
#[tactic(auto, using(crate::proofs::Parts::same_end))]
pub(crate) fn same_numbers(first: &[u32], second: &[u32]) -> bool
    ensures { result ≡ queries.same_list first.now second.now }
{
    let mut left = second;
    for number in first {
        let [other, rest @ ..] = left else {
            return false;
        };
        if number != other {
            return false;
        }
        left = rest;
    }
    left.is_empty()
}

/// Whether two atoms are one.
pub(crate) fn same_atom(first: &Atom, second: &Atom) -> bool
    ensures { result ≡ queries.same_atom first.now second.now }
{
    first.pred == second.pred && same_numbers(first.args.as_slice(), second.args.as_slice())
}

/// Whether an atom's arguments are the classes of these variables.
#[tactic(auto, using(crate::proofs::Building::map_step, crate::proofs::Parts::values_end))]
fn same_values(classes: &[u32], vars: &[u32], args: &[u32]) -> bool
    ensures { result ≡ queries.same_list (truths.values classes.now vars.now) args.now }
{
    let mut left = args;
    for var in vars {
        let [class, rest @ ..] = left else {
            return false;
        };
        if class_at(classes, *var) != *class {
            return false;
        }
        left = rest;
    }
    left.is_empty()
}

/// Whether an atom is the predicate's at the classes of these variables.
pub(crate) fn is_at(atom: &Atom, pred: u32, classes: &[u32], vars: &[u32]) -> bool
    ensures { result ≡ queries.same_atom (queries.atom_of pred (truths.values classes.now vars.now)) atom.now }
{
    pred == atom.pred && same_values(classes, vars, atom.args.as_slice())
}

/// Whether two states are one.
pub(crate) fn same_moment(first: Moment, second: Moment) -> bool
    ensures { result ≡ queries.same_moment first second }
{
    match (first, second) {
        (Moment::Start, Moment::Start)
        | (Moment::First, Moment::First)
        | (Moment::Second, Moment::Second)
        | (Moment::Both, Moment::Both) => true,
        _ => false,
    }
}

/// Whether two variables are one.
pub(crate) fn same_variable(first: &Variable, second: &Variable) -> bool
    ensures { result ≡ queries.same_variable first.now second.now }
{
    same_atom(&first.atom, &second.atom) && same_moment(first.moment, second.moment)
}

/// Whether two literals are one.
fn same_lit(first: &StateLit, second: &StateLit) -> bool
    ensures { result ≡ queries.same_lit first.now second.now }
{
    same_variable(&first.var, &second.var) && first.yes == second.yes
}

/// A literal with the number of its variable.
#[derive(Clone, Copy)]
pub(crate) struct KnownLit {
    pub(crate) lit: StateLit,
    pub(crate) number: u32,
}

/// What a literal of a clause is in a state: certain, or a literal of a variable with its number.
#[derive(Clone, Copy)]
pub(crate) enum KnownForm {
    Certain(bool),
    Open(KnownLit),
}

/// Whether two literals are one. Their numbers tell most of them apart.
fn same_known(first: &KnownLit, second: &KnownLit) -> bool
    ensures { result ≡ rows.same_known first.now second.now }
{
    first.number == second.number && same_lit(&first.lit, &second.lit)
}

/// The literal's denial.
pub(crate) fn denied(known: &KnownLit) -> KnownLit
    ensures { result ≡ rows.denied known.now }
{
    KnownLit {
        lit: StateLit {
            var: known.lit.var,
            yes: !known.lit.yes,
        },
        number: known.number,
    }
}

/// Whether a literal is among these.
fn among(known: &KnownLit, lits: &[KnownLit]) -> bool
    ensures { result ≡ list_any (rows.same_known known.now) lits.now }
{
    for other in lits {
        if same_known(known, other) {
            return true;
        }
    }
    false
}

/// Whether a variable stands in both signs.
#[tactic(auto, using(crate::proofs::Looking::signs_step))]
fn has_both_signs(lits: &[KnownLit]) -> bool
    ensures { result ≡ rows.known_both_signs lits.now }
{
    let mut left = lits;
    'pairing: while !left.is_empty() {
        let (head, tail) = left.split_at(1);
        if among(&denied(&head[0]), tail) {
            return true;
        }
        left = tail;
    }
    false
}

/// Lists each literal once, where it stands first, in place of those listed before.
#[tactic(auto, using(crate::proofs::Looking::dedup_step))]
fn dedup(lits: &[KnownLit], once: &mut List<KnownLit>) -> Result<(), NoMemory>
    ensures { OnOk result (once.new ≡ queries.dedup rows.same_known lits.now) }
{
    once.truncate(0);
    for lit in lits {
        if !among(lit, once.as_slice()) {
            once.push(*lit)?;
        }
    }
    Ok(())
}

/// The atom of a row with this truth, in a state.
fn row_form(row: &Row, sign: bool, moment: Moment) -> KnownForm
    ensures { result ≡ rows.row_form row.now sign (rows.seen_at row.now moment) }
{
    let yes = row.wins == sign;
    match seen_in(row, moment) {
        Seen::Always => KnownForm::Certain(yes),
        Seen::Same { moment, number } => {
            let atom = row.atom;
            let var = Variable { atom, moment };
            let lit = StateLit { var, yes };
            KnownForm::Open(KnownLit { lit, number })
        }
    }
}

/// The predicate's atom at the classes of these variables, with this truth, in a state. Its row
/// stands where the slots say, or is made anew.
#[tactic(auto, using(crate::proofs::Looking::atom_formed, crate::proofs::Looking::atom_numbered, crate::proofs::Apart::row_there, crate::proofs::Apart::atom_same))]
fn atom_form(
    looking: &Looking<'_>,
    moment: Moment,
    sign: bool,
    pred: u32,
    classes: &[u32],
    vars: &Args,
) -> KnownForm
    requires { CanLook looking.now }
    ensures form { rows.form_of result ≡ queries.atom_form looking.now.asked.spec.now sign (queries.atom_of pred (truths.values classes.now vars.now)) (queries.entry_at looking.now.asked.spec.now (sets_in looking.now.asked) (queries.atom_of pred (truths.values classes.now vars.now)) moment) }
    ensures number { IsNumberedForm looking.now.asked.variables.now result }
{
    let places = vars.as_slice();
    let near = looking.slots.hint_at(pred, classes, places);
    match looking.rows.get(near) {
        Some(row) if is_at(&row.atom, pred, classes, places) => row_form(row, sign, moment),
        _ => {
            let args = values(classes, vars);
            row_form(&new_row(&looking.asked, &Atom { pred, args }), sign, moment)
        }
    }
}

/// A literal with this truth, at classes, in a state.
pub(crate) fn literal_form(
    looking: &Looking<'_>,
    moment: Moment,
    sign: bool,
    literal: &Literal,
    classes: &[u32],
) -> KnownForm
    requires { CanLook looking.now }
    ensures form { rows.form_of result ≡ queries.literal_form looking.now.asked.spec.now (sets_in looking.now.asked) moment classes.now sign literal.now }
    ensures number { IsNumberedForm looking.now.asked.variables.now result }
{
    match literal {
        Literal::Atom { pred, vars } => { atom_form(looking, moment, sign, *pred, classes, vars) }
        Literal::Equal { left, right } => {
            let equal = class_at(classes, *left) == class_at(classes, *right);
            KnownForm::Certain(equal == sign)
        }
    }
}

/// Appends the literals that these literals of a clause are in a state, up to one that is certain.
/// It answers whether there is one.
#[tactic(auto, using(crate::proofs::Building::forms_step))]
fn add_forms(
    looking: &Looking<'_>,
    moment: Moment,
    sign: bool,
    literals: &[Literal],
    classes: &[u32],
    out: &mut List<KnownLit>,
) -> Result<bool, NoMemory>
    requires can { CanLook looking.now }
    requires numbered { AllByRecursion (IsNumbered looking.now.asked.variables.now) out.old }
    ensures certain { IfOk result (λ b. b ≡ list_any queries.is_certain (signed_forms looking.now.asked moment classes.now sign literals.now)) }
    ensures lits { IfOk result (λ b. b ≡ false → map rows.lit_in out.new ≡ map rows.lit_in out.old ++ flat_map queries.form_lits (signed_forms looking.now.asked moment classes.now sign literals.now)) }
    ensures numbered { OnOk result (AllByRecursion (IsNumbered looking.now.asked.variables.now) out.new) }
{
    for literal in literals {
        match literal_form(looking, moment, sign, literal, classes) {
            KnownForm::Certain(true) => return Ok(true),
            KnownForm::Certain(false) => {}
            KnownForm::Open(lit) => out.push(lit)?,
        }
    }
    Ok(false)
}

/// Appends the literals that a clause has in a state, or answers that one is certain.
fn add_clause_forms(
    looking: &Looking<'_>,
    moment: Moment,
    clause: &Clause,
    classes: &[u32],
    out: &mut List<KnownLit>,
) -> Result<bool, NoMemory>
    requires can { CanLook looking.now }
    requires numbered { AllByRecursion (IsNumbered looking.now.asked.variables.now) out.old }
    ensures certain { IfOk result (λ b. b ≡ list_any queries.is_certain (clause_forms looking.now.asked moment classes.now clause.now)) }
    ensures lits { IfOk result (λ b. b ≡ false → map rows.lit_in out.new ≡ map rows.lit_in out.old ++ flat_map queries.form_lits (clause_forms looking.now.asked moment classes.now clause.now)) }
    ensures numbered { OnOk result (AllByRecursion (IsNumbered looking.now.asked.variables.now) out.new) }
{
    let premise = add_forms(
        looking,
        moment,
        false,
        clause.premise.as_slice(),
        classes,
        out,
    )?;
    if premise {
        return Ok(true);
    }
    let conclusion = add_forms(
        looking,
        moment,
        true,
        clause.conclusion.as_slice(),
        classes,
        out,
    )?;
    Ok(conclusion)
}

/// Room for the literals of one clause, as they come and each once.
#[derive(Drop)]
pub(crate) struct ClauseRoom {
    lits: List<KnownLit>,
    pub(crate) once: List<KnownLit>,
}

impl ClauseRoom {
    /// Room without literals.
    pub(crate) fn new(alloc: Global) -> ClauseRoom {
        ClauseRoom {
            lits: List::new(alloc),
            once: List::new(alloc),
        }
    }
}

/// Whether the clause has a form in a state, which `once` then lists. It has none where it is
/// certain or has a variable in both signs.
#[tactic(auto, using(crate::proofs::Looking::certain_clause, crate::proofs::Looking::signs_clause, crate::proofs::Looking::open_clause, crate::proofs::Looking::once_numbered))]
pub(crate) fn make_clause(
    looking: &Looking<'_>,
    moment: Moment,
    clause: &Clause,
    classes: &[u32],
    room: &mut ClauseRoom,
) -> Result<bool, NoMemory>
    requires { CanLook looking.now }
    ensures value { IfOk result (λ made. rows.made_clause made room.new.once ≡ queries.clause_of (clause_forms looking.now.asked moment classes.now clause.now)) }
    ensures numbered { IfOk result (λ made. made ≡ true → AllByRecursion (IsNumbered looking.now.asked.variables.now) room.new.once) }
{
    room.lits.truncate(0);
    if add_clause_forms(looking, moment, clause, classes, &mut room.lits)? {
        return Ok(false);
    }
    if has_both_signs(room.lits.as_slice()) {
        return Ok(false);
    }
    dedup(room.lits.as_slice(), &mut room.once)?;
    Ok(true)
}
