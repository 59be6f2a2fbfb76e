//! What a hypothesis is in the first three states, with one look for each of its atoms.

ghost use Rattle.std.specs.Prelude.{◌≡◌, true, false, ◌∷◌, [], ◌++◌, ◌||◌, ◌&&◌, ltb, IfOk, IfSome, OnOk};
ghost use Rattle.std.specs.List.{list_any};
ghost use Rattle.ground_clauses.specs.Query as queries;
ghost use Rattle.ground_clauses.specs.Rows as rows;
ghost use Rattle.ground_clauses.specs.Rows.{CanLook, HasNumber, IsRow};
ghost use Rattle.ground_clauses.specs.ThreeStates as states;
ghost use Rattle.ground_clauses.specs.ThreeStates.{Grows, GrowsBy, HasForms};
ghost use Rattle.spec_model.specs.Truths as truths;

use crate::clauses::Lit;
use crate::instances::Instance;
use crate::literals::is_at;
use crate::rows::{Looking, Row, Seen};
use crate::state_lit::Variable;
use crate::touched::class_at;
use ind_base::{List, NoMemory};
use spec_model::Literal;
use std::alloc::Global;

/// What the literals of a clause are in one state, as far as they were read.
#[derive(Drop)]
pub(crate) struct OneState {
    /// Whether one of them is certain.
    pub(crate) certain: bool,
    /// Whether the others are of variables of the query, so that equal numbers are equal variables.
    pub(crate) own: bool,
    /// The others.
    pub(crate) lits: List<Lit>,
}

/// Whether two literals are one, by their numbers.
fn same_number(first: Lit, second: Lit) -> bool
    ensures { result ≡ states.same_number first second }
{
    first.var == second.var && first.yes == second.yes
}

/// Whether a literal is among these.
pub(crate) fn has_number(lit: Lit, lits: &[Lit]) -> bool
    ensures { result ≡ list_any (states.same_number lit) lits.now }
{
    for other in lits {
        if same_number(lit, *other) {
            return true;
        }
    }
    false
}

/// The literal's denial.
fn denied_number(lit: Lit) -> Lit
    ensures { result ≡ states.denied_number lit }
{
    Lit {
        var: lit.var,
        yes: !lit.yes,
    }
}

/// Whether a variable stands in both signs.
#[tactic(auto, using(crate::proofs::ThreeStates::signs_step))]
fn has_both_numbers(lits: &[Lit]) -> bool
    ensures { result ≡ states.both_numbers lits.now }
{
    let mut left = lits;
    'pairing: while !left.is_empty() {
        let (head, tail) = left.split_at(1);
        if has_number(denied_number(head[0]), tail) {
            return true;
        }
        left = tail;
    }
    false
}

impl OneState {
    /// Nothing was read.
    fn new(alloc: Global) -> OneState {
        OneState {
            certain: false,
            own: true,
            lits: List::new(alloc),
        }
    }

    /// Begins anew.
    fn clear(&mut self)
        ensures certain { self.new.certain ≡ false }
        ensures lits { self.new.lits ≡ [] }
    {
        self.certain = false;
        self.own = true;
        self.lits.truncate(0);
    }

    /// Adds a literal that has this truth for certain.
    fn add_certain(&mut self, truth: bool)
        ensures certain { self.new.certain ≡ (self.old.certain || truth) }
        ensures own { self.new.own ≡ self.old.own }
        ensures lits { self.new.lits ≡ self.old.lits }
    {
        self.certain = self.certain || truth;
    }

    /// Adds a literal of a variable with this number, where so many are the query's.
    fn add_open(&mut self, count: usize, number: u32, yes: bool) -> Result<(), NoMemory>
        ensures certain { self.new.certain ≡ self.old.certain }
        ensures own { self.new.own ≡ (self.old.own && ltb number count) }
        ensures lits { OnOk result (self.new.lits ≡ self.old.lits ++ states.number_lit number yes ∷ []) }
    {
        self.own = self.own && (number as usize) < count;
        self.lits.push(Lit { var: number, yes })
    }

    /// Adds the atom of a row with this truth, where this is seen of it.
    #[tactic(auto, using(crate::proofs::ThreeStates::grown_certain, crate::proofs::ThreeStates::grown_open))]
    fn add(
        &mut self,
        variables: &[Variable],
        row: &Row,
        sign: bool,
        seen: Seen,
    ) -> Result<(), NoMemory>
        requires { HasNumber variables.now row.now.atom seen }
        ensures { OnOk result (Grows variables.now self.old self.new (rows.form_of (rows.row_form row.now sign seen) ∷ [])) }
    {
        let yes = row.wins == sign;
        match seen {
            Seen::Always => {
                self.add_certain(yes);
                Ok(())
            }
            Seen::Same { number, .. } => self.add_open(variables.len(), number, yes),
        }
    }

    /// Whether the clause has no form in this state.
    pub(crate) fn is_true(&self) -> bool
        ensures { result ≡ (self.now.certain || states.both_numbers self.now.lits) }
    {
        self.certain || has_both_numbers(self.lits.as_slice())
    }
}

/// What the literals of a clause are in each of the first three states.
#[derive(Drop)]
pub(crate) struct ThreeStates {
    pub(crate) start: OneState,
    pub(crate) first: OneState,
    pub(crate) second: OneState,
}

/// The row of the predicate's atom at the classes of these variables, if it stands where the slots
/// say.
fn listed_row<'a>(
    looking: &Looking<'a>,
    pred: u32,
    classes: &[u32],
    vars: &[u32],
) -> Option<&'a Row>
    requires { CanLook looking.now }
    ensures row { IfSome result (λ r. IsRow looking.now.asked r.now) }
    ensures atom { IfSome result (λ r. r.now.atom ≡ queries.atom_of pred (truths.values classes.now vars.now)) }
{
    let row = looking
        .rows
        .get(looking.slots.hint_at(pred, classes, vars))?;
    if is_at(&row.atom, pred, classes, vars) {
        Some(row)
    } else {
        None
    }
}

impl ThreeStates {
    /// Nothing was read.
    pub(crate) fn new(alloc: Global) -> ThreeStates {
        ThreeStates {
            start: OneState::new(alloc),
            first: OneState::new(alloc),
            second: OneState::new(alloc),
        }
    }

    /// Begins anew.
    fn clear(&mut self)
        ensures start { self.new.start.certain ≡ false }
        ensures start_lits { self.new.start.lits ≡ [] }
        ensures first { self.new.first.certain ≡ false }
        ensures first_lits { self.new.first.lits ≡ [] }
        ensures second { self.new.second.certain ≡ false }
        ensures second_lits { self.new.second.lits ≡ [] }
    {
        self.start.clear();
        self.first.clear();
        self.second.clear();
    }

    /// Adds the atom of a row with this truth.
    fn add_row(&mut self, variables: &[Variable], row: &Row, sign: bool) -> Result<(), NoMemory>
        requires start { HasNumber variables.now row.now.atom row.now.start }
        requires first { HasNumber variables.now row.now.atom row.now.first }
        requires second { HasNumber variables.now row.now.atom row.now.second }
        ensures start { OnOk result (Grows variables.now self.old.start self.new.start (rows.form_of (rows.row_form row.now sign row.now.start) ∷ [])) }
        ensures first { OnOk result (Grows variables.now self.old.first self.new.first (rows.form_of (rows.row_form row.now sign row.now.first) ∷ [])) }
        ensures second { OnOk result (Grows variables.now self.old.second self.new.second (rows.form_of (rows.row_form row.now sign row.now.second) ∷ [])) }
    {
        self.start.add(variables, row, sign, row.start)?;
        self.first.add(variables, row, sign, row.first)?;
        self.second.add(variables, row, sign, row.second)?;
        Ok(())
    }

    /// Adds a literal that has this truth for certain in all states.
    fn add_certain(&mut self, truth: bool)
        ensures { states.AllCertain self.old self.new truth }
    {
        self.start.add_certain(truth);
        self.first.add_certain(truth);
        self.second.add_certain(truth);
    }

    /// Adds a literal at classes, unless its row isn't found.
    #[tactic(auto, using(crate::proofs::ThreeStates::grown_row, crate::proofs::ThreeStates::grown_equal))]
    fn add_literal(
        &mut self,
        looking: &Looking<'_>,
        sign: bool,
        literal: &Literal,
        classes: &[u32],
    ) -> Result<bool, NoMemory>
        requires { CanLook looking.now }
        ensures { IfOk result (λ found. found ≡ true → GrowsBy looking.now.asked self.old self.new classes.now sign (literal.now ∷ [])) }
    {
        match literal {
            Literal::Atom { pred, vars } => {
                match listed_row(looking, *pred, classes, vars.as_slice()) {
                    Some(row) => {
                        self.add_row(looking.asked.variables, row, sign)?;
                        Ok(true)
                    }
                    None => Ok(false),
                }
            }
            Literal::Equal { left, right } => {
                let equal = class_at(classes, *left) == class_at(classes, *right);
                self.add_certain(equal == sign);
                Ok(true)
            }
        }
    }

    /// Adds these literals at classes, unless some row isn't found.
    #[tactic(auto, using(crate::proofs::ThreeStates::next_literal, crate::proofs::ThreeStates::no_literals))]
    fn add_literals(
        &mut self,
        looking: &Looking<'_>,
        sign: bool,
        literals: &[Literal],
        classes: &[u32],
    ) -> Result<bool, NoMemory>
        requires { CanLook looking.now }
        ensures { IfOk result (λ found. found ≡ true → GrowsBy looking.now.asked self.old self.new classes.now sign literals.now) }
    {
        for literal in literals {
            if !self.add_literal(looking, sign, literal, classes)? {
                return Ok(false);
            }
        }
        Ok(true)
    }

    /// Whether all literals were of the query's variables.
    fn is_own(&self) -> bool
        ensures { result ≡ (self.now.start.own && (self.now.first.own && self.now.second.own)) }
    {
        self.start.own && (self.first.own && self.second.own)
    }

    /// Reads a hypothesis, unless a row isn't found or isn't the query's.
    #[tactic(auto, using(crate::proofs::ThreeStates::all_read))]
    pub(crate) fn read(
        &mut self,
        looking: &Looking<'_>,
        instance: &Instance<'_>,
    ) -> Result<bool, NoMemory>
        requires { CanLook looking.now }
        ensures { IfOk result (λ known. known ≡ true → HasForms looking.now.asked self.new instance.now) }
    {
        let classes = instance.classes.as_slice();
        let clause = instance.clause;
        self.clear();
        if !self.add_literals(looking, false, clause.premise.as_slice(), classes)? {
            return Ok(false);
        }
        if !self.add_literals(looking, true, clause.conclusion.as_slice(), classes)? {
            return Ok(false);
        }
        Ok(self.is_own())
    }
}
