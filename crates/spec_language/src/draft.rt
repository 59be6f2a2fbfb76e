//! What a specification is so far, and what each line adds to it or why it is refused.

ghost use Rattle.std.specs.Prelude.{◌≡◌, ◌≤◌, ◌+◌, true, length, map};
ghost use Rattle.std.specs.List.{AllByRecursion};
ghost use Rattle.line_text.specs.Causes.{Gives};
ghost use Rattle.spec_language.specs.Draft as drafts;
ghost use Rattle.spec_language.specs.AtStart as starts;
ghost use Rattle.spec_language.specs.Names as names;
ghost use Rattle.spec_language.specs.Bounds.{Bounds};

use crate::at_start::{at_least, at_most, clause_starts, tuple_count};
use crate::directory::directory;
use crate::effect::{change_last, touch_last};
use crate::literals::{are_literals_known, literals_fit, literals_of};
use crate::named::{are_free, has_name, is_placed, is_reserved, place_of};
use crate::places::{
    are_params_known, are_sorts, are_vars_known, intervals_among, params_of, sort_places, vars_of,
};
use ind_base::{Args, List, Text};
use line_text::{Cause, LineError, guard};
use spec_lines::{NamedLiteral, NamedParam, NamedTerm, NamedVar, SpecLine};
use spec_model::{Clause, Literal, Num, Op, Pair, Pred, Rule, Sort, Spec, Var};
use std::alloc::Global;

/// What a specification is so far.
#[derive(Drop)]
pub struct SpecDraft {
    /// The rank of the last line: 1 for sorts, 2 for predicates, 3 for numbers, 4 for clauses, 5 for
    /// operations, 6 for free pairs; 0 at first.
    pub rank: u32,
    pub spec: Spec,
    /// How many atoms and cells there are.
    pub universe: u64,
    /// How many instances the clauses have.
    pub instances: u64,
}

/// The places of the variables' sorts, at most four.
fn var_sorts(vars: &[Var]) -> Args
    requires { length vars.now ≤ 4 }
    ensures { result ≡ drafts.var_sorts vars.now }
{
    let mut places = Args::new();
    for x in vars {
        places.push(x.sort);
    }
    places
}

fn is_value(n: Option<u64>) -> bool
    ensures { result ≡ drafts.is_value n }
{
    match n {
        Some(n) => n <= 1_000_000_000_000,
        None => true,
    }
}

fn bound_of(n: Option<u64>) -> Option<i64>
    requires { drafts.is_value n ≡ true }
    ensures { result ≡ drafts.bound_of n }
{
    match n {
        Some(n) => Some(n as i64),
        None => None,
    }
}

/// Whether a declaration may not have this name.
#[tactic(auto, unfolding(crate::specs::Names::is_taken))]
fn is_taken(spec: &Spec, name: &[u8]) -> bool
    ensures { result ≡ names.is_taken spec.now name.now }
{
    is_reserved(name)
        || has_name(spec.sorts.as_slice(), name)
        || has_name(spec.preds.as_slice(), name)
        || has_name(spec.nums.as_slice(), name)
        || has_name(spec.ops.as_slice(), name)
}

/// Whether all names of the literals are known, and then whether the literals fit.
fn check_literals(
    alloc: Global,
    preds: &[Pred],
    vars: &[Var],
    premise: &[NamedLiteral],
    conclusion: &[NamedLiteral],
) -> Result<(), LineError>
    requires { length preds.now ≤ 64 }
    ensures { Gives (λ x. x) result (drafts.check_literals preds.now vars.now premise.now conclusion.now) }
{
    let by_name = directory(alloc, vars)?;
    guard(
        are_literals_known(preds, vars, &by_name, premise)
            && are_literals_known(preds, vars, &by_name, conclusion),
        Cause::UnknownName,
    )?;
    guard(
        literals_fit(preds, vars, &by_name, premise)
            && literals_fit(preds, vars, &by_name, conclusion),
        Cause::WrongArguments,
    )
}

#[tactic(auto, unfolding(crate::specs::Draft::is_op, crate::specs::Draft::op_place))]
fn is_op(ops: &[Op], name: &[u8], place: u32) -> bool
    requires { place ≡ drafts.op_place ops.now name.now }
    ensures { result ≡ drafts.is_op ops.now name.now }
{
    is_placed(ops, name, place)
}

#[tactic(auto, unfolding(crate::specs::Draft::op_place))]
fn op_place(ops: &[Op], name: &[u8]) -> u32
    requires { length ops.now ≤ 64 }
    ensures { result ≡ drafts.op_place ops.now name.now }
{
    place_of(ops, name)
}

impl SpecDraft {
    /// A specification of no line.
    pub fn new(alloc: Global) -> SpecDraft
        ensures { result ≡ drafts.fresh }
    {
        SpecDraft {
            rank: 0,
            spec: Spec {
                sorts: List::new(alloc),
                preds: List::new(alloc),
                nums: List::new(alloc),
                clauses: List::new(alloc),
                ops: List::new(alloc),
                free: List::new(alloc),
            },
            universe: 0,
            instances: 0,
        }
    }

    #[tactic(auto, unfolding(crate::specs::Draft::take_sort))]
    fn take_sort(&mut self, name: Text, size: u64) -> Result<(), LineError>
        ensures { Gives (λ _. self.new) result (drafts.take_sort self.old name size) }
    {
        guard(self.rank <= 1, Cause::OutOfPlace)?;
        guard(!is_taken(&self.spec, name.as_slice()), Cause::NameTaken)?;
        guard(1 <= size && size <= 1024, Cause::OutOfRange)?;
        guard(self.spec.sorts.len() < 16, Cause::TooMany)?;
        self.spec.sorts.push(Sort {
            name,
            size: size as u32,
        })?;
        self.rank = 1;
        Ok(())
    }

    #[tactic(auto, unfolding(crate::specs::Draft::take_pred, crate::specs::Draft::count_named))]
    fn take_pred(
        &mut self,
        name: Text,
        sorts: &[Text],
        rule: Rule,
        first: bool,
    ) -> Result<(), LineError>
        requires sorts { length self.old.spec.sorts ≤ 64 }
        requires sizes { AllByRecursion (λ s. s.size ≤ 1024) self.old.spec.sorts }
        requires universe { self.old.universe ≤ 65536 }
        ensures { Gives (λ _. self.new) result (drafts.take_pred self.old name sorts.now rule first) }
    {
        guard(self.rank <= 2, Cause::OutOfPlace)?;
        guard(!is_taken(&self.spec, name.as_slice()), Cause::NameTaken)?;
        guard(
            are_sorts(self.spec.sorts.as_slice(), sorts),
            Cause::UnknownName,
        )?;
        guard(
            sorts.len() <= 3 && self.spec.preds.len() < 64,
            Cause::TooMany,
        )?;
        let places = sort_places(self.spec.sorts.as_slice(), sorts);
        let universe = self.universe + tuple_count(self.spec.sorts.as_slice(), places.as_slice());
        guard(universe <= 65536, Cause::TooMany)?;
        self.spec.preds.push(Pred {
            name,
            sorts: places,
            rule,
            first,
        })?;
        self.universe = universe;
        self.rank = 2;
        Ok(())
    }

    #[tactic(auto, unfolding(crate::specs::Draft::take_num, crate::specs::Draft::count_named))]
    fn take_num(
        &mut self,
        name: Text,
        sorts: &[Text],
        init: u64,
        min: Option<u64>,
        max: Option<u64>,
    ) -> Result<(), LineError>
        requires sorts { length self.old.spec.sorts ≤ 64 }
        requires sizes { AllByRecursion (λ s. s.size ≤ 1024) self.old.spec.sorts }
        requires universe { self.old.universe ≤ 65536 }
        ensures { Gives (λ _. self.new) result (drafts.take_num self.old name sorts.now init min max) }
    {
        guard(self.rank <= 3, Cause::OutOfPlace)?;
        guard(!is_taken(&self.spec, name.as_slice()), Cause::NameTaken)?;
        guard(
            are_sorts(self.spec.sorts.as_slice(), sorts),
            Cause::UnknownName,
        )?;
        guard(
            init <= 1_000_000_000_000 && is_value(min) && is_value(max),
            Cause::OutOfRange,
        )?;
        guard(
            sorts.len() <= 3 && self.spec.nums.len() < 64,
            Cause::TooMany,
        )?;
        let places = sort_places(self.spec.sorts.as_slice(), sorts);
        let universe = self.universe + tuple_count(self.spec.sorts.as_slice(), places.as_slice());
        guard(universe <= 65536, Cause::TooMany)?;
        guard(
            at_least(init, min) && at_most(init, max),
            Cause::FalseAtStart,
        )?;
        self.spec.nums.push(Num {
            name,
            sorts: places,
            init: init as i64,
            min: bound_of(min),
            max: bound_of(max),
        })?;
        self.universe = universe;
        self.rank = 3;
        Ok(())
    }

    #[tactic(auto, unfolding(crate::specs::Draft::take_literals))]
    fn take_literals(
        &mut self,
        alloc: Global,
        vars: List<Var>,
        premise: &[NamedLiteral],
        conclusion: &[NamedLiteral],
        mask: bool,
    ) -> Result<(), LineError>
        requires sizes { AllByRecursion (λ s. s.size ≤ 1024) self.old.spec.sorts }
        requires preds { length self.old.spec.preds ≤ 64 }
        requires instances { self.old.instances ≤ 1000000 }
        ensures { Gives (λ _. self.new) result (drafts.take_literals self.old vars premise.now conclusion.now mask) }
    {
        check_literals(
            alloc,
            self.spec.preds.as_slice(),
            vars.as_slice(),
            premise,
            conclusion,
        )?;
        guard(
            vars.len() <= 4
                && premise.len() + conclusion.len() <= 8
                && self.spec.clauses.len() < 64,
            Cause::TooMany,
        )?;
        let sorts = var_sorts(vars.as_slice());
        let instances = self.instances + tuple_count(self.spec.sorts.as_slice(), sorts.as_slice());
        guard(instances <= 1_000_000, Cause::TooMany)?;
        let premise = literals_of(alloc, self.spec.preds.as_slice(), vars.as_slice(), premise)?;
        let conclusion = literals_of(
            alloc,
            self.spec.preds.as_slice(),
            vars.as_slice(),
            conclusion,
        )?;
        let clause = Clause {
            vars,
            premise,
            conclusion,
            mask,
        };
        guard(
            clause_starts(
                self.spec.sorts.as_slice(),
                self.spec.preds.as_slice(),
                &clause,
            ),
            Cause::FalseAtStart,
        )?;
        self.spec.clauses.push(clause)?;
        self.instances = instances;
        self.rank = 4;
        Ok(())
    }

    /// The variables of a clause with places for their sorts.
    #[tactic(auto, unfolding(crate::specs::Draft::take_vars))]
    fn take_vars(&self, alloc: Global, vars: &[NamedVar]) -> Result<List<Var>, LineError>
        requires sorts { length self.now.spec.sorts ≤ 64 }
        ensures { Gives (λ vs. vs) result (drafts.take_vars self.now vars.now) }
    {
        guard(self.rank <= 4, Cause::OutOfPlace)?;
        guard(are_free(alloc, vars)?, Cause::NameTaken)?;
        guard(
            are_vars_known(self.spec.sorts.as_slice(), vars),
            Cause::UnknownName,
        )?;
        Ok(vars_of(alloc, self.spec.sorts.as_slice(), vars)?)
    }

    #[tactic(auto, unfolding(crate::specs::Draft::take_clause))]
    fn take_clause(
        &mut self,
        alloc: Global,
        vars: &[NamedVar],
        premise: &[NamedLiteral],
        conclusion: &[NamedLiteral],
        mask: bool,
    ) -> Result<(), LineError>
        requires sorts { length self.old.spec.sorts ≤ 64 }
        requires sizes { AllByRecursion (λ s. s.size ≤ 1024) self.old.spec.sorts }
        requires preds { length self.old.spec.preds ≤ 64 }
        requires instances { self.old.instances ≤ 1000000 }
        ensures { Gives (λ _. self.new) result (drafts.take_clause self.old vars.now premise.now conclusion.now mask) }
    {
        let vars = self.take_vars(alloc, vars)?;
        self.take_literals(alloc, vars, premise, conclusion, mask)
    }

    #[tactic(auto, unfolding(crate::specs::Draft::take_op))]
    fn take_op(&mut self, alloc: Global, name: Text, params: &[NamedParam]) -> Result<(), LineError>
        requires sorts { length self.old.spec.sorts ≤ 64 }
        ensures { Gives (λ _. self.new) result (drafts.take_op self.old name params.now) }
    {
        guard(self.rank <= 5, Cause::OutOfPlace)?;
        guard(
            !is_taken(&self.spec, name.as_slice()) && are_free(alloc, params)?,
            Cause::NameTaken,
        )?;
        guard(
            are_params_known(self.spec.sorts.as_slice(), params),
            Cause::UnknownName,
        )?;
        guard(intervals_among(params) <= 1, Cause::WrongArguments)?;
        guard(
            params.len() <= 4 && self.spec.ops.len() < 64,
            Cause::TooMany,
        )?;
        let params = params_of(alloc, self.spec.sorts.as_slice(), params)?;
        self.spec.ops.push(Op {
            name,
            params,
            lines: List::new(alloc),
        })?;
        self.rank = 5;
        Ok(())
    }

    #[tactic(auto, unfolding(crate::specs::Draft::take_touch))]
    fn take_touch(
        &mut self,
        alloc: Global,
        truth: bool,
        pred: &[u8],
        terms: &[NamedTerm],
    ) -> Result<(), LineError>
        requires preds { length self.old.spec.preds ≤ 64 }
        requires params { AllByRecursion (λ op. length op.params ≤ 4) self.old.spec.ops }
        ensures { Gives (λ _. self.new) result (drafts.take_touch self.old truth pred.now terms.now) }
    {
        guard(self.rank == 5, Cause::OutOfPlace)?;
        touch_last(
            &mut self.spec.ops,
            alloc,
            self.spec.preds.as_slice(),
            truth,
            pred,
            terms,
        )
    }

    #[tactic(auto, unfolding(crate::specs::Draft::take_change))]
    fn take_change(
        &mut self,
        raises: bool,
        amount: u64,
        num: &[u8],
        params: &[Text],
    ) -> Result<(), LineError>
        requires nums { length self.old.spec.nums ≤ 64 }
        requires params { AllByRecursion (λ op. length op.params ≤ 4) self.old.spec.ops }
        ensures { Gives (λ _. self.new) result (drafts.take_change self.old raises amount num.now params.now) }
    {
        guard(self.rank == 5, Cause::OutOfPlace)?;
        change_last(
            &mut self.spec.ops,
            self.spec.nums.as_slice(),
            raises,
            amount,
            num,
            params,
        )
    }

    /// What a line `free` adds, or its first cause.
    #[tactic(auto, unfolding(crate::specs::Draft::take_free))]
    pub fn take_free(&mut self, first: &[u8], second: &[u8]) -> Result<(), LineError>
        requires ops { length self.old.spec.ops ≤ 64 }
        ensures { Gives (λ _. self.new) result (drafts.take_free self.old first.now second.now) }
    {
        guard(self.rank <= 6, Cause::OutOfPlace)?;
        let a = op_place(self.spec.ops.as_slice(), first);
        let b = op_place(self.spec.ops.as_slice(), second);
        guard(
            is_op(self.spec.ops.as_slice(), first, a) && is_op(self.spec.ops.as_slice(), second, b),
            Cause::UnknownName,
        )?;
        self.spec.free.push(Pair { a, b })?;
        self.rank = 6;
        Ok(())
    }

    /// What a line adds, or its first cause.
    #[tactic(auto, unfolding(crate::specs::Draft::step))]
    fn take(&mut self, alloc: Global, line: SpecLine) -> Result<(), LineError>
        requires { Bounds self.old }
        ensures { Gives (λ _. self.new) result (drafts.step self.old line) }
    {
        match line {
            SpecLine::Sort { name, size } => self.take_sort(name, size),
            SpecLine::Pred {
                name,
                sorts,
                rule,
                first,
            } => self.take_pred(name, sorts.as_slice(), rule, first),
            SpecLine::Num {
                name,
                sorts,
                init,
                min,
                max,
            } => self.take_num(name, sorts.as_slice(), init, min, max),
            SpecLine::Clause {
                vars,
                premise,
                conclusion,
                mask,
            } => self.take_clause(
                alloc,
                vars.as_slice(),
                premise.as_slice(),
                conclusion.as_slice(),
                mask,
            ),
            SpecLine::Op { name, params } => self.take_op(alloc, name, params.as_slice()),
            SpecLine::Touch { truth, pred, terms } => {
                self.take_touch(alloc, truth, pred.as_slice(), terms.as_slice())
            }
            SpecLine::Change {
                raises,
                amount,
                num,
                params,
            } => self.take_change(raises, amount, num.as_slice(), params.as_slice()),
            SpecLine::Free { first, second } => self.take_free(first.as_slice(), second.as_slice()),
        }
    }

    /// The draft with what a line adds, or the line's first cause. No draft is left of a line that is
    /// refused, or for which there is no memory.
    pub fn step(self, alloc: Global, line: SpecLine) -> Result<SpecDraft, LineError>
        requires { Bounds self }
        ensures { Gives (λ d. d) result (drafts.step self line) }
    {
        let mut draft = self;
        draft.take(alloc, line)?;
        Ok(draft)
    }
}
