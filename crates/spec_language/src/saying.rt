//! The lines that say a specification, with names for places.

ghost use Rattle.std.specs.Prelude.{◌≡◌, map, IfOk};
ghost use Rattle.spec_language.specs.Saying as sayings;

use crate::named::Named;
use ind_base::{List, NoMemory, Text};
use spec_lines::{NamedLiteral, NamedParam, NamedTerm, NamedVar, SpecLine};
use spec_model::{Clause, Line, Literal, Num, Op, Pred, Sort, Term, Var};
use std::alloc::Global;

/// The name of what stands at this place; empty behind the last one.
pub fn name_at<T: Named>(items: &[T], place: u32) -> &[u8]
    ensures { result.now ≡ sayings.name_at T.name_of items.now place }
{
    match items.get(place as usize) {
        Some(x) => x.name(),
        None => {
            let none: &[u8] = &[];
            none
        }
    }
}

#[tactic(auto, unfolding(crate::specs::Saying::sort_name))]
fn sort_name(alloc: Global, sorts: &[Sort], place: u32) -> Result<Text, NoMemory>
    ensures { IfOk result (λ w. w ≡ sayings.sort_name sorts.now place) }
{
    List::from_slice(alloc, name_at(sorts, place))
}

fn sort_names(alloc: Global, sorts: &[Sort], places: &[u32]) -> Result<List<Text>, NoMemory>
    ensures { IfOk result (λ l. l ≡ map (sayings.sort_name sorts.now) places.now) }
{
    let mut found = List::new(alloc);
    for x in places {
        found.push(sort_name(alloc, sorts, *x)?)?;
    }
    Ok(found)
}

#[tactic(auto, unfolding(crate::specs::Saying::var_name))]
fn var_name(alloc: Global, vars: &[Var], place: u32) -> Result<Text, NoMemory>
    ensures { IfOk result (λ w. w ≡ sayings.var_name vars.now place) }
{
    List::from_slice(alloc, name_at(vars, place))
}

fn var_names(alloc: Global, vars: &[Var], places: &[u32]) -> Result<List<Text>, NoMemory>
    ensures { IfOk result (λ l. l ≡ map (sayings.var_name vars.now) places.now) }
{
    let mut found = List::new(alloc);
    for x in places {
        found.push(var_name(alloc, vars, *x)?)?;
    }
    Ok(found)
}

#[tactic(auto, unfolding(crate::specs::Saying::pred_name))]
fn pred_name(alloc: Global, preds: &[Pred], place: u32) -> Result<Text, NoMemory>
    ensures { IfOk result (λ w. w ≡ sayings.pred_name preds.now place) }
{
    List::from_slice(alloc, name_at(preds, place))
}

#[tactic(auto, unfolding(crate::specs::Saying::num_name))]
fn num_name(alloc: Global, nums: &[Num], place: u32) -> Result<Text, NoMemory>
    ensures { IfOk result (λ w. w ≡ sayings.num_name nums.now place) }
{
    List::from_slice(alloc, name_at(nums, place))
}

#[tactic(auto, unfolding(crate::specs::Saying::say_sort))]
pub(crate) fn say_sort(alloc: Global, sort: &Sort) -> Result<SpecLine, NoMemory>
    ensures { IfOk result (λ l. l ≡ sayings.say_sort sort.now) }
{
    Ok(SpecLine::Sort {
        name: sort.name.copy(alloc)?,
        size: u64::from(sort.size),
    })
}

#[tactic(auto, unfolding(crate::specs::Saying::say_pred))]
pub(crate) fn say_pred(alloc: Global, sorts: &[Sort], pred: &Pred) -> Result<SpecLine, NoMemory>
    ensures { IfOk result (λ l. l ≡ sayings.say_pred sorts.now pred.now) }
{
    Ok(SpecLine::Pred {
        name: pred.name.copy(alloc)?,
        sorts: sort_names(alloc, sorts, pred.sorts.as_slice())?,
        rule: pred.rule,
        first: pred.first,
    })
}

fn value_of(n: i64) -> u64
    ensures { result ≡ sayings.value_of n }
{
    if n < 0 { 0 } else { n as u64 }
}

fn value_of_bound(bound: Option<i64>) -> Option<u64>
    ensures { result ≡ sayings.value_of_bound bound }
{
    match bound {
        Some(n) => Some(value_of(n)),
        None => None,
    }
}

#[tactic(auto, unfolding(crate::specs::Saying::say_num))]
pub(crate) fn say_num(alloc: Global, sorts: &[Sort], num: &Num) -> Result<SpecLine, NoMemory>
    ensures { IfOk result (λ l. l ≡ sayings.say_num sorts.now num.now) }
{
    Ok(SpecLine::Num {
        name: num.name.copy(alloc)?,
        sorts: sort_names(alloc, sorts, num.sorts.as_slice())?,
        init: value_of(num.init),
        min: value_of_bound(num.min),
        max: value_of_bound(num.max),
    })
}

#[tactic(auto, unfolding(crate::specs::Saying::say_var))]
fn say_var(alloc: Global, sorts: &[Sort], var: &Var) -> Result<NamedVar, NoMemory>
    ensures { IfOk result (λ v. v ≡ sayings.say_var sorts.now var.now) }
{
    Ok(NamedVar {
        name: var.name.copy(alloc)?,
        sort: sort_name(alloc, sorts, var.sort)?,
    })
}

fn say_vars(alloc: Global, sorts: &[Sort], vars: &[Var]) -> Result<List<NamedVar>, NoMemory>
    ensures { IfOk result (λ l. l ≡ map (sayings.say_var sorts.now) vars.now) }
{
    let mut found = List::new(alloc);
    for x in vars {
        found.push(say_var(alloc, sorts, x)?)?;
    }
    Ok(found)
}

#[tactic(auto, unfolding(crate::specs::Saying::say_literal))]
fn say_literal(
    alloc: Global,
    preds: &[Pred],
    vars: &[Var],
    literal: Literal,
) -> Result<NamedLiteral, NoMemory>
    ensures { IfOk result (λ l. l ≡ sayings.say_literal preds.now vars.now literal) }
{
    match literal {
        Literal::Atom { pred, vars: places } => Ok(NamedLiteral::Atom {
            pred: pred_name(alloc, preds, pred)?,
            vars: var_names(alloc, vars, places.as_slice())?,
        }),
        Literal::Equal { left, right } => Ok(NamedLiteral::Equal {
            left: var_name(alloc, vars, left)?,
            right: var_name(alloc, vars, right)?,
        }),
    }
}

fn say_literals(
    alloc: Global,
    preds: &[Pred],
    vars: &[Var],
    literals: &[Literal],
) -> Result<List<NamedLiteral>, NoMemory>
    ensures { IfOk result (λ l. l ≡ map (sayings.say_literal preds.now vars.now) literals.now) }
{
    let mut found = List::new(alloc);
    for x in literals {
        found.push(say_literal(alloc, preds, vars, *x)?)?;
    }
    Ok(found)
}

#[tactic(auto, unfolding(crate::specs::Saying::say_clause))]
pub(crate) fn say_clause(
    alloc: Global,
    sorts: &[Sort],
    preds: &[Pred],
    clause: &Clause,
) -> Result<SpecLine, NoMemory>
    ensures { IfOk result (λ l. l ≡ sayings.say_clause sorts.now preds.now clause.now) }
{
    let vars = clause.vars.as_slice();
    Ok(SpecLine::Clause {
        vars: say_vars(alloc, sorts, vars)?,
        premise: say_literals(alloc, preds, vars, clause.premise.as_slice())?,
        conclusion: say_literals(alloc, preds, vars, clause.conclusion.as_slice())?,
        mask: clause.mask,
    })
}

#[tactic(auto, unfolding(crate::specs::Saying::say_param))]
fn say_param(alloc: Global, sorts: &[Sort], param: &Var) -> Result<NamedParam, NoMemory>
    ensures { IfOk result (λ p. p ≡ sayings.say_param sorts.now param.now) }
{
    Ok(NamedParam {
        name: param.name.copy(alloc)?,
        sort: sort_name(alloc, sorts, param.sort)?,
        interval: param.interval,
    })
}

fn say_params(alloc: Global, sorts: &[Sort], params: &[Var]) -> Result<List<NamedParam>, NoMemory>
    ensures { IfOk result (λ l. l ≡ map (sayings.say_param sorts.now) params.now) }
{
    let mut found = List::new(alloc);
    for x in params {
        found.push(say_param(alloc, sorts, x)?)?;
    }
    Ok(found)
}

pub(crate) fn say_op(alloc: Global, sorts: &[Sort], op: &Op) -> Result<SpecLine, NoMemory>
    ensures { IfOk result (λ l. l ≡ sayings.say_op_line sorts.now op.now) }
{
    Ok(SpecLine::Op {
        name: op.name.copy(alloc)?,
        params: say_params(alloc, sorts, op.params.as_slice())?,
    })
}

#[tactic(auto, unfolding(crate::specs::Saying::say_term))]
fn say_term(alloc: Global, params: &[Var], term: Term) -> Result<NamedTerm, NoMemory>
    ensures { IfOk result (λ t. t ≡ sayings.say_term params.now term) }
{
    match term {
        Term::Param(place) => Ok(NamedTerm::Param(var_name(alloc, params, place)?)),
        Term::Every => Ok(NamedTerm::Every),
    }
}

fn say_terms(alloc: Global, params: &[Var], terms: &[Term]) -> Result<List<NamedTerm>, NoMemory>
    ensures { IfOk result (λ l. l ≡ map (sayings.say_term params.now) terms.now) }
{
    let mut found = List::new(alloc);
    for x in terms {
        found.push(say_term(alloc, params, *x)?)?;
    }
    Ok(found)
}

fn say_touch(
    alloc: Global,
    preds: &[Pred],
    params: &[Var],
    truth: bool,
    pred: u32,
    terms: &[Term],
) -> Result<SpecLine, NoMemory>
    ensures { IfOk result (λ l. l ≡ sayings.say_touch preds.now params.now truth pred terms.now) }
{
    Ok(SpecLine::Touch {
        truth,
        pred: pred_name(alloc, preds, pred)?,
        terms: say_terms(alloc, params, terms)?,
    })
}

fn say_change(
    alloc: Global,
    nums: &[Num],
    params: &[Var],
    raises: bool,
    num: u32,
    places: &[u32],
    amount: u64,
) -> Result<SpecLine, NoMemory>
    ensures { IfOk result (λ l. l ≡ sayings.say_change nums.now params.now raises num places.now amount) }
{
    Ok(SpecLine::Change {
        raises,
        amount,
        num: num_name(alloc, nums, num)?,
        params: var_names(alloc, params, places)?,
    })
}

#[tactic(auto, unfolding(crate::specs::Saying::say_line))]
pub(crate) fn say_line(
    alloc: Global,
    preds: &[Pred],
    nums: &[Num],
    params: &[Var],
    line: &Line,
) -> Result<SpecLine, NoMemory>
    ensures { IfOk result (λ l. l ≡ sayings.say_line preds.now nums.now params.now line.now) }
{
    match line {
        Line::Set { pred, terms } => say_touch(alloc, preds, params, true, *pred, terms.as_slice()),
        Line::Clear { pred, terms } => {
            say_touch(alloc, preds, params, false, *pred, terms.as_slice())
        }
        Line::Add {
            num,
            params: places,
            amount,
        } => say_change(alloc, nums, params, true, *num, places.as_slice(), *amount),
        Line::Sub {
            num,
            params: places,
            amount,
        } => say_change(alloc, nums, params, false, *num, places.as_slice(), *amount),
    }
}
