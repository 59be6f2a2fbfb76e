//! Effect lines, with places for names.

ghost use Rattle.std.specs.Prelude.{◌≡◌, ◌≤◌, length, map, count_by, IfOk};
ghost use Rattle.std.specs.List.{list_all, AllByRecursion};
ghost use Rattle.line_text.specs.Causes.{Gives};
ghost use Rattle.spec_language.specs.Draft as drafts;

use crate::places::{
    are_vars, fit_plain, is_interval, is_num, is_pred, is_var, num_place, pred_place, sort_of_var,
    sorts_of_num, sorts_of_pred, var_place, var_places,
};
use ind_base::{Args, List, NoMemory, Text};
use line_text::{Cause, LineError, guard};
use spec_lines::NamedTerm;
use spec_model::{Line, Num, Op, Pred, Term, Var};
use std::alloc::Global;

#[tactic(auto, unfolding(crate::specs::Draft::is_term_known))]
fn is_term_known(params: &[Var], term: &NamedTerm) -> bool
    ensures { result ≡ drafts.is_term_known params.now term.now }
{
    match term {
        NamedTerm::Param(name) => is_var(params, name.as_slice()),
        NamedTerm::Every => true,
    }
}

fn are_terms_known(params: &[Var], terms: &[NamedTerm]) -> bool
    ensures { result ≡ list_all (drafts.is_term_known params.now) terms.now }
{
    terms.iter().all(|x| is_term_known(params, x))
}

#[tactic(auto, unfolding(crate::specs::Draft::term_fits))]
fn term_fits(params: &[Var], term: &NamedTerm, sort: u32) -> bool
    ensures { result ≡ drafts.term_fits params.now term.now sort }
{
    match term {
        NamedTerm::Param(name) => sort_of_var(params, name.as_slice()) == sort,
        NamedTerm::Every => true,
    }
}

/// Whether there are as many terms as sorts, each of its sort.
fn fit_terms(params: &[Var], terms: &[NamedTerm], sorts: &[u32]) -> bool
    ensures { result ≡ drafts.fit_all (drafts.term_fits params.now) terms.now sorts.now }
{
    let mut xs = terms;
    let mut ss = sorts;
    'fitting: while !xs.is_empty() {
        if ss.is_empty() {
            return false;
        }
        let (x, others) = xs.split_at(1);
        let (s, sorts_behind) = ss.split_at(1);
        if !term_fits(params, &x[0], s[0]) {
            return false;
        }
        xs = others;
        ss = sorts_behind;
    }
    ss.is_empty()
}

#[tactic(auto, unfolding(crate::specs::Draft::takes_interval))]
fn takes_interval(params: &[Var], term: &NamedTerm) -> bool
    ensures { result ≡ drafts.takes_interval params.now term.now }
{
    match term {
        NamedTerm::Param(name) => is_interval(params, name.as_slice()),
        NamedTerm::Every => false,
    }
}

fn intervals_taken(params: &[Var], terms: &[NamedTerm]) -> usize
    ensures { result ≡ count_by (drafts.takes_interval params.now) terms.now }
{
    terms.iter().filter(|x| takes_interval(params, *x)).count()
}

#[tactic(auto, unfolding(crate::specs::Draft::term_of))]
fn term_of(params: &[Var], term: &NamedTerm) -> Term
    requires { length params.now ≤ 64 }
    ensures { result ≡ drafts.term_of params.now term.now }
{
    match term {
        NamedTerm::Param(name) => Term::Param(var_place(params, name.as_slice())),
        NamedTerm::Every => Term::Every,
    }
}

/// The terms with places for names.
fn terms_of(alloc: Global, params: &[Var], terms: &[NamedTerm]) -> Result<List<Term>, NoMemory>
    requires { length params.now ≤ 64 }
    ensures { IfOk result (λ l. l ≡ map (drafts.term_of params.now) terms.now) }
{
    let mut found = List::new(alloc);
    for x in terms {
        found.push(term_of(params, x))?;
    }
    Ok(found)
}

fn touch_line(truth: bool, pred: u32, terms: List<Term>) -> Line
    ensures { result ≡ drafts.touch_line truth pred terms }
{
    if truth {
        Line::Set { pred, terms }
    } else {
        Line::Clear { pred, terms }
    }
}

/// Adds a line `set` or `clear` to an operation.
#[tactic(auto, unfolding(crate::specs::Draft::op_touch))]
pub(crate) fn op_touch(
    op: &mut Op,
    alloc: Global,
    preds: &[Pred],
    truth: bool,
    pred: &[u8],
    terms: &[NamedTerm],
) -> Result<(), LineError>
    requires preds { length preds.now ≤ 64 }
    requires params { length op.old.params ≤ 64 }
    ensures { Gives (λ _. op.new) result (drafts.op_touch preds.now truth pred.now terms.now op.old) }
{
    guard(
        is_pred(preds, pred) && are_terms_known(op.params.as_slice(), terms),
        Cause::UnknownName,
    )?;
    let place = pred_place(preds, pred);
    let sorts = sorts_of_pred(preds, place);
    guard(
        fit_terms(op.params.as_slice(), terms, sorts.as_slice())
            && intervals_taken(op.params.as_slice(), terms) <= 1,
        Cause::WrongArguments,
    )?;
    guard(op.lines.len() < 16, Cause::TooMany)?;
    let terms = terms_of(alloc, op.params.as_slice(), terms)?;
    op.lines.push(touch_line(truth, place, terms))?;
    Ok(())
}

fn change_line(raises: bool, num: u32, params: Args, amount: u64) -> Line
    ensures { result ≡ drafts.change_line raises num params amount }
{
    if raises {
        Line::Add {
            num,
            params,
            amount,
        }
    } else {
        Line::Sub {
            num,
            params,
            amount,
        }
    }
}

/// Adds a line `add` or `sub` to an operation.
#[tactic(auto, unfolding(crate::specs::Draft::op_change))]
pub(crate) fn op_change(
    op: &mut Op,
    nums: &[Num],
    raises: bool,
    amount: u64,
    num: &[u8],
    names: &[Text],
) -> Result<(), LineError>
    requires nums { length nums.now ≤ 64 }
    requires params { length op.old.params ≤ 64 }
    ensures { Gives (λ _. op.new) result (drafts.op_change nums.now raises amount num.now names.now op.old) }
{
    guard(
        is_num(nums, num) && are_vars(op.params.as_slice(), names),
        Cause::UnknownName,
    )?;
    let place = num_place(nums, num);
    let sorts = sorts_of_num(nums, place);
    guard(
        names.len() <= 3 && fit_plain(op.params.as_slice(), names, sorts.as_slice()),
        Cause::WrongArguments,
    )?;
    guard(1 <= amount && amount <= 1_000_000_000, Cause::OutOfRange)?;
    guard(op.lines.len() < 16, Cause::TooMany)?;
    let params = var_places(op.params.as_slice(), names);
    op.lines.push(change_line(raises, place, params, amount))?;
    Ok(())
}

/// Adds a line `set` or `clear` to the last operation.
pub(crate) fn touch_last(
    ops: &mut List<Op>,
    alloc: Global,
    preds: &[Pred],
    truth: bool,
    pred: &[u8],
    terms: &[NamedTerm],
) -> Result<(), LineError>
    requires preds { length preds.now ≤ 64 }
    requires params { AllByRecursion (λ op. length op.params ≤ 4) ops.old }
    ensures { Gives (λ _. ops.new) result (drafts.change_last (drafts.op_touch preds.now truth pred.now terms.now) ops.old) }
{
    let Some(mut last) = ops.pop() else {
        return Err(LineError::Refused(Cause::OutOfPlace));
    };
    op_touch(&mut last, alloc, preds, truth, pred, terms)?;
    ops.push(last)?;
    Ok(())
}

/// Adds a line `add` or `sub` to the last operation.
pub(crate) fn change_last(
    ops: &mut List<Op>,
    nums: &[Num],
    raises: bool,
    amount: u64,
    num: &[u8],
    names: &[Text],
) -> Result<(), LineError>
    requires nums { length nums.now ≤ 64 }
    requires params { AllByRecursion (λ op. length op.params ≤ 4) ops.old }
    ensures { Gives (λ _. ops.new) result (drafts.change_last (drafts.op_change nums.now raises amount num.now names.now) ops.old) }
{
    let Some(mut last) = ops.pop() else {
        return Err(LineError::Refused(Cause::OutOfPlace));
    };
    op_change(&mut last, nums, raises, amount, num, names)?;
    ops.push(last)?;
    Ok(())
}
