//! Places for names: sorts, variables, predicates, numbers and operations.

ghost use Rattle.std.specs.Prelude.{◌≡◌, ◌≤◌, length, map, count_by, IfOk};
ghost use Rattle.std.specs.List.{list_all};
ghost use Rattle.spec_language.specs.Draft as drafts;

use crate::named::{has_name, place_of};
use ind_base::{Args, List, NoMemory, Text};
use line_text::same;
use spec_lines::{NamedParam, NamedVar};
use spec_model::{Num, Pred, Sort, Var};
use std::alloc::Global;

#[tactic(auto, unfolding(crate::specs::Draft::is_sort))]
pub(crate) fn is_sort(sorts: &[Sort], name: &[u8]) -> bool
    ensures { result ≡ drafts.is_sort sorts.now name.now }
{
    has_name(sorts, name)
}

#[tactic(auto, unfolding(crate::specs::Draft::sort_place))]
pub(crate) fn sort_place(sorts: &[Sort], name: &[u8]) -> u32
    requires { length sorts.now ≤ 64 }
    ensures { result ≡ drafts.sort_place sorts.now name.now }
{
    place_of(sorts, name)
}

/// Whether all of them are names of sorts.
pub(crate) fn are_sorts(sorts: &[Sort], names: &[Text]) -> bool
    ensures { result ≡ list_all (drafts.is_sort sorts.now) names.now }
{
    names.iter().all(|x| is_sort(sorts, x.as_slice()))
}

/// The places of at most four sorts.
pub(crate) fn sort_places(sorts: &[Sort], names: &[Text]) -> Args
    requires sorts { length sorts.now ≤ 64 }
    requires few { length names.now ≤ 4 }
    ensures { result ≡ map (drafts.sort_place sorts.now) names.now }
{
    let mut places = Args::new();
    for x in names {
        places.push(sort_place(sorts, x.as_slice()));
    }
    places
}

#[tactic(auto, unfolding(crate::specs::Draft::is_var))]
pub(crate) fn is_var(vars: &[Var], name: &[u8]) -> bool
    ensures { result ≡ drafts.is_var vars.now name.now }
{
    has_name(vars, name)
}

#[tactic(auto, unfolding(crate::specs::Draft::var_place))]
pub(crate) fn var_place(vars: &[Var], name: &[u8]) -> u32
    requires { length vars.now ≤ 64 }
    ensures { result ≡ drafts.var_place vars.now name.now }
{
    place_of(vars, name)
}

/// Whether all of them are names of variables or parameters.
pub(crate) fn are_vars(vars: &[Var], names: &[Text]) -> bool
    ensures { result ≡ list_all (drafts.is_var vars.now) names.now }
{
    names.iter().all(|x| is_var(vars, x.as_slice()))
}

/// The places of at most four variables or parameters.
pub(crate) fn var_places(vars: &[Var], names: &[Text]) -> Args
    requires vars { length vars.now ≤ 64 }
    requires few { length names.now ≤ 4 }
    ensures { result ≡ map (drafts.var_place vars.now) names.now }
{
    let mut places = Args::new();
    for x in names {
        places.push(var_place(vars, x.as_slice()));
    }
    places
}

pub(crate) fn sort_of_var(vars: &[Var], name: &[u8]) -> u32
    ensures { result ≡ drafts.sort_of_var vars.now name.now }
{
    for x in vars {
        if same(x.name.as_slice(), name) {
            return x.sort;
        }
    }
    0
}

pub(crate) fn is_interval(vars: &[Var], name: &[u8]) -> bool
    ensures { result ≡ drafts.is_interval vars.now name.now }
{
    for x in vars {
        if same(x.name.as_slice(), name) {
            return x.interval;
        }
    }
    false
}

#[tactic(auto, unfolding(crate::specs::Draft::is_plain))]
fn is_plain(vars: &[Var], name: &[u8], sort: u32) -> bool
    ensures { result ≡ drafts.is_plain vars.now name.now sort }
{
    sort_of_var(vars, name) == sort && !is_interval(vars, name)
}

/// Whether there are as many names as sorts, each of a variable or plain parameter of its sort.
pub(crate) fn fit_plain(vars: &[Var], names: &[Text], sorts: &[u32]) -> bool
    ensures { result ≡ drafts.fit_all (drafts.is_plain vars.now) names.now sorts.now }
{
    let mut xs = names;
    let mut ss = sorts;
    'fitting: while !xs.is_empty() {
        if ss.is_empty() {
            return false;
        }
        let (x, others) = xs.split_at(1);
        let (s, sorts_behind) = ss.split_at(1);
        if !is_plain(vars, x[0].as_slice(), s[0]) {
            return false;
        }
        xs = others;
        ss = sorts_behind;
    }
    ss.is_empty()
}

#[tactic(auto, unfolding(crate::specs::Draft::is_pred))]
pub(crate) fn is_pred(preds: &[Pred], name: &[u8]) -> bool
    ensures { result ≡ drafts.is_pred preds.now name.now }
{
    has_name(preds, name)
}

#[tactic(auto, unfolding(crate::specs::Draft::pred_place))]
pub(crate) fn pred_place(preds: &[Pred], name: &[u8]) -> u32
    requires { length preds.now ≤ 64 }
    ensures { result ≡ drafts.pred_place preds.now name.now }
{
    place_of(preds, name)
}

pub(crate) fn sorts_of_pred(preds: &[Pred], place: u32) -> Args
    ensures { result ≡ drafts.sorts_of_pred preds.now place }
{
    match preds.get(place as usize) {
        Some(pred) => pred.sorts,
        None => Args::new(),
    }
}

#[tactic(auto, unfolding(crate::specs::Draft::is_num))]
pub(crate) fn is_num(nums: &[Num], name: &[u8]) -> bool
    ensures { result ≡ drafts.is_num nums.now name.now }
{
    has_name(nums, name)
}

#[tactic(auto, unfolding(crate::specs::Draft::num_place))]
pub(crate) fn num_place(nums: &[Num], name: &[u8]) -> u32
    requires { length nums.now ≤ 64 }
    ensures { result ≡ drafts.num_place nums.now name.now }
{
    place_of(nums, name)
}

pub(crate) fn sorts_of_num(nums: &[Num], place: u32) -> Args
    ensures { result ≡ drafts.sorts_of_num nums.now place }
{
    match nums.get(place as usize) {
        Some(num) => num.sorts,
        None => Args::new(),
    }
}

#[tactic(auto, unfolding(crate::specs::Draft::is_var_known))]
fn is_var_known(sorts: &[Sort], var: &NamedVar) -> bool
    ensures { result ≡ drafts.is_var_known sorts.now var.now }
{
    is_sort(sorts, var.sort.as_slice())
}

/// Whether the sorts of all variables are declared.
pub(crate) fn are_vars_known(sorts: &[Sort], vars: &[NamedVar]) -> bool
    ensures { result ≡ list_all (drafts.is_var_known sorts.now) vars.now }
{
    vars.iter().all(|x| is_var_known(sorts, x))
}

#[tactic(auto, unfolding(crate::specs::Draft::var_of))]
fn var_of(alloc: Global, sorts: &[Sort], var: &NamedVar) -> Result<Var, NoMemory>
    requires { length sorts.now ≤ 64 }
    ensures { IfOk result (λ v. v ≡ drafts.var_of sorts.now var.now) }
{
    Ok(Var {
        name: var.name.copy(alloc)?,
        sort: sort_place(sorts, var.sort.as_slice()),
        interval: false,
    })
}

/// The variables with places for their sorts.
pub(crate) fn vars_of(
    alloc: Global,
    sorts: &[Sort],
    vars: &[NamedVar],
) -> Result<List<Var>, NoMemory>
    requires { length sorts.now ≤ 64 }
    ensures { IfOk result (λ l. l ≡ map (drafts.var_of sorts.now) vars.now) }
{
    let mut found = List::new(alloc);
    for x in vars {
        found.push(var_of(alloc, sorts, x)?)?;
    }
    Ok(found)
}

#[tactic(auto, unfolding(crate::specs::Draft::is_param_known))]
fn is_param_known(sorts: &[Sort], param: &NamedParam) -> bool
    ensures { result ≡ drafts.is_param_known sorts.now param.now }
{
    is_sort(sorts, param.sort.as_slice())
}

/// Whether the sorts of all parameters are declared.
pub(crate) fn are_params_known(sorts: &[Sort], params: &[NamedParam]) -> bool
    ensures { result ≡ list_all (drafts.is_param_known sorts.now) params.now }
{
    params.iter().all(|x| is_param_known(sorts, x))
}

#[tactic(auto, unfolding(crate::specs::Draft::param_of))]
fn param_of(alloc: Global, sorts: &[Sort], param: &NamedParam) -> Result<Var, NoMemory>
    requires { length sorts.now ≤ 64 }
    ensures { IfOk result (λ v. v ≡ drafts.param_of sorts.now param.now) }
{
    Ok(Var {
        name: param.name.copy(alloc)?,
        sort: sort_place(sorts, param.sort.as_slice()),
        interval: param.interval,
    })
}

/// The parameters with places for their sorts.
pub(crate) fn params_of(
    alloc: Global,
    sorts: &[Sort],
    params: &[NamedParam],
) -> Result<List<Var>, NoMemory>
    requires { length sorts.now ≤ 64 }
    ensures { IfOk result (λ l. l ≡ map (drafts.param_of sorts.now) params.now) }
{
    let mut found = List::new(alloc);
    for x in params {
        found.push(param_of(alloc, sorts, x)?)?;
    }
    Ok(found)
}

/// How many parameters are intervals.
pub(crate) fn intervals_among(params: &[NamedParam]) -> usize
    ensures { result ≡ count_by (λ p. p.interval) params.now }
{
    params.iter().filter(|p| p.interval).count()
}
