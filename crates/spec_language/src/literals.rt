//! The literals of a clause, with places for names.

ghost use Rattle.std.specs.Prelude.{◌≡◌, ◌≤◌, true, length, map, IfOk};
ghost use Rattle.std.specs.List.{list_all};
ghost use Rattle.spec_language.specs.Draft as drafts;
ghost use Rattle.spec_language.specs.Directory.{IsDirectory};

use crate::directory::{Known, are_in, fit_in, is_in, sort_in};
use crate::places::{is_pred, pred_place, sorts_of_pred, var_place, var_places};
use ind_base::{List, NoMemory};
use spec_lines::NamedLiteral;
use spec_model::{Literal, Pred, Var};
use std::alloc::Global;
use std::collections::BTreeMap;

#[tactic(auto, unfolding(crate::specs::Draft::is_literal_known))]
fn is_literal_known<'a>(
    preds: &[Pred],
    vars: &[Var],
    by_name: &BTreeMap<&'a [u8], Known>,
    literal: &'a NamedLiteral,
) -> bool
    requires { IsDirectory by_name.now vars.now }
    ensures { result ≡ drafts.is_literal_known preds.now vars.now literal.now }
{
    match literal {
        NamedLiteral::Atom { pred, vars: names } => {
            is_pred(preds, pred.as_slice()) && are_in(vars, by_name, names.as_slice())
        }
        NamedLiteral::Equal { left, right } => {
            is_in(vars, by_name, left.as_slice()) && is_in(vars, by_name, right.as_slice())
        }
    }
}

/// Whether all names of the literals are predicates' and of variables.
pub(crate) fn are_literals_known<'a>(
    preds: &[Pred],
    vars: &[Var],
    by_name: &BTreeMap<&'a [u8], Known>,
    literals: &'a [NamedLiteral],
) -> bool
    requires { IsDirectory by_name.now vars.now }
    ensures { result ≡ list_all (drafts.is_literal_known preds.now vars.now) literals.now }
{
    for x in literals {
        if !is_literal_known(preds, vars, by_name, x) {
            return false;
        }
    }
    true
}

#[tactic(auto, unfolding(crate::specs::Draft::literal_fits))]
fn literal_fits<'a>(
    preds: &[Pred],
    vars: &[Var],
    by_name: &BTreeMap<&'a [u8], Known>,
    literal: &'a NamedLiteral,
) -> bool
    requires preds { length preds.now ≤ 64 }
    requires directory { IsDirectory by_name.now vars.now }
    ensures { result ≡ drafts.literal_fits preds.now vars.now literal.now }
{
    match literal {
        NamedLiteral::Atom { pred, vars: names } => {
            let sorts = sorts_of_pred(preds, pred_place(preds, pred.as_slice()));
            names.len() <= 3 && fit_in(vars, by_name, names.as_slice(), sorts.as_slice())
        }
        NamedLiteral::Equal { left, right } => {
            sort_in(vars, by_name, left.as_slice()) == sort_in(vars, by_name, right.as_slice())
        }
    }
}

/// Whether each atom has its predicate's sorts and each equality one sort.
pub(crate) fn literals_fit<'a>(
    preds: &[Pred],
    vars: &[Var],
    by_name: &BTreeMap<&'a [u8], Known>,
    literals: &'a [NamedLiteral],
) -> bool
    requires preds { length preds.now ≤ 64 }
    requires directory { IsDirectory by_name.now vars.now }
    ensures { result ≡ list_all (drafts.literal_fits preds.now vars.now) literals.now }
{
    for x in literals {
        if !literal_fits(preds, vars, by_name, x) {
            return false;
        }
    }
    true
}

/// A literal that fits, with places for names.
#[tactic(auto, unfolding(crate::specs::Draft::literal_of))]
fn literal_of(preds: &[Pred], vars: &[Var], literal: &NamedLiteral) -> Literal
    requires preds { length preds.now ≤ 64 }
    requires vars { length vars.now ≤ 64 }
    requires few { drafts.has_few literal.now ≡ true }
    ensures { result ≡ drafts.literal_of preds.now vars.now literal.now }
{
    match literal {
        NamedLiteral::Atom { pred, vars: names } => Literal::Atom {
            pred: pred_place(preds, pred.as_slice()),
            vars: var_places(vars, names.as_slice()),
        },
        NamedLiteral::Equal { left, right } => Literal::Equal {
            left: var_place(vars, left.as_slice()),
            right: var_place(vars, right.as_slice()),
        },
    }
}

/// Literals that fit, with places for names.
pub(crate) fn literals_of(
    alloc: Global,
    preds: &[Pred],
    vars: &[Var],
    literals: &[NamedLiteral],
) -> Result<List<Literal>, NoMemory>
    requires preds { length preds.now ≤ 64 }
    requires vars { length vars.now ≤ 64 }
    requires fit { list_all (drafts.literal_fits preds.now vars.now) literals.now ≡ true }
    ensures { IfOk result (λ l. l ≡ map (drafts.literal_of preds.now vars.now) literals.now) }
{
    let mut found = List::new(alloc);
    for x in literals {
        found.push(literal_of(preds, vars, x))?;
    }
    Ok(found)
}
