//! Drawing consequences, and choosing values in the order of the variables.

ghost use Rattle.std.specs.Prelude.{◌≡◌, ℕ, ◌<◌, ◌≤◌, ◌+◌, ◌∷◌, [], List, length, slice_get, Some, ◌↔◌, IsTrue, IfOk, OnOk, IfSome, IfNone};
ghost use mathlib.Core.Logic.{◌≢◌};
ghost use Rattle.ground_clauses.specs.declared.clauses.Lit.{Lit as GroundLit};
ghost use Rattle.clause_solver.specs.Assigning.{left, value_at};
ghost use Rattle.clause_solver.specs.Search.{IsConflict, KnownBelow, Moves};
ghost use Rattle.clause_solver.specs.Trails.{IsTrail};

use crate::assignment::{Cause, Left, Trail, opposite_of};
use crate::rows::Rows;
use ground_clauses::Lit;
use ind_base::NoMemory;

/// Makes the one literal that a row has left true, unless it is.
fn force(rows: &Rows, trail: &mut Trail, lit: Lit, row: u32) -> Result<(), NoMemory>
    requires trail { IsTrail rows.now trail.old }
    requires left { (c : List GroundLit) × (slice_get rows.now row ≡ Some c) × (left trail.old.values c ≡ lit ∷ []) }
    ensures { OnOk result (Moves rows.now trail.old trail.new) }
{
    if trail.is_open(lit.var) {
        trail.push(lit, Cause::Row(row))?;
    }
    Ok(())
}

/// Draws the consequence of one row; whether all its literals are false.
fn examine(rows: &Rows, trail: &mut Trail, row: u32) -> Result<bool, NoMemory>
    requires { IsTrail rows.now trail.old }
    ensures moves { IfOk result (λ _. Moves rows.now trail.old trail.new) }
    ensures conflict { IfOk result (λ found. IsTrue found → IsConflict rows.now trail.new.values row) }
{
    let Some(clause) = rows.clause(row) else {
        return Ok(false);
    };
    match trail.left_of(clause) {
        Left::Nothing => Ok(true),
        Left::Many => Ok(false),
        Left::One(lit) => {
            force(rows, trail, lit, row)?;
            Ok(false)
        }
    }
}

/// Draws the consequences of the rows from this one on, up to a conflict.
pub(crate) fn examine_from(
    rows: &Rows,
    trail: &mut Trail,
    first: u32,
) -> Result<Option<u32>, NoMemory>
    requires { IsTrail rows.now trail.old }
    ensures moves { IfOk result (λ _. Moves rows.now trail.old trail.new) }
    ensures conflict { IfOk result (λ found. IfSome found (λ row. IsConflict rows.now trail.new.values row)) }
{
    for row in first..rows.count()? {
        if examine(rows, trail, row)? {
            return Ok(Some(row));
        }
    }
    Ok(None)
}

/// Draws the consequences of a literal that became false, up to a conflict.
fn visit(rows: &Rows, trail: &mut Trail, lit: &Lit) -> Result<Option<u32>, NoMemory>
    requires { IsTrail rows.now trail.old }
    ensures moves { IfOk result (λ _. Moves rows.now trail.old trail.new) }
    ensures conflict { IfOk result (λ found. IfSome found (λ row. IsConflict rows.now trail.new.values row)) }
{
    let uses = rows.uses();
    let mut place = uses.first(lit);
    for _ in 0..uses.len() {
        let Some(found) = uses.at(place) else {
            return Ok(None);
        };
        if examine(rows, trail, found.row)? {
            return Ok(Some(found.row));
        }
        place = found.next as usize;
    }
    Ok(None)
}

/// Draws the consequences of the literals that were made true, up to a conflict.
fn propagate(rows: &Rows, trail: &mut Trail) -> Result<Option<u32>, NoMemory>
    requires { IsTrail rows.now trail.old }
    ensures moves { IfOk result (λ _. Moves rows.now trail.old trail.new) }
    ensures conflict { IfOk result (λ found. IfSome found (λ row. IsConflict rows.now trail.new.values row)) }
{
    for at in trail.done..trail.values.len() {
        let Some(entry) = trail.entries.get(at) else {
            return Ok(None);
        };
        let lit = opposite_of(&entry.lit);
        if let Some(row) = visit(rows, trail, &lit)? {
            return Ok(Some(row));
        }
        trail.done = at + 1;
    }
    Ok(None)
}

/// Makes the variable false, unless it has a value, and draws the consequences.
fn choose(rows: &Rows, trail: &mut Trail, var: u32) -> Result<Option<u32>, NoMemory>
    requires trail { IsTrail rows.now trail.old }
    requires known { var < length trail.old.values }
    requires below { KnownBelow var trail.old.values }
    ensures moves { IfOk result (λ _. Moves rows.now trail.old trail.new) }
    ensures conflict { IfOk result (λ found. IfSome found (λ row. IsConflict rows.now trail.new.values row)) }
    ensures below { IfOk result (λ found. IfNone found (KnownBelow (var + 1) trail.new.values)) }
{
    if !trail.is_open(var) {
        return Ok(None);
    }
    trail.push(Lit { var, yes: false }, Cause::Choice)?;
    propagate(rows, trail)
}

/// Whether all literals of a row are false.
#[tactic(auto, using(crate::proofs::Searching::conflict_kind, crate::proofs::Searching::conflict_past))]
fn is_conflict(rows: &Rows, trail: &Trail, row: u32) -> bool
    ensures { IsTrue result ↔ IsConflict rows.now trail.now.values row }
{
    match rows.clause(row) {
        Some(clause) => matches!(trail.left_of(clause), Left::Nothing),
        None => false,
    }
}

/// The first row that is false.
fn first_false(rows: &Rows, trail: &Trail) -> Result<Option<u32>, NoMemory>
    ensures conflict { IfOk result (λ found. IfSome found (λ row. IsConflict rows.now trail.now.values row)) }
    ensures none { IfOk result (λ found. IfNone found ((r : ℕ) → IsConflict rows.now trail.now.values r → ⊥)) }
{
    for row in 0..rows.count()? {
        if is_conflict(rows, trail, row) {
            return Ok(Some(row));
        }
    }
    Ok(None)
}

/// Looks for a row that is false once every variable has a value. Without such a row the values are
/// those of a model.
pub(crate) fn descend(rows: &Rows, trail: &mut Trail) -> Result<Option<u32>, NoMemory>
    requires trail { IsTrail rows.now trail.old }
    ensures moves { IfOk result (λ _. Moves rows.now trail.old trail.new) }
    ensures conflict { IfOk result (λ found. IfSome found (λ row. IsConflict rows.now trail.new.values row)) }
    ensures known { IfOk result (λ found. IfNone found (KnownBelow (length trail.new.values) trail.new.values)) }
    ensures none { IfOk result (λ found. IfNone found ((r : ℕ) → IsConflict rows.now trail.new.values r → ⊥)) }
{
    if let Some(row) = propagate(rows, trail)? {
        return Ok(Some(row));
    }
    for var in 0..trail.count() {
        if let Some(row) = choose(rows, trail, var)? {
            return Ok(Some(row));
        }
    }
    first_false(rows, trail)
}
