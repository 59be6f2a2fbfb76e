//! All rights of a setup.

ghost use Rattle.std.specs.Prelude.{◌≡◌, ◌≤◌, ◌+◌, ◌++◌, [], length, IfOk, OnOk};
ghost use Rattle.std.specs.List.{AllByRecursion, flat_map};
ghost use Rattle.spec_model.specs.AllRights as all;
ghost use Rattle.spec_model.specs.AllRights.{rights_of};
ghost use Rattle.spec_model.specs.Fits.{IsWellFormed, PlanFits};
ghost use Rattle.effect_model.specs.Rights as rights;

use crate::breaking::var_sizes;
use crate::layout::sort_sizes;
use crate::rights::{is_atom, key_sizes};
use crate::walk::{Listing, walk};
use ind_base::{Args, List, NoMemory};
use spec_model::{Cell, Clause, Literal, LockKind, Num, Right, Setup, Spec};
use std::alloc::Global;

/// Rights that each stand for one tuple of a number, a lock or a partition.
#[derive(Clone, Copy)]
pub(crate) enum Family {
    Low,
    High,
    Lock,
    Part,
}

/// The right of a family at these elements.
fn right_at(family: Family, of: u32, args: &Args) -> Right
    ensures { result ≡ rights.right_at family of args.now }
{
    let cell = Cell {
        num: of,
        args: *args,
    };
    match family {
        Family::Low => Right::Low(cell),
        Family::High => Right::High(cell),
        Family::Lock => Right::Lock {
            lock: of,
            key: *args,
        },
        Family::Part => Right::Part {
            part: of,
            key: *args,
        },
    }
}

/// The rights of a family to one number, lock or partition.
#[derive(Clone, Copy)]
struct Ranging {
    family: Family,
    of: u32,
}

impl Listing for Ranging {
    ghost use Rattle.std.specs.Prelude.{◌∷◌, []};

    type Item = Right;

    ghost fits = { λ r xs. Unit {0} };

    ghost listed = { λ r xs. rights.right_at r.family r.of xs ∷ [] };

    fn next(&self, _front: &[u32], from: u32) -> u32 {
        from
    }

    fn list(&self, args: &Args, out: &mut List<Right>) -> Result<(), NoMemory> {
        let _so_far = out.as_slice();
        out.push(right_at(self.family, self.of, args))
    }
}

/// Appends the rights of one number, lock or partition, if it has any.
fn list_below(
    ranging: &Ranging,
    any: bool,
    sizes: &Args,
    out: &mut List<Right>,
) -> Result<(), NoMemory>
    ensures { OnOk result (out.new ≡ out.old ++ rights.rights_below ranging.now.family ranging.now.of any sizes.now) }
{
    if !any {
        return Ok(());
    }
    walk(ranging, Args::new(), sizes.as_slice(), out)
}

/// Whether the number has the bound that rights of the family keep.
fn has_bound(family: Family, num: &Num) -> bool
    ensures { result ≡ rights.has_bound family num.now }
{
    match family {
        Family::Low => num.min.is_some(),
        Family::High => num.max.is_some(),
        Family::Lock => false,
        Family::Part => false,
    }
}

/// Appends the rights of a family to all cells.
fn list_cells(family: Family, spec: &Spec, out: &mut List<Right>) -> Result<(), NoMemory>
    requires { IsWellFormed spec.now }
    ensures { OnOk result (out.new ≡ out.old ++ rights.cell_rights family spec.now 0 spec.now.nums) }
{
    for (at, num) in spec.nums.as_slice().iter().enumerate() {
        let ranging = Ranging {
            family,
            of: at as u32,
        };
        let sizes = sort_sizes(spec, num.sorts.as_slice());
        list_below(&ranging, has_bound(family, num), &sizes, out)?;
    }
    Ok(())
}

/// Appends the rights of a family to all keys of these locks or partitions.
fn list_keys(
    family: Family,
    spec: &Spec,
    kinds: &[LockKind],
    out: &mut List<Right>,
) -> Result<(), NoMemory>
    requires short { AllByRecursion rights.HasShortKey kinds.now }
    requires few { length kinds.now ≤ 4096 }
    ensures { OnOk result (out.new ≡ out.old ++ all.key_rights (λ n key. rights.right_at family n key) spec.now 0 kinds.now) }
{
    for (at, kind) in kinds.iter().enumerate() {
        let ranging = Ranging {
            family,
            of: at as u32,
        };
        let sizes = key_sizes(spec, kind);
        list_below(&ranging, true, &sizes, out)?;
    }
    Ok(())
}

/// Appends the right to an entry, if its literal is an atom.
fn list_entry(right: Right, literal: &Literal, out: &mut List<Right>) -> Result<(), NoMemory>
    ensures { OnOk result (out.new ≡ out.old ++ rights.entry_where right literal.now) }
{
    let _so_far = out.as_slice();
    if is_atom(literal) {
        out.push(right)?;
    }
    Ok(())
}

/// Appends the rights to the entries of these literals, the first of which stands at this place.
fn list_literals(
    literals: &[Literal],
    first: usize,
    clause: u32,
    args: &Args,
    out: &mut List<Right>,
) -> Result<(), NoMemory>
    requires { first + length literals.now ≤ 8 }
    ensures { OnOk result (out.new ≡ out.old ++ rights.entries_from clause args.now first literals.now) }
{
    for (at, literal) in literals.iter().enumerate() {
        let right = Right::Entry {
            clause,
            args: *args,
            literal: (first + at) as u32,
        };
        list_entry(right, literal, out)?;
    }
    Ok(())
}

/// The entries of a clause.
#[derive(Clone, Copy)]
struct Entries<'a> {
    clause: &'a Clause,
    of: u32,
}

impl Listing for Entries<'_> {
    type Item = Right;

    ghost fits = { λ e xs. rights.HasFewLiterals e.clause.now };

    ghost listed = { λ e xs. rights.entries_of e.of e.clause.now xs };

    fn next(&self, _front: &[u32], from: u32) -> u32 {
        from
    }

    fn list(&self, args: &Args, out: &mut List<Right>) -> Result<(), NoMemory> {
        let premise = self.clause.premise.as_slice();
        let conclusion = self.clause.conclusion.as_slice();
        list_literals(premise, 0, self.of, args, out)?;
        list_literals(conclusion, premise.len(), self.of, args, out)
    }
}

/// Appends the rights to the entries of a clause, by elements and then literal.
fn list_entries(spec: &Spec, of: u32, out: &mut List<Right>) -> Result<(), NoMemory>
    requires { IsWellFormed spec.now }
    ensures { OnOk result (out.new ≡ out.old ++ all.entry_rights spec.now of) }
{
    match spec.clauses.get(of as usize) {
        Some(clause) => {
            let sizes = var_sizes(spec, clause.vars.as_slice());
            walk(&Entries { clause, of }, Args::new(), sizes.as_slice(), out)
        }
        None => Ok(()),
    }
}

/// Appends the rights to the entries of these clauses.
fn list_masks(spec: &Spec, masks: &[u32], out: &mut List<Right>) -> Result<(), NoMemory>
    requires { IsWellFormed spec.now }
    ensures { OnOk result (out.new ≡ out.old ++ flat_map (all.entry_rights spec.now) masks.now) }
{
    for of in masks {
        list_entries(spec, *of, out)?;
    }
    Ok(())
}

/// All rights of a setup, in the order of the trace.
pub fn all_rights(alloc: Global, setup: &Setup) -> Result<List<Right>, NoMemory>
    requires well_formed { IsWellFormed setup.now.spec }
    requires plan { PlanFits setup.now.spec setup.now.plan }
    ensures { IfOk result (λ all. all ≡ rights_of setup.now) }
{
    let spec = &setup.spec;
    let plan = &setup.plan;
    let mut out = List::new(alloc);
    list_cells(Family::Low, spec, &mut out)?;
    list_cells(Family::High, spec, &mut out)?;
    list_keys(Family::Lock, spec, plan.locks.as_slice(), &mut out)?;
    list_masks(spec, plan.masks.as_slice(), &mut out)?;
    list_keys(Family::Part, spec, plan.parts.as_slice(), &mut out)?;
    Ok(out)
}
