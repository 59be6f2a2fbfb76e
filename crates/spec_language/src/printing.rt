//! The canonical text of a specification.

ghost use Rattle.std.specs.Prelude.{◌≡◌, ◌++◌, map, IfOk, OnOk};
ghost use Rattle.std.specs.List.{flat_map};
ghost use Rattle.spec_language.specs.Again.{IsReadAgain};
ghost use Rattle.spec_language.specs.Saying as sayings;

use crate::saying::{name_at, say_clause, say_line, say_num, say_op, say_pred, say_sort};
use ind_base::{List, NoMemory};
use spec_lines::{SpecLine, put_spec_line};
use spec_model::{Clause, Line, Num, Op, Pair, Pred, Sort, Spec};
use std::alloc::Global;

/// Appends a line with its end.
#[tactic(auto, unfolding(crate::specs::Saying::ended_text))]
fn put_line(out: &mut List<u8>, line: &SpecLine) -> Result<(), NoMemory>
    ensures { OnOk result (out.new ≡ out.old ++ sayings.ended_text line.now) }
{
    put_spec_line(out, line)?;
    out.extend(b"\n")
}

fn put_sorts(out: &mut List<u8>, alloc: Global, sorts: &[Sort]) -> Result<(), NoMemory>
    ensures { OnOk result (out.new ≡ out.old ++ flat_map sayings.ended_text (map sayings.say_sort sorts.now)) }
{
    for x in sorts {
        put_line(out, &say_sort(alloc, x)?)?;
    }
    Ok(())
}

fn put_preds(
    out: &mut List<u8>,
    alloc: Global,
    sorts: &[Sort],
    preds: &[Pred],
) -> Result<(), NoMemory>
    ensures { OnOk result (out.new ≡ out.old ++ flat_map sayings.ended_text (map (sayings.say_pred sorts.now) preds.now)) }
{
    for x in preds {
        put_line(out, &say_pred(alloc, sorts, x)?)?;
    }
    Ok(())
}

fn put_nums(out: &mut List<u8>, alloc: Global, sorts: &[Sort], nums: &[Num]) -> Result<(), NoMemory>
    ensures { OnOk result (out.new ≡ out.old ++ flat_map sayings.ended_text (map (sayings.say_num sorts.now) nums.now)) }
{
    for x in nums {
        put_line(out, &say_num(alloc, sorts, x)?)?;
    }
    Ok(())
}

fn put_clauses(
    out: &mut List<u8>,
    alloc: Global,
    sorts: &[Sort],
    preds: &[Pred],
    clauses: &[Clause],
) -> Result<(), NoMemory>
    ensures { OnOk result (out.new ≡ out.old ++ flat_map sayings.ended_text (map (sayings.say_clause sorts.now preds.now) clauses.now)) }
{
    for x in clauses {
        put_line(out, &say_clause(alloc, sorts, preds, x)?)?;
    }
    Ok(())
}

fn put_effects(
    out: &mut List<u8>,
    alloc: Global,
    preds: &[Pred],
    nums: &[Num],
    op: &Op,
) -> Result<(), NoMemory>
    ensures { OnOk result (out.new ≡ out.old ++ flat_map sayings.ended_text (map (sayings.say_line preds.now nums.now op.now.params) op.now.lines)) }
{
    let lines = op.lines.as_slice();
    for x in lines {
        put_line(out, &say_line(alloc, preds, nums, op.params.as_slice(), x)?)?;
    }
    Ok(())
}

/// Appends the lines of an operation.
#[tactic(auto, unfolding(crate::specs::Saying::say_op))]
fn put_op(
    out: &mut List<u8>,
    alloc: Global,
    sorts: &[Sort],
    preds: &[Pred],
    nums: &[Num],
    op: &Op,
) -> Result<(), NoMemory>
    ensures { OnOk result (out.new ≡ out.old ++ flat_map sayings.ended_text (sayings.say_op sorts.now preds.now nums.now op.now)) }
{
    put_line(out, &say_op(alloc, sorts, op)?)?;
    put_effects(out, alloc, preds, nums, op)
}

fn put_ops(
    out: &mut List<u8>,
    alloc: Global,
    sorts: &[Sort],
    preds: &[Pred],
    nums: &[Num],
    ops: &[Op],
) -> Result<(), NoMemory>
    ensures { OnOk result (out.new ≡ out.old ++ sayings.ops_text sorts.now preds.now nums.now ops.now) }
{
    for x in ops {
        put_op(out, alloc, sorts, preds, nums, x)?;
    }
    Ok(())
}

/// Appends the line of a free pair with its end.
#[tactic(auto, unfolding(crate::specs::Saying::ended_text, crate::specs::Saying::say_free, crate::specs::Saying::op_name, spec_lines::specs::Texts::line_text))]
fn put_free(out: &mut List<u8>, ops: &[Op], pair: Pair) -> Result<(), NoMemory>
    ensures { OnOk result (out.new ≡ out.old ++ sayings.ended_text (sayings.say_free ops.now pair)) }
{
    out.extend(b"free ")?;
    out.extend(name_at(ops, pair.a))?;
    out.extend(b" ")?;
    out.extend(name_at(ops, pair.b))?;
    out.extend(b"\n")
}

fn put_frees(out: &mut List<u8>, ops: &[Op], free: &[Pair]) -> Result<(), NoMemory>
    ensures { OnOk result (out.new ≡ out.old ++ flat_map sayings.ended_text (map (sayings.say_free ops.now) free.now)) }
{
    for x in free {
        put_free(out, ops, *x)?;
    }
    Ok(())
}

fn put_spec(out: &mut List<u8>, alloc: Global, spec: &Spec) -> Result<(), NoMemory>
    ensures { OnOk result (out.new ≡ out.old ++ sayings.spec_text spec.now) }
{
    let sorts = spec.sorts.as_slice();
    let preds = spec.preds.as_slice();
    let nums = spec.nums.as_slice();
    let ops = spec.ops.as_slice();
    put_sorts(out, alloc, sorts)?;
    put_preds(out, alloc, sorts, preds)?;
    put_nums(out, alloc, sorts, nums)?;
    put_clauses(out, alloc, sorts, preds, spec.clauses.as_slice())?;
    put_ops(out, alloc, sorts, preds, nums, ops)?;
    put_frees(out, ops, spec.free.as_slice())
}

/// The canonical text of a specification. Reading it gives the specification again.
pub fn print_spec(alloc: Global, spec: &Spec) -> Result<List<u8>, NoMemory>
    ensures value { IfOk result (λ text. text ≡ sayings.spec_text spec.now) }
    ensures again { IfOk result (λ text. IsReadAgain spec.now text) }
{
    let mut out = List::new(alloc);
    put_spec(&mut out, alloc, spec)?;
    Ok(out)
}
