//! The specification of the generated documents.

ghost use Rattle.std.specs.Prelude.{◌≡◌, ◌∷◌, [], IfOk};
ghost use Rattle.soak_documents.specs.Stock as stock;

use ind_base::{Args, List, NoMemory};
use spec_model::{Line, Num, Op, Sort, Spec, Var};
use std::alloc::Global;

fn item_sort(alloc: Global) -> Result<Sort, NoMemory>
    ensures { IfOk result (λ s. s ≡ stock.item_sort) }
{
    Ok(Sort {
        name: List::from_slice(alloc, b"item")?,
        size: 8,
    })
}

/// The place 0 alone: the only sort, or the only parameter.
fn first_place() -> Args
    ensures { result ≡ 0 ∷ [] }
{
    let mut places = Args::new();
    places.push(0);
    places
}

fn stock_num(alloc: Global) -> Result<Num, NoMemory>
    ensures { IfOk result (λ n. n ≡ stock.stock_num) }
{
    Ok(Num {
        name: List::from_slice(alloc, b"stock")?,
        sorts: first_place(),
        init: 40,
        min: Some(0),
        max: Some(80),
    })
}

fn item_param(alloc: Global) -> Result<Var, NoMemory>
    ensures { IfOk result (λ v. v ≡ stock.item_param) }
{
    Ok(Var {
        name: List::from_slice(alloc, b"i")?,
        sort: 0,
        interval: false,
    })
}

/// An operation on one item, with one line.
fn item_op(alloc: Global, name: &[u8], line: Line) -> Result<Op, NoMemory>
    ensures { IfOk result (λ o. o ≡ stock.item_op name.now line) }
{
    let mut params = List::new(alloc);
    params.push(item_param(alloc)?)?;
    let mut lines = List::new(alloc);
    lines.push(line)?;
    Ok(Op {
        name: List::from_slice(alloc, name)?,
        params,
        lines,
    })
}

fn buy_op(alloc: Global) -> Result<Op, NoMemory>
    ensures { IfOk result (λ o. o ≡ stock.buy_op) }
{
    let line = Line::Sub {
        num: 0,
        params: first_place(),
        amount: 1,
    };
    item_op(alloc, b"buy", line)
}

fn refill_op(alloc: Global) -> Result<Op, NoMemory>
    ensures { IfOk result (λ o. o ≡ stock.refill_op) }
{
    let line = Line::Add {
        num: 0,
        params: first_place(),
        amount: 3,
    };
    item_op(alloc, b"refill", line)
}

fn ops(alloc: Global) -> Result<List<Op>, NoMemory>
    ensures { IfOk result (λ ops. ops ≡ stock.buy_op ∷ stock.refill_op ∷ []) }
{
    let mut ops = List::new(alloc);
    ops.push(buy_op(alloc)?)?;
    ops.push(refill_op(alloc)?)?;
    Ok(ops)
}

/// Items of which 40 are in stock, at most 80.
pub(crate) fn stock_spec(alloc: Global) -> Result<Spec, NoMemory>
    ensures { IfOk result (λ spec. spec ≡ stock.stock_spec) }
{
    let mut sorts = List::new(alloc);
    sorts.push(item_sort(alloc)?)?;
    let mut nums = List::new(alloc);
    nums.push(stock_num(alloc)?)?;
    Ok(Spec {
        sorts,
        preds: List::new(alloc),
        nums,
        clauses: List::new(alloc),
        ops: ops(alloc)?,
        free: List::new(alloc),
    })
}
