//! A shop of two items. One of them may be open, and only then be listed.

ghost use Rattle.std.specs.Prelude.{◌≡◌, IfOk, IfSome, IsTrue, false};
ghost use Rattle.std.specs.List.{AllByRecursion};
ghost use Rattle.spec_model.specs.declared.clause.Clause.{Clause as ClauseOf};
ghost use Rattle.spec_model.specs.Fits.{IsWellFormed};
ghost use Rattle.run_model.specs.Fitting.{SetupFits};

use ind_base::{Args, List, NoMemory, Span, Spans, Text};
use line_text::ParseError;
use spec_language::parse_spec;
use spec_model::{Atom, Cell, Clause, Inst, Plan, Setup, Spec};
use std::alloc::Global;

const SHOP: &str = "sort item 2
pred open(item) add_wins
pred listed(item) add_wins
num stock(item) init 1 min 0
clause (i:item) listed(i) => open(i)
clause (i:item,j:item) open(i) and open(j) => i = j
op unlock(i:item)
set open(i)
op list(i:item)
set listed(i)
sub 2 stock(i)
op sell(i:item)
sub 1 stock(i)
op close(i:item)
clear open(i)
";

fn lines_of(alloc: Global, text: &str) -> Result<Vec<Text>, NoMemory> {
    let mut lines = Vec::new(alloc);
    for line in text.as_bytes().split(|b| *b == b'\n') {
        lines.push(List::from_slice(alloc, line)?)?;
    }
    Ok(lines)
}

/// Whether none of these clauses is marked.
#[tactic(auto, using(crate::proofs::Walked::each_push))]
fn none_is_marked(clauses: &[Clause]) -> bool
    ensures { IsTrue result → AllByRecursion (λ (c : ClauseOf). c.mask ≡ false) clauses.now }
{
    for clause in clauses {
        if clause.mask {
            return false;
        }
    }
    true
}

/// Two replicas of a specification without reservations, if no clause is marked.
fn bare(alloc: Global, spec: Spec) -> Option<Setup>
    requires well_formed { IsWellFormed spec }
    ensures fits { IfSome result SetupFits }
    ensures two { IfSome result (λ setup. setup.replicas ≡ 2) }
{
    if !none_is_marked(spec.clauses.as_slice()) {
        return None;
    }
    let plan = Plan {
        locks: List::new(alloc),
        masks: List::new(alloc),
        parts: List::new(alloc),
    };
    Some(Setup {
        spec,
        plan,
        replicas: 2,
    })
}

/// The shop at two replicas.
pub(crate) fn shop(alloc: Global) -> Result<Setup, ParseError>
    ensures fits { IfOk result SetupFits }
    ensures two { IfOk result (λ setup. setup.replicas ≡ 2) }
{
    let Ok(lines) = lines_of(alloc, SHOP) else {
        return Err(ParseError::Memory);
    };
    if lines.len() > 100 {
        return Err(ParseError::Memory);
    }
    let spec = parse_spec(alloc, lines.as_slice())?;
    match bare(alloc, spec) {
        Some(setup) => Ok(setup),
        None => Err(ParseError::Memory),
    }
}

fn args(elements: &[u32]) -> Args {
    let mut args = Args::new();
    for x in elements {
        if args.len() < 4 {
            args.push(*x);
        }
    }
    args
}

/// An operation at one item.
pub(crate) fn inst(op: u32, item: u32) -> Inst {
    let mut args = Spans::new();
    args.push(Span { lo: item, hi: item });
    Inst { op, args }
}

/// Whether an item is open, or listed.
pub(crate) fn atom(pred: u32, item: u32) -> Atom {
    Atom {
        pred,
        args: args(&[item]),
    }
}

/// The number of an item.
pub(crate) fn stock(item: u32) -> Cell
    ensures { result.num ≡ 0 }
{
    Cell {
        num: 0,
        args: args(&[item]),
    }
}
