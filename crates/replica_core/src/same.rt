//! Whether two acts are the same.

ghost use Rattle.std.specs.Prelude.{◌≡◌, ◌↔◌, IsTrue, Some};
ghost use Rattle.spec_model.specs.declared.instance.Inst.{Inst as InstOf};
ghost use Rattle.replica_core.specs.Next.{act_among, done_by};

use ind_base::Spans;
use spec_model::{Body, Inst, LogItem};

/// Whether two lists of spans are the same.
fn same_spans(a: &Spans, b: &Spans) -> bool
    ensures { IsTrue result ↔ (a.now ≡ b.now) }
{
    let count = a.len();
    if b.len() != count {
        return false;
    }
    for at in 0..count {
        if a.get(at) != b.get(at) {
            return false;
        }
    }
    true
}

/// Whether two operations with their arguments are the same.
fn same_inst(a: &Inst, b: &Inst) -> bool
    ensures { IsTrue result ↔ (a.now ≡ b.now) }
{
    a.op == b.op && same_spans(&a.args, &b.args)
}

/// Whether two bodies are one act.
fn same_done(a: &Body, b: &Body) -> bool
    ensures { IsTrue result → (inst : InstOf) × (done_by a.now ≡ Some inst) × (done_by b.now ≡ Some inst) }
{
    match (a, b) {
        (Body::Act(x), Body::Act(y)) => same_inst(x, y),
        _ => false,
    }
}

/// Whether these are one item of this replica each time, and that is the same act.
pub(crate) fn same_act(me: u32, a: &[LogItem], b: &[LogItem]) -> bool
    ensures { IsTrue result → (inst : InstOf) × (act_among me a.now ≡ Some inst) × (act_among me b.now ≡ Some inst) }
{
    match (a, b) {
        ([x], [y]) => x.origin == me && y.origin == me && same_done(&x.body, &y.body),
        _ => false,
    }
}
