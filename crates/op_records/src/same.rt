//! Whether batches are the same.

ghost use Rattle.std.specs.Prelude.{◌≡◌, ◌↔◌, IsTrue};

use ind_base::Spans;
use run_model::Batch;
use spec_model::{Body, Inst, LogItem, Piece, Right};

/// Whether two lists of spans are the same.
fn same_spans(a: &Spans, b: &Spans) -> bool
    ensures { IsTrue result ↔ (a.now ≡ b.now) }
{
    let count = a.len();
    if b.len() != count {
        return false;
    }
    for at in 0..count {
        if a.get(at) != b.get(at) {
            return false;
        }
    }
    true
}

/// Whether two rights are the same.
fn same_right(a: &Right, b: &Right) -> bool
    ensures { IsTrue result ↔ (a.now ≡ b.now) }
{
    a == b
}

/// Whether two pieces are the same.
fn same_piece(a: &Piece, b: &Piece) -> bool
    ensures { IsTrue result ↔ (a.now ≡ b.now) }
{
    a == b
}

/// Whether two operations with their arguments are the same.
fn same_inst(a: &Inst, b: &Inst) -> bool
    ensures { IsTrue result ↔ (a.now ≡ b.now) }
{
    a.op == b.op && same_spans(&a.args, &b.args)
}

/// Whether two items do the same.
pub(crate) fn same_body(a: &Body, b: &Body) -> bool
    ensures { IsTrue result ↔ (a.now ≡ b.now) }
{
    match (a, b) {
        (Body::Act(x), Body::Act(y)) => same_inst(x, y),
        (
            Body::Out { to, right, piece },
            Body::Out {
                to: other_to,
                right: other_right,
                piece: other_piece,
            },
        ) => to == other_to && same_right(right, other_right) && same_piece(piece, other_piece),
        (
            Body::Accept { from, index },
            Body::Accept {
                from: other_from,
                index: other_index,
            },
        ) => from == other_from && index == other_index,
        _ => false,
    }
}

/// Whether two pasts are the same.
fn same_past(a: &[u32], b: &[u32]) -> bool
    ensures { IsTrue result ↔ (a.now ≡ b.now) }
{
    let mut left = b;
    for count in a {
        let [other, rest @ ..] = left else {
            return false;
        };
        if *count != *other {
            return false;
        }
        left = rest;
    }
    left.is_empty()
}

/// Whether two items are the same.
fn same_item(a: &LogItem, b: &LogItem) -> bool
    ensures { IsTrue result ↔ (a.now ≡ b.now) }
{
    a.origin == b.origin
        && a.index == b.index
        && same_past(a.deps.as_slice(), b.deps.as_slice())
        && same_body(&a.body, &b.body)
}

/// Whether two lists of items are the same.
fn same_items(a: &[LogItem], b: &[LogItem]) -> bool
    ensures { IsTrue result ↔ (a.now ≡ b.now) }
{
    let mut left = b;
    for item in a {
        let [other, rest @ ..] = left else {
            return false;
        };
        if !same_item(item, other) {
            return false;
        }
        left = rest;
    }
    left.is_empty()
}

/// Whether two batches are the same.
pub fn same_batch(a: &Batch, b: &Batch) -> bool
    ensures { IsTrue result ↔ (a.now ≡ b.now) }
{
    same_items(a.items.as_slice(), b.items.as_slice())
}
