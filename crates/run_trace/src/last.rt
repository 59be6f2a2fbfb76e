//! The text of the last states.

ghost use Rattle.std.specs.Prelude.{◌≡◌, ◌<◌, ◌^◌, ◌∷◌, [], ◌++◌, OnOk, codes, decimal, length, map};
ghost use Rattle.std.specs.List.{flat_map};
ghost use Rattle.run_model.specs.Trace as trace;

use crate::parts::{put_cell, put_integer, put_right, put_shares, put_span, put_tuple};
use ind_base::{List, NoMemory, Span, put_num};
use run_model::{CellValue, Final, History, Hold};
use spec_model::{Atom, Spec};

/// How a line about a replica begins. Nearly all replicas have one digit.
#[tactic(auto, using(crate::proofs::Heads::one_digit))]
fn put_replica(out: &mut List<u8>, me: u32) -> Result<(), NoMemory>
    ensures { OnOk result (out.new ≡ out.old ++ codes "r" ++ decimal me ++ codes " ") }
{
    if me < 10 {
        return out.extend(&[b'r', b'0' + me as u8, b' ']);
    }
    out.push(b'r')?;
    put_num(out, u64::from(me))?;
    out.push(b' ')
}

fn put_counts(out: &mut List<u8>, counts: &[u32]) -> Result<(), NoMemory>
    ensures { OnOk result (out.new ≡ out.old ++ flat_map (λ count. 32 ∷ decimal count) counts.now) }
{
    for count in counts {
        out.push(b' ')?;
        put_num(out, u64::from(*count))?;
    }
    Ok(())
}

fn put_cut(out: &mut List<u8>, me: u32, cut: &[u32]) -> Result<(), NoMemory>
    ensures { OnOk result (out.new ≡ out.old ++ trace.cut_line me cut.now) }
{
    put_replica(out, me)?;
    out.extend(b"cut")?;
    put_counts(out, cut)?;
    out.push(b'\n')
}

fn put_pred_name(out: &mut List<u8>, spec: &Spec, pred: u32) -> Result<(), NoMemory>
    ensures { OnOk result (out.new ≡ out.old ++ trace.pred_name spec.now pred) }
{
    match spec.preds.get(pred as usize) {
        Some(pred) => out.extend(pred.name.as_slice()),
        None => Ok(()),
    }
}

fn put_truth(out: &mut List<u8>, spec: &Spec, me: u32, atom: &Atom) -> Result<(), NoMemory>
    ensures { OnOk result (out.new ≡ out.old ++ trace.truth_line spec.now me atom.now) }
{
    put_replica(out, me)?;
    out.extend(b"true ")?;
    put_pred_name(out, spec, atom.pred)?;
    put_tuple(out, atom.args.as_slice())?;
    out.push(b'\n')
}

fn put_truths(out: &mut List<u8>, spec: &Spec, me: u32, truths: &[Atom]) -> Result<(), NoMemory>
    ensures { OnOk result (out.new ≡ out.old ++ flat_map (trace.truth_line spec.now me) truths.now) }
{
    for atom in truths {
        put_truth(out, spec, me, atom)?;
    }
    Ok(())
}

fn put_value(out: &mut List<u8>, spec: &Spec, me: u32, value: &CellValue) -> Result<(), NoMemory>
    ensures { OnOk result (out.new ≡ out.old ++ trace.value_line spec.now me value.now) }
{
    put_replica(out, me)?;
    out.extend(b"num ")?;
    put_cell(out, spec, &value.cell)?;
    out.push(b' ')?;
    put_integer(out, value.value)?;
    out.push(b'\n')
}

fn put_values(
    out: &mut List<u8>,
    spec: &Spec,
    me: u32,
    values: &[CellValue],
) -> Result<(), NoMemory>
    ensures { OnOk result (out.new ≡ out.old ++ flat_map (trace.value_line spec.now me) values.now) }
{
    for value in values {
        put_value(out, spec, me, value)?;
    }
    Ok(())
}

fn put_each_span(out: &mut List<u8>, spans: &[Span]) -> Result<(), NoMemory>
    ensures { OnOk result (out.new ≡ out.old ++ flat_map (λ t. 32 ∷ trace.span_text t) spans.now) }
{
    for span in spans {
        out.push(b' ')?;
        put_span(out, span)?;
    }
    Ok(())
}

/// Spans one behind the other; `-` for none.
fn put_spans(out: &mut List<u8>, spans: &[Span]) -> Result<(), NoMemory>
    ensures { OnOk result (out.new ≡ out.old ++ trace.spans_text spans.now) }
{
    match spans {
        [] => out.extend(b" -"),
        _ => put_each_span(out, spans),
    }
}

fn put_held(out: &mut List<u8>, spec: &Spec, hold: &Hold) -> Result<(), NoMemory>
    ensures { OnOk result (out.new ≡ out.old ++ trace.hold_text spec.now hold.now) }
{
    match hold {
        Hold::Count { right, count } => {
            put_right(out, spec, right)?;
            out.push(b' ')?;
            put_num(out, *count)
        }
        Hold::Shares {
            right,
            shares,
            mode,
        } => {
            put_right(out, spec, right)?;
            out.push(b' ')?;
            put_shares(out, *shares, *mode)
        }
        Hold::Points { right, spans } => {
            put_right(out, spec, right)?;
            put_spans(out, spans.as_slice())
        }
    }
}

fn put_hold(out: &mut List<u8>, spec: &Spec, me: u32, hold: &Hold) -> Result<(), NoMemory>
    ensures { OnOk result (out.new ≡ out.old ++ trace.hold_line spec.now me hold.now) }
{
    put_replica(out, me)?;
    out.extend(b"hold ")?;
    put_held(out, spec, hold)?;
    out.push(b'\n')
}

fn put_holds(out: &mut List<u8>, spec: &Spec, me: u32, holds: &[Hold]) -> Result<(), NoMemory>
    ensures { OnOk result (out.new ≡ out.old ++ flat_map (trace.hold_line spec.now me) holds.now) }
{
    for hold in holds {
        put_hold(out, spec, me, hold)?;
    }
    Ok(())
}

fn put_final(out: &mut List<u8>, spec: &Spec, me: u32, last: &Final) -> Result<(), NoMemory>
    ensures { OnOk result (out.new ≡ out.old ++ trace.final_text spec.now me last.now) }
{
    put_cut(out, me, last.cut.as_slice())?;
    put_truths(out, spec, me, last.truths.as_slice())?;
    put_values(out, spec, me, last.values.as_slice())?;
    put_holds(out, spec, me, last.holds.as_slice())
}

fn put_down(out: &mut List<u8>, me: u32) -> Result<(), NoMemory>
    ensures { OnOk result (out.new ≡ out.old ++ trace.line_of me (codes "down")) }
{
    put_replica(out, me)?;
    out.extend(b"down")?;
    out.push(b'\n')
}

fn put_last(out: &mut List<u8>, spec: &Spec, me: u32, last: &Option<Final>) -> Result<(), NoMemory>
    ensures { OnOk result (out.new ≡ out.old ++ trace.last_text spec.now me last.now) }
{
    match last {
        Some(last) => put_final(out, spec, me, last),
        None => put_down(out, me),
    }
}

/// The last states of all replicas.
pub(crate) fn put_lasts(
    out: &mut List<u8>,
    spec: &Spec,
    histories: &[History],
) -> Result<(), NoMemory>
    requires { length histories.now < 2 ^ 32 }
    ensures { OnOk result (out.new ≡ out.old ++ trace.lasts_text spec.now 0 (map (λ h. h.last) histories.now)) }
{
    for (me, history) in histories.iter().enumerate() {
        put_last(out, spec, me as u32, &history.last)?;
    }
    Ok(())
}
