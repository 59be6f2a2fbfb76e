//! The text of a step.

ghost use Rattle.std.specs.Prelude.{◌≡◌, ◌∷◌, [], ◌++◌, map, OnOk, codes, decimal};
ghost use Rattle.std.specs.List.{flat_map};
ghost use Rattle.run_model.specs.Trace as trace;

use crate::parts::{put_amount, put_comma, put_held, put_missing, put_right, put_span, put_tuple};
use ind_base::{List, NoMemory, Span, Spans, put_num};
use run_model::{Ask, Outcome, StepEntry};
use spec_model::{Broken, Inst, Lacking, Spec, Var};

/// An argument: an element, or of the interval parameter a span.
fn put_arg(out: &mut List<u8>, param: &Var, arg: &Span) -> Result<(), NoMemory>
    ensures { OnOk result (out.new ≡ out.old ++ trace.arg_text param.now arg.now) }
{
    if param.interval {
        put_span(out, arg)
    } else {
        put_num(out, u64::from(arg.lo))
    }
}

/// The arguments of an operation, parted by commas.
fn put_args(out: &mut List<u8>, params: &[Var], args: &Spans) -> Result<(), NoMemory>
    ensures { OnOk result (out.new ≡ out.old ++ trace.args_text 0 params.now args.now) }
{
    for (at, param) in params.iter().enumerate() {
        let Some(arg) = args.get(at) else {
            return Ok(());
        };
        put_comma(out, at)?;
        put_arg(out, param, &arg)?;
    }
    Ok(())
}

fn put_inst(out: &mut List<u8>, spec: &Spec, inst: &Inst) -> Result<(), NoMemory>
    ensures { OnOk result (out.new ≡ out.old ++ trace.inst_text spec.now inst.now) }
{
    let Some(op) = spec.ops.get(inst.op as usize) else {
        return out.extend(b"()");
    };
    out.extend(op.name.as_slice())?;
    out.push(b'(')?;
    put_args(out, op.params.as_slice(), &inst.args)?;
    out.push(b')')
}

fn put_number(out: &mut List<u8>, number: Option<u32>) -> Result<(), NoMemory>
    ensures { OnOk result (out.new ≡ out.old ++ trace.number_text number) }
{
    match number {
        Some(number) => put_num(out, u64::from(number)),
        None => out.push(b'-'),
    }
}

fn put_link(out: &mut List<u8>, what: &[u8], peer: u32, number: Option<u32>) -> Result<(), NoMemory>
    ensures { OnOk result (out.new ≡ out.old ++ what.now ++ decimal peer ++ codes " " ++ trace.number_text number) }
{
    out.extend(what)?;
    put_num(out, u64::from(peer))?;
    out.push(b' ')?;
    put_number(out, number)
}

fn put_request(out: &mut List<u8>, spec: &Spec, inst: &Inst) -> Result<(), NoMemory>
    ensures { OnOk result (out.new ≡ out.old ++ codes "do " ++ trace.inst_text spec.now inst.now) }
{
    out.extend(b"do ")?;
    put_inst(out, spec, inst)
}

fn put_ask(out: &mut List<u8>, spec: &Spec, ask: &Ask) -> Result<(), NoMemory>
    ensures { OnOk result (out.new ≡ out.old ++ trace.ask_text spec.now ask.now) }
{
    match ask {
        Ask::Do(inst) => put_request(out, spec, inst),
        Ask::Send { to, number } => put_link(out, b"send r", *to, *number),
        Ask::Take { from, number } => put_link(out, b"take r", *from, *number),
        Ask::Crash => out.extend(b"crash"),
        Ask::Recover => out.extend(b"recover"),
    }
}

fn put_lacking(out: &mut List<u8>, spec: &Spec, lacking: &Lacking) -> Result<(), NoMemory>
    ensures { OnOk result (out.new ≡ out.old ++ trace.lacking_text spec.now lacking.now) }
{
    out.extend(b"short ")?;
    put_right(out, spec, &lacking.need.right)?;
    put_missing(out, &lacking.held)?;
    out.extend(b" need ")?;
    put_amount(out, &lacking.need.amount)?;
    out.extend(b" have ")?;
    put_held(out, &lacking.held)
}

fn put_done(out: &mut List<u8>, index: u32) -> Result<(), NoMemory>
    ensures { OnOk result (out.new ≡ out.old ++ codes "done " ++ decimal index) }
{
    out.extend(b"done ")?;
    put_num(out, u64::from(index))
}

fn put_broken(out: &mut List<u8>, broken: &Broken) -> Result<(), NoMemory>
    ensures { OnOk result (out.new ≡ out.old ++ trace.broken_text broken.now) }
{
    out.extend(b"breaks ")?;
    put_num(out, u64::from(broken.clause))?;
    put_tuple(out, broken.args.as_slice())
}

fn put_sent(out: &mut List<u8>, entries: u32, wants: u32) -> Result<(), NoMemory>
    ensures { OnOk result (out.new ≡ out.old ++ trace.sent_text entries wants) }
{
    out.extend(b"entries ")?;
    put_num(out, u64::from(entries))?;
    out.extend(b" wants ")?;
    put_num(out, u64::from(wants))
}

fn put_took(out: &mut List<u8>, applied: u32, accepted: u32, gave: u32) -> Result<(), NoMemory>
    ensures { OnOk result (out.new ≡ out.old ++ trace.took_text applied accepted gave) }
{
    out.extend(b"applied ")?;
    put_num(out, u64::from(applied))?;
    out.extend(b" accepted ")?;
    put_num(out, u64::from(accepted))?;
    out.extend(b" gave ")?;
    put_num(out, u64::from(gave))
}

fn put_outcome(out: &mut List<u8>, spec: &Spec, outcome: &Outcome) -> Result<(), NoMemory>
    ensures { OnOk result (out.new ≡ out.old ++ trace.outcome_text spec.now outcome.now) }
{
    match outcome {
        Outcome::Done { index } => put_done(out, *index),
        Outcome::Breaks(broken) => put_broken(out, broken),
        Outcome::Short(lacking) => put_lacking(out, spec, lacking),
        Outcome::Sent { entries, wants, .. } => put_sent(out, *entries, *wants),
        Outcome::Took {
            applied,
            accepted,
            gave,
            ..
        } => put_took(out, *applied, *accepted, *gave),
        Outcome::Unsent => out.extend(b"unsent"),
        Outcome::Idle => out.extend(b"idle"),
        Outcome::Full => out.extend(b"full"),
        Outcome::Stopped => out.extend(b"stopped"),
        Outcome::Kept => out.extend(b"kept"),
        Outcome::Lost => out.extend(b"lost"),
        Outcome::Same => out.extend(b"same"),
        Outcome::Up => out.extend(b"up"),
        Outcome::Down => out.extend(b"down"),
        Outcome::DiskBroken => out.extend(b"broken"),
    }
}

fn put_entry(out: &mut List<u8>, spec: &Spec, entry: &StepEntry) -> Result<(), NoMemory>
    ensures { OnOk result (out.new ≡ out.old ++ trace.entry_text spec.now entry.now) }
{
    put_num(out, entry.stamp)?;
    out.extend(b" r")?;
    put_num(out, u64::from(entry.replica))?;
    out.extend(b" ")?;
    put_ask(out, spec, &entry.ask)?;
    out.extend(b" : ")?;
    put_outcome(out, spec, &entry.outcome)?;
    out.push(b'\n')
}

/// A line for each entry.
pub(crate) fn put_entries(
    out: &mut List<u8>,
    spec: &Spec,
    entries: &[&StepEntry],
) -> Result<(), NoMemory>
    ensures { OnOk result (out.new ≡ out.old ++ flat_map (trace.entry_text spec.now) (map (λ e. e.now) entries.now)) }
{
    for entry in entries {
        put_entry(out, spec, entry)?;
    }
    Ok(())
}
