//! The text of a plan and a certificate.

ghost use Rattle.std.specs.Prelude.{◌≡◌, ◌<◌, ◌≤◌, ◌+◌, ◌++◌, length, drop, map, OnOk, IfOk};
ghost use Rattle.std.specs.List.{flat_map, AllByRecursion};
ghost use Rattle.spec_model.specs.Fits.{LockFits, PartFits, PlanFits};
ghost use Rattle.certificate_lines.specs.Texts.{IsSmall, StepSpelt};
ghost use Rattle.certificate_check.specs.Printed as printed;
ghost use Rattle.certificate_check.specs.Texts.{IsReadAgain, KeepsIfFew};

use crate::certificate::{CertLine, Certificate};
use ground_clauses::{Lit, Step};
use ind_base::{List, NoMemory, put_num};
use spec_model::{LockKind, Pair, Plan, Spec};
use std::alloc::Global;

/// Appends a number.
fn put(out: &mut List<u8>, number: u32) -> Result<(), NoMemory>
    ensures { OnOk result (out.new ≡ out.old ++ printed.number number) }
{
    put_num(out, u64::from(number))
}

/// Appends the name of the operation at this place.
fn put_name(out: &mut List<u8>, spec: &Spec, op: u32) -> Result<(), NoMemory>
    requires { op < length spec.now.ops }
    ensures { OnOk result (out.new ≡ out.old ++ printed.op_name spec.now op) }
{
    out.extend(spec.ops.as_slice()[op as usize].name.as_slice())
}

/// Appends ` I=J` for each pair of a key.
#[tactic(auto, using(crate::proofs::Pieces::flat_next))]
fn put_key(out: &mut List<u8>, key: &[Pair]) -> Result<(), NoMemory>
    ensures { OnOk result (out.new ≡ out.old ++ flat_map printed.pair_text key.now) }
{
    for pair in key {
        out.extend(b" ")?;
        put(out, pair.a)?;
        out.extend(b"=")?;
        put(out, pair.b)?;
    }
    Ok(())
}

/// Appends the names of the two operations, each behind a blank.
fn put_names(out: &mut List<u8>, spec: &Spec, kind: &LockKind) -> Result<(), NoMemory>
    requires { LockFits spec.now kind.now }
    ensures { OnOk result (out.new ≡ out.old ++ printed.names_text spec.now kind.now) }
{
    out.extend(b" ")?;
    put_name(out, spec, kind.a)?;
    out.extend(b" ")?;
    put_name(out, spec, kind.b)
}

/// Appends the line of a lock or a partition, behind its first word.
fn put_kind(out: &mut List<u8>, spec: &Spec, kind: &LockKind, place: usize) -> Result<(), NoMemory>
    requires { LockFits spec.now kind.now }
    ensures { OnOk result (out.new ≡ out.old ++ printed.kind_text spec.now place kind.now) }
{
    put_num(out, place as u64)?;
    put_names(out, spec, kind)?;
    put_key(out, kind.key.as_slice())?;
    out.extend(b"\n")
}

/// Appends a literal: its sign and its variable.
fn put_lit(out: &mut List<u8>, lit: &Lit) -> Result<(), NoMemory>
    ensures text { OnOk result (out.new ≡ out.old ++ printed.lit_text lit.now) }
    ensures small { OnOk result (IsSmall lit.now.var) }
{
    if lit.yes {
        out.extend(b" +")?;
    } else {
        out.extend(b" -")?;
    }
    put(out, lit.var)
}

/// Appends literals, each behind a blank.
#[tactic(auto, using(crate::proofs::Pieces::flat_next, crate::proofs::Pieces::each_push))]
fn put_lits(out: &mut List<u8>, lits: &[Lit]) -> Result<(), NoMemory>
    ensures text { OnOk result (out.new ≡ out.old ++ flat_map printed.lit_text lits.now) }
    ensures small { OnOk result (AllByRecursion (λ x. IsSmall x.var) lits.now) }
{
    for lit in lits {
        put_lit(out, lit)?;
    }
    Ok(())
}

/// Appends hints, each behind a blank.
#[tactic(auto, using(crate::proofs::Pieces::flat_next, crate::proofs::Pieces::each_push))]
fn put_hints(out: &mut List<u8>, hints: &[u32]) -> Result<(), NoMemory>
    ensures text { OnOk result (out.new ≡ out.old ++ flat_map printed.hint_text hints.now) }
    ensures small { OnOk result (AllByRecursion IsSmall hints.now) }
{
    for hint in hints {
        out.extend(b" ")?;
        put(out, *hint)?;
    }
    Ok(())
}

/// Appends the line of a step.
fn put_step(out: &mut List<u8>, step: &Step) -> Result<(), NoMemory>
    ensures text { OnOk result (out.new ≡ out.old ++ printed.step_text step.now) }
    ensures spelt { OnOk result (StepSpelt step.now) }
{
    out.extend(b"step")?;
    put_lits(out, step.lits.as_slice())?;
    out.extend(b" ;")?;
    put_hints(out, step.hints.as_slice())?;
    out.extend(b"\n")
}

/// Appends the lines of steps.
#[tactic(auto, using(crate::proofs::Pieces::flat_next, crate::proofs::Pieces::each_push))]
fn put_steps(out: &mut List<u8>, steps: &[Step]) -> Result<(), NoMemory>
    ensures text { OnOk result (out.new ≡ out.old ++ flat_map printed.step_text steps.now) }
    ensures spelt { OnOk result (AllByRecursion StepSpelt steps.now) }
{
    for step in steps {
        put_step(out, step)?;
    }
    Ok(())
}

/// Appends what stands behind a case's number, and the steps below it.
fn put_form(out: &mut List<u8>, line: &CertLine) -> Result<(), NoMemory>
    ensures text { OnOk result (out.new ≡ out.old ++ printed.form_text line.now) }
    ensures limits { OnOk result (KeepsIfFew line.now) }
{
    match line {
        CertLine::SepLock(place) => {
            out.extend(b" sep lock ")?;
            put(out, *place)?;
            out.extend(b"\n")
        }
        CertLine::SepPart(place) => {
            out.extend(b" sep part ")?;
            put(out, *place)?;
            out.extend(b"\n")
        }
        CertLine::Refuted(derivation) => {
            out.extend(b" refuted ")?;
            put_num(out, derivation.steps.len() as u64)?;
            out.extend(b"\n")?;
            put_steps(out, derivation.steps.as_slice())
        }
    }
}

/// Appends the lines of locks or partitions, numbered from 0, behind their first word.
#[tactic(auto, using(crate::proofs::Pieces::kinds_next, crate::proofs::Pieces::lock_at))]
fn put_kinds(
    out: &mut List<u8>,
    spec: &Spec,
    word: &[u8],
    kinds: &[LockKind],
) -> Result<(), NoMemory>
    requires { AllByRecursion (LockFits spec.now) kinds.now }
    ensures { OnOk result (out.new ≡ out.old ++ printed.kinds_text spec.now word.now 0 kinds.now) }
{
    for place in 0..kinds.len() {
        out.extend(word)?;
        put_kind(out, spec, &kinds[place], place)?;
    }
    Ok(())
}

/// Appends the lines of cases, numbered from 0.
#[tactic(auto, using(crate::proofs::Pieces::cases_next, crate::proofs::Pieces::each_push))]
fn put_cases(out: &mut List<u8>, lines: &[CertLine]) -> Result<(), NoMemory>
    ensures text { OnOk result (out.new ≡ out.old ++ printed.cases_text 0 lines.now) }
    ensures limits { OnOk result (AllByRecursion KeepsIfFew lines.now) }
{
    for place in 0..lines.len() {
        out.extend(b"case ")?;
        put_num(out, place as u64)?;
        put_form(out, &lines[place])?;
    }
    Ok(())
}

/// Appends the lines of a plan.
#[tactic(auto, using(crate::proofs::Pieces::parts_fit))]
fn put_plan(out: &mut List<u8>, spec: &Spec, plan: &Plan) -> Result<(), NoMemory>
    requires { PlanFits spec.now plan.now }
    ensures { OnOk result (out.new ≡ out.old ++ printed.plan_text spec.now plan.now) }
{
    out.extend(b"plan\n")?;
    put_kinds(out, spec, b"lock ", plan.locks.as_slice())?;
    put_kinds(out, spec, b"part ", plan.parts.as_slice())?;
    Ok(())
}

/// Appends the lines of a certificate.
fn put_lines(out: &mut List<u8>, certificate: &Certificate) -> Result<(), NoMemory>
    ensures text { OnOk result (out.new ≡ out.old ++ printed.lines_text certificate.now) }
    ensures limits { OnOk result (AllByRecursion KeepsIfFew certificate.now.lines) }
{
    out.extend(b"certificate\n")?;
    put_cases(out, certificate.lines.as_slice())?;
    out.extend(b"end\n")?;
    Ok(())
}

/// The text.
fn put_all(
    alloc: Global,
    spec: &Spec,
    plan: &Plan,
    certificate: &Certificate,
) -> Result<List<u8>, NoMemory>
    requires { PlanFits spec.now plan.now }
    ensures text { IfOk result (λ text. text ≡ printed.certificate_text spec.now plan.now certificate.now) }
    ensures limits { IfOk result (λ _. AllByRecursion KeepsIfFew certificate.now.lines) }
{
    let mut out = List::new(alloc);
    put_plan(&mut out, spec, plan)?;
    put_lines(&mut out, certificate)?;
    Ok(out)
}

/// The text of a plan and a certificate: a line for each lock and partition, each case and each step.
#[tactic(auto, using(crate::proofs::ReadAgain::printed_again))]
pub fn print_certificate(
    alloc: Global,
    spec: &Spec,
    plan: &Plan,
    certificate: &Certificate,
) -> Result<List<u8>, NoMemory>
    requires { PlanFits spec.now plan.now }
    ensures text { IfOk result (λ text. text ≡ printed.certificate_text spec.now plan.now certificate.now) }
    // It is read as this plan and certificate again, where its numbers keep their limits: so do all
    // but those that count locks, partitions, cases and steps.
    ensures again { IfOk result (λ text. IsReadAgain spec.now plan.now certificate.now text) }
    ensures limits { IfOk result (λ _. AllByRecursion KeepsIfFew certificate.now.lines) }
{
    let text = put_all(alloc, spec, plan, certificate)?;
    Ok(text)
}
