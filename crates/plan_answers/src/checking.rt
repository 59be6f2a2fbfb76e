//! The answer to a plan and a certificate that were written down.

ghost use Rattle.std.specs.Prelude.{◌≡◌, ◌<◌, ◌≤◌, ◌+◌, ◌*◌, ◌^◌, IfOk, length, sum_by, take};
ghost use Rattle.std.specs.List.{AllByRecursion};
ghost use Rattle.spec_model.specs.Fits.{IsWellFormed, PlanFits};
ghost use Rattle.certificate_check.specs.Checks.{AreShort, FewSteps};
ghost use Rattle.plan_answers.specs.Checking as checks;
ghost use Rattle.plan_answers.specs.Checking.{IsAnswer};

use crate::answer::{Answer, counted};
use certificate_check::{CertLine, Certificate, Read, Verdict, Why, check, parse_certificate};
use ground_clauses::case_count;
use ind_base::{List, NoMemory, Text};
use spec_model::{Plan, Spec};
use std::alloc::Global;

/// The most cases that are looked at.
const CASES: u128 = 100_000;

/// How many lines a case has: its own, and one for each step.
fn line_count(line: &CertLine) -> u128
    requires { FewSteps line.now }
    ensures value { result ≡ checks.line_count line.now }
    ensures small { result ≤ 4294967295 }
{
    match line {
        CertLine::SepLock(_) => 1,
        CertLine::SepPart(_) => 1,
        CertLine::Refuted(derivation) => 1 + derivation.steps.len() as u128,
    }
}

/// How many lines these cases have.
fn count_lines(lines: &[CertLine]) -> u128
    requires few { length lines.now ≤ 4294967294 }
    requires each { AllByRecursion FewSteps lines.now }
    ensures value { result ≡ sum_by checks.line_count lines.now }
    ensures small { result ≤ 4294967295 * length lines.now }
{
    let mut count = 0;
    for line in lines {
        count += line_count(line);
    }
    count
}

/// How many lines the first cases have.
fn count_front(certificate: &Certificate, cases: usize) -> u128
    requires { AreShort certificate.now.lines }
    ensures value { result ≡ sum_by checks.line_count (take cases certificate.now.lines) }
    ensures small { result ≤ 4294967295 * 4294967294 }
{
    let lines = certificate.lines.as_slice();
    let (front, _) = lines.split_at(lines.len().min(cases));
    count_lines(front)
}

/// The line of a case, counted from the line `plan`.
fn case_line(plan: &Plan, certificate: &Certificate, case: usize) -> u128
    requires { AreShort certificate.now.lines }
    ensures value { result ≡ checks.case_line plan.now certificate.now case }
    ensures small { result < 2 ^ 70 }
{
    plan.locks.len() as u128 + plan.parts.len() as u128 + 3 + count_front(certificate, case)
}

/// The last line of a case.
fn last_line(plan: &Plan, certificate: &Certificate, case: usize) -> u128
    requires short { AreShort certificate.now.lines }
    requires below { case < 2 ^ 32 }
    ensures value { result ≡ checks.last_line plan.now certificate.now case }
    ensures small { result < 2 ^ 70 }
{
    case_line(plan, certificate, case + 1) - 1
}

/// The line at which a case fails, counted from the line `plan`.
fn failing_line(plan: &Plan, certificate: &Certificate, case: u32, why: Why) -> u128
    requires { AreShort certificate.now.lines }
    ensures value { result ≡ checks.failing_line plan.now certificate.now case why }
    ensures small { result < 2 ^ 71 }
{
    let case = case as usize;
    match why {
        Why::Missing => case_line(plan, certificate, case),
        Why::Extra => case_line(plan, certificate, case),
        Why::NotSeparated => case_line(plan, certificate, case),
        Why::BadStep { step } => case_line(plan, certificate, case) + u128::from(step) + 1,
        Why::NotEmpty => last_line(plan, certificate, case),
    }
}

/// Refuses a line of the input.
fn refused(alloc: Global, line: u128) -> Result<Answer, NoMemory>
    ensures { IfOk result (λ a. (a.status ≡ 1) × (a.text ≡ checks.refused_text line)) }
{
    Ok(Answer {
        status: 1,
        text: counted(alloc, b"certificate refused at line ", line)?,
    })
}

/// The answer to a plan and a certificate behind so many lines.
fn judged(
    alloc: Global,
    spec: &Spec,
    before: usize,
    plan: &Plan,
    certificate: &Certificate,
) -> Result<Answer, NoMemory>
    requires well_formed { IsWellFormed spec.now }
    requires plan_fits { PlanFits spec.now plan.now }
    requires short { AreShort certificate.now.lines }
    ensures { IfOk result (λ a. checks.IsJudged spec.now before plan.now certificate.now a.status a.text) }
{
    match check(alloc, spec, plan, certificate)? {
        Verdict::Yes => Ok(Answer {
            status: 0,
            text: List::from_slice(alloc, b"certificate yes\n")?,
        }),
        Verdict::No { case, why } => {
            refused(
                alloc,
                before as u128 + failing_line(plan, certificate, case, why),
            )
        }
    }
}

/// The answer to the lines of a plan and a certificate behind so many other lines.
fn read_answer(
    alloc: Global,
    spec: &Spec,
    before: usize,
    lines: &[Text],
) -> Result<Answer, NoMemory>
    requires well_formed { IsWellFormed spec.now }
    requires short { length lines.now ≤ 4294967294 }
    ensures { IfOk result (λ a. checks.IsRead spec.now before lines.now a.status a.text) }
{
    match parse_certificate(alloc, spec, lines)? {
        Read::Parts { plan, certificate } => judged(alloc, spec, before, &plan, &certificate),
        Read::Refused { line } => refused(alloc, before as u128 + u128::from(line)),
    }
}

/// What `check` answers to the lines of a plan and a certificate for a specification, with so many
/// lines of the document before them: `certificate yes` (0) where they are read and check, else the
/// first line that isn't in their form, or at which the first failing case fails (1), and before
/// all that `too many cases` (7) where there are more than 100,000.
pub fn check_answer(
    alloc: Global,
    spec: &Spec,
    before: usize,
    lines: &[Text],
) -> Result<Answer, NoMemory>
    requires well_formed { IsWellFormed spec.now }
    requires short { length lines.now ≤ 4294967294 }
    ensures { IfOk result (λ a. IsAnswer spec.now before lines.now a.status a.text) }
{
    let count = case_count(spec);
    if count > CASES {
        return Ok(Answer {
            status: 7,
            text: counted(alloc, b"too many cases ", count)?,
        });
    }
    read_answer(alloc, spec, before, lines)
}
