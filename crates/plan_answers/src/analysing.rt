//! The answer to a specification: its plan, or why it has none.

ghost use Rattle.std.specs.Prelude.{◌≡◌, IfOk};
ghost use Rattle.spec_model.specs.Fits.{IsWellFormed};
ghost use Rattle.ground_clauses.specs.Listing.{CaseFits};
ghost use Rattle.plan_answers.specs.Analysing as analyses;
ghost use Rattle.rejection_text.specs.Texts as rejections;

use crate::answer::{Answer, counted};
use certificate_check::print_certificate;
use ground_clauses::Case;
use ind_base::{List, NoMemory, put_num};
use rejection_text::rejection;
use reservation_plan::{Analysed, DeriveError, derive};
use spec_model::Spec;
use std::alloc::Global;

/// What comes of a specification.
#[derive(Drop)]
pub enum Analysis {
    /// The derived plan, with a certificate that checks.
    Planned(Analysed),
    /// The answer that says why there is none.
    Planless(Answer),
}

/// The plan and its certificate.
#[tactic(auto, using(crate::proofs::Limits::keeps_limits))]
fn planned(alloc: Global, spec: &Spec, analysed: &Analysed) -> Result<Answer, NoMemory>
    requires { analyses.IsAnalysed spec.now analysed.now }
    ensures { IfOk result (λ a. (a.status ≡ 0) × analyses.IsPlanned spec.now a.text) }
{
    Ok(Answer {
        status: 0,
        text: print_certificate(alloc, spec, &analysed.plan, &analysed.certificate)?,
    })
}

/// The conflict of two operations that are declared free.
fn rejected(
    alloc: Global,
    spec: &Spec,
    case: &Case,
    model: &Option<List<bool>>,
) -> Result<Answer, NoMemory>
    requires well_formed { IsWellFormed spec.now }
    requires fits { CaseFits spec.now case.now }
    ensures { IfOk result (λ a. (a.status ≡ 1) × (a.text ≡ rejections.rejection_text spec.now case.now model.now)) }
{
    let text = match model {
        Some(model) => rejection(alloc, spec, case, Some(model.as_slice()))?,
        None => rejection(alloc, spec, case, None)?,
    };
    Ok(Answer { status: 1, text })
}

/// A query has too many variables.
fn hard(alloc: Global, variables: u32) -> Result<Answer, NoMemory>
    ensures { IfOk result (λ a. (a.status ≡ 8) × (a.text ≡ analyses.hard_text variables)) }
{
    let mut text = List::from_slice(alloc, b"too hard ")?;
    put_num(&mut text, u64::from(variables))?;
    text.extend(b" variables\n")?;
    Ok(Answer { status: 8, text })
}

/// The plan of a specification, or why it has none: `too many cases` where there are more than
/// 100,000 (7); else the first conflicting case of two operations that are declared free (1), or
/// `too hard` at a query of more than 128 variables (8), whichever comes first.
pub fn analyse(alloc: Global, spec: &Spec) -> Result<Analysis, NoMemory>
    requires { IsWellFormed spec.now }
    ensures { IfOk result (λ analysis. analyses.IsAnalysis spec.now analysis) }
{
    match derive(alloc, spec) {
        Ok(analysed) => Ok(Analysis::Planned(analysed)),
        Err(DeriveError::TooManyCases { count }) => Ok(Analysis::Planless(Answer {
            status: 7,
            text: counted(alloc, b"too many cases ", count)?,
        })),
        Err(DeriveError::Rejected { case, model }) => {
            Ok(Analysis::Planless(rejected(alloc, spec, &case, &model)?))
        }
        Err(DeriveError::TooHard { variables }) => Ok(Analysis::Planless(hard(alloc, variables)?)),
        Err(DeriveError::Memory) => Err(NoMemory),
    }
}

/// What `analyse` answers to a specification: its plan and the certificate (0), or why it has none.
pub fn analyse_answer(alloc: Global, spec: &Spec) -> Result<Answer, NoMemory>
    requires { IsWellFormed spec.now }
    ensures { IfOk result (λ a. analyses.IsAnswer spec.now a.status a.text) }
{
    match analyse(alloc, spec)? {
        Analysis::Planned(analysed) => planned(alloc, spec, &analysed),
        Analysis::Planless(answer) => Ok(answer),
    }
}
