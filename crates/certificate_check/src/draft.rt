//! A plan and a certificate as far as they are read.

ghost use Rattle.std.specs.Prelude.{◌≡◌, OnOk, IfOk};
ghost use Rattle.line_text.specs.Reads.{Gives};
ghost use Rattle.spec_model.specs.Fits.{IsWellFormed, marked_from};
ghost use Rattle.certificate_check.specs.Draft as drafts;

use crate::certificate::CertLine;
use crate::fitting::{has_pair, kind_fits, kind_named, shares_points};
use certificate_lines::{KindLine, TextLine};
use ground_clauses::{Derivation, Step};
use ind_base::{List, NoMemory};
use line_text::FormError;
use spec_model::{LockKind, Spec};
use std::alloc::Global;
use std::mem;

/// Where a text is.
#[derive(Clone, Copy)]
pub(crate) enum Stage {
    /// Before its plan.
    Start,
    /// In its plan.
    Plan,
    /// In its certificate.
    Certificate,
    /// Behind its end.
    End,
}

/// What was read so far.
#[derive(Drop)]
pub(crate) struct Draft {
    pub(crate) stage: Stage,
    pub(crate) locks: List<LockKind>,
    pub(crate) parts: List<LockKind>,
    pub(crate) lines: List<CertLine>,
    /// The steps of a derivation that isn't whole yet.
    pub(crate) steps: List<Step>,
    /// How many steps it lacks.
    pub(crate) missing: u32,
}

/// Refuses, unless the condition holds.
fn passes(holds: bool) -> Result<(), FormError>
    ensures { Gives (λ x. x) result (drafts.passes holds) }
{
    if holds {
        Ok(())
    } else {
        Err(FormError::Refused)
    }
}

impl Draft {
    /// Nothing yet. It takes no memory.
    pub(crate) fn new(alloc: Global) -> Draft
        ensures { result ≡ drafts.fresh }
    {
        Draft {
            stage: Stage::Start,
            locks: List::new(alloc),
            parts: List::new(alloc),
            lines: List::new(alloc),
            steps: List::new(alloc),
            missing: 0,
        }
    }

    fn is_at_start(&self) -> bool
        ensures { result ≡ drafts.is_start self.now.stage }
    {
        matches!(self.stage, Stage::Start)
    }

    fn is_in_plan(&self) -> bool
        ensures { result ≡ drafts.is_plan self.now.stage }
    {
        matches!(self.stage, Stage::Plan)
    }

    fn is_in_certificate(&self) -> bool
        ensures { result ≡ drafts.is_certificate self.now.stage }
    {
        matches!(self.stage, Stage::Certificate)
    }

    /// Whether the text may end here.
    pub(crate) fn is_at_end(&self) -> bool
        ensures { result ≡ drafts.is_end self.now.stage }
    {
        matches!(self.stage, Stage::End)
    }

    /// Whether a case may follow, or the end.
    fn is_between_cases(&self) -> bool
        ensures { result ≡ drafts.is_between self.now }
    {
        self.is_in_certificate() && self.missing == 0
    }

    fn is_next_case(&self, case: u32) -> bool
        ensures { result ≡ drafts.is_next self.now case }
    {
        self.is_between_cases() && case as usize == self.lines.len()
    }

    /// The reservation of a line, where it fits and is the only one of its operations.
    #[tactic(auto, unfolding(crate::specs::Draft::kind_of))]
    fn kind_of(&self, spec: &Spec, line: KindLine) -> Result<LockKind, FormError>
        requires { IsWellFormed spec.now }
        ensures { Gives (λ x. x) result (drafts.kind_of spec.now self.now line) }
    {
        let kind = kind_named(spec, line);
        passes(
            kind_fits(spec, &kind)
                && !has_pair(self.locks.as_slice(), &kind)
                && !has_pair(self.parts.as_slice(), &kind),
        )?;
        Ok(kind)
    }

    #[tactic(auto, unfolding(crate::specs::Draft::take_plan))]
    fn take_plan(&mut self) -> Result<(), FormError>
        ensures { Gives (λ _. self.new) result (drafts.take_plan self.old) }
    {
        passes(self.is_at_start())?;
        self.stage = Stage::Plan;
        Ok(())
    }

    #[tactic(auto, unfolding(crate::specs::Draft::take_lock))]
    fn take_lock(&mut self, spec: &Spec, line: KindLine) -> Result<(), FormError>
        requires { IsWellFormed spec.now }
        ensures { Gives (λ _. self.new) result (drafts.take_lock spec.now self.old line) }
    {
        passes(self.is_in_plan() && self.parts.len() == 0)?;
        passes(line.number as usize == self.locks.len())?;
        let kind = self.kind_of(spec, line)?;
        self.locks.push(kind)?;
        Ok(())
    }

    #[tactic(auto, unfolding(crate::specs::Draft::take_part))]
    fn take_part(&mut self, spec: &Spec, line: KindLine) -> Result<(), FormError>
        requires { IsWellFormed spec.now }
        ensures { Gives (λ _. self.new) result (drafts.take_part spec.now self.old line) }
    {
        passes(self.is_in_plan())?;
        passes(line.number as usize == self.parts.len())?;
        let kind = self.kind_of(spec, line)?;
        passes(shares_points(spec, &kind))?;
        self.parts.push(kind)?;
        Ok(())
    }

    #[tactic(auto, unfolding(crate::specs::Draft::take_certificate))]
    fn take_certificate(&mut self) -> Result<(), FormError>
        ensures { Gives (λ _. self.new) result (drafts.take_certificate self.old) }
    {
        passes(self.is_in_plan())?;
        self.stage = Stage::Certificate;
        Ok(())
    }

    /// The line of a case that a lock or a partition separates.
    #[tactic(auto, unfolding(crate::specs::Draft::take_line))]
    fn take_line(&mut self, case: u32, line: CertLine) -> Result<(), FormError>
        ensures { Gives (λ _. self.new) result (drafts.take_line self.old case line) }
    {
        passes(self.is_next_case(case))?;
        self.lines.push(line)?;
        Ok(())
    }

    /// A derivation that lacks no step is a line.
    fn close(&mut self, alloc: Global) -> Result<(), NoMemory>
        ensures { OnOk result (self.new ≡ drafts.closed self.old) }
    {
        if self.missing == 0 {
            let steps = mem::replace(&mut self.steps, List::new(alloc));
            self.lines.push(CertLine::Refuted(Derivation { steps }))?;
        }
        Ok(())
    }

    #[tactic(auto, unfolding(crate::specs::Draft::take_refuted))]
    fn take_refuted(&mut self, alloc: Global, case: u32, count: u32) -> Result<(), FormError>
        ensures { Gives (λ _. self.new) result (drafts.take_refuted self.old case count) }
    {
        passes(self.is_next_case(case))?;
        self.missing = count;
        self.close(alloc)?;
        Ok(())
    }

    #[tactic(auto, unfolding(crate::specs::Draft::take_step))]
    fn take_step(&mut self, alloc: Global, step: Step) -> Result<(), FormError>
        ensures { Gives (λ _. self.new) result (drafts.take_step self.old step) }
    {
        passes(self.is_in_certificate() && self.missing > 0)?;
        self.steps.push(step)?;
        self.missing -= 1;
        self.close(alloc)?;
        Ok(())
    }

    #[tactic(auto, unfolding(crate::specs::Draft::take_end))]
    fn take_end(&mut self) -> Result<(), FormError>
        ensures { Gives (λ _. self.new) result (drafts.take_end self.old) }
    {
        passes(self.is_between_cases())?;
        self.stage = Stage::End;
        Ok(())
    }

    /// What a line adds.
    pub(crate) fn step(
        &mut self,
        alloc: Global,
        spec: &Spec,
        line: TextLine,
    ) -> Result<(), FormError>
        requires { IsWellFormed spec.now }
        ensures { Gives (λ _. self.new) result (drafts.step spec.now self.old line) }
    {
        match line {
            TextLine::Plan => self.take_plan(),
            TextLine::Lock(kind) => self.take_lock(spec, kind),
            TextLine::Part(kind) => self.take_part(spec, kind),
            TextLine::Certificate => self.take_certificate(),
            TextLine::SepLock { case, lock } => self.take_line(case, CertLine::SepLock(lock)),
            TextLine::SepPart { case, part } => self.take_line(case, CertLine::SepPart(part)),
            TextLine::Refuted { case, count } => self.take_refuted(alloc, case, count),
            TextLine::Step(step) => self.take_step(alloc, step),
            TextLine::End => self.take_end(),
        }
    }
}
