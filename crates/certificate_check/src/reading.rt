//! Which lines are a plan and a certificate, and which line is refused first.

ghost use Rattle.std.specs.Prelude.{◌≡◌, ◌≤◌, length, IfOk};
ghost use Rattle.line_text.specs.Reads.{Gives};
ghost use Rattle.spec_model.specs.Fits.{IsWellFormed, marked_from};
ghost use Rattle.certificate_check.specs.Reading as reading;
ghost use Rattle.certificate_check.specs.Texts.{HasNames, IfParts, IfRefused, IsFirstRefused, IsTextOf};

use crate::certificate::Certificate;
use crate::draft::Draft;
use certificate_lines::line_of;
use ind_base::{List, NoMemory, Text};
use line_text::FormError;
use spec_model::{Clause, Plan, Spec};
use std::alloc::Global;

/// What lines are: a plan and a certificate, or no text of them. `line` is the first line that is
/// refused, from 1; where lines are missing it is one more than there are.
#[derive(Drop)]
pub enum Read {
    Parts {
        plan: Plan,
        certificate: Certificate,
    },
    Refused {
        line: u32,
    },
}

/// Takes the next line.
#[tactic(auto, unfolding(crate::specs::Reading::taken))]
fn take(draft: &mut Draft, alloc: Global, spec: &Spec, line: &[u8]) -> Result<(), FormError>
    requires { IsWellFormed spec.now }
    ensures { Gives (λ _. draft.new) result (reading.taken spec.now draft.old line.now) }
{
    let line = line_of(alloc, line)?;
    draft.step(alloc, spec, line)
}

/// The places of the marked clauses.
fn marks(alloc: Global, clauses: &[Clause]) -> Result<List<u32>, NoMemory>
    requires { length clauses.now ≤ 64 }
    ensures { IfOk result (λ places. places ≡ marked_from 0 clauses.now) }
{
    let mut places = List::new(alloc);
    for (place, clause) in clauses.iter().enumerate() {
        if clause.mask {
            places.push(place as u32)?;
        }
    }
    Ok(places)
}

/// The plan and certificate of a draft that is whole.
fn parts_of(alloc: Global, spec: &Spec, draft: Draft) -> Result<Read, NoMemory>
    requires { IsWellFormed spec.now }
    ensures { IfOk result (λ r. r ≡ reading.parts_of spec.now draft) }
{
    let masks = marks(alloc, spec.clauses.as_slice())?;
    Ok(Read::Parts {
        plan: Plan {
            locks: draft.locks,
            masks,
            parts: draft.parts,
        },
        certificate: Certificate { lines: draft.lines },
    })
}

/// The plan and certificate that the lines are, or the first line that is refused.
fn read_lines(alloc: Global, spec: &Spec, lines: &[Text]) -> Result<Read, NoMemory>
    requires well_formed { IsWellFormed spec.now }
    requires short { length lines.now ≤ 4294967294 }
    ensures { IfOk result (λ r. r ≡ reading.read_of spec.now lines.now) }
{
    let mut draft = Draft::new(alloc);
    let mut number = 1u32;
    for line in lines {
        match take(&mut draft, alloc, spec, line.as_slice()) {
            Ok(()) => {}
            Err(FormError::Memory) => return Err(NoMemory),
            Err(FormError::Refused) => return Ok(Read::Refused { line: number }),
        }
        number += 1;
    }
    if !draft.is_at_end() {
        return Ok(Read::Refused { line: number });
    }
    parts_of(alloc, spec, draft)
}

/// The plan and certificate that the lines are, or the first line that is refused. Lines are given
/// without their ends, from the line `plan` on. A number is at most 4294967295, one blank stands
/// between two words, and no line is passed over.
#[tactic(auto, using(crate::proofs::ReadBack::text_of_read, crate::proofs::FirstRefused::refused_first))]
pub fn parse_certificate(alloc: Global, spec: &Spec, lines: &[Text]) -> Result<Read, NoMemory>
    requires well_formed { IsWellFormed spec.now }
    requires short { length lines.now ≤ 4294967294 }
    ensures value { IfOk result (λ r. r ≡ reading.read_of spec.now lines.now) }
    // What is read fits the specification, and the lines are its text.
    ensures text { IfOk result (λ r. IfParts r (IsTextOf spec.now lines.now)) }
    // Else it is the first line with which the lines begin no text.
    ensures refused { IfOk result (λ r. HasNames spec.now → IfRefused r (IsFirstRefused spec.now lines.now)) }
{
    let read = read_lines(alloc, spec, lines)?;
    Ok(read)
}
