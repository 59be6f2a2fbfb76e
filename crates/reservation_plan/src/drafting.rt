//! A plan and its certificate, as pairs of operations are added.

ghost use Rattle.std.specs.Prelude.{◌≡◌, ◌<◌, ◌≤◌, ◌++◌, [], length, map, IfOk, IfErr, OnOk};
ghost use Rattle.std.specs.List.{AllByRecursion};
ghost use Rattle.ground_clauses.specs.Cases.{CaseKnown, pair_cases};
ghost use Rattle.reservation_plan.specs.Drafting.{AddsPair, Keeps, line_at, IsKnown};
ghost use Rattle.reservation_plan.specs.Ends.{Refuses};
ghost use Rattle.spec_model.specs.Fits.{IsWellFormed};

use crate::analysed::DeriveError;
use crate::judging::{Judged, judge_pair};
use crate::reserving::{Conflict, Reservation, reserve};
use certificate_check::{CertLine, lock_fits, shares};
use ground_clauses::Queries;
use ind_base::{List, NoMemory};
use spec_model::{LockKind, Pair, Spec};
use std::alloc::Global;

/// What keeps a pair of operations apart, and where the next lock and partition stand in the plan.
#[derive(Clone, Copy)]
struct Place<'a> {
    spec: &'a Spec,
    reservation: &'a Reservation,
    lock: u32,
    part: u32,
}

/// The line of a case: the reservation of its own pair, where it separates it.
fn line_of(place: &Place<'_>, judged: Judged) -> CertLine
    requires { CaseKnown place.now.spec.now judged.case }
    ensures { result ≡ line_at place.now judged }
{
    match place.reservation {
        Reservation::Lock(kind) => {
            if lock_fits(place.spec, &judged.case, kind) {
                return CertLine::SepLock(place.lock);
            }
        }
        Reservation::Part(kind) => {
            if lock_fits(place.spec, &judged.case, kind) && shares(&judged.case) {
                return CertLine::SepPart(place.part);
            }
        }
        Reservation::Nothing => {}
    }
    CertLine::Refuted(judged.derivation)
}

/// Adds the lines of a pair's cases.
fn add_lines(
    place: &Place<'_>,
    judged: List<Judged>,
    lines: &mut List<CertLine>,
) -> Result<(), NoMemory>
    requires { AllByRecursion (IsKnown place.now.spec.now) judged }
    ensures { OnOk result (lines.new ≡ lines.old ++ map (line_at place.now) judged) }
{
    for item in judged.into_vec() {
        lines.push(line_of(place, item))?;
    }
    Ok(())
}

/// The locks and partitions so far, and the lines of the cases so far.
#[derive(Drop)]
pub(crate) struct Draft {
    pub(crate) locks: List<LockKind>,
    pub(crate) parts: List<LockKind>,
    pub(crate) lines: List<CertLine>,
}

impl Draft {
    /// No locks, partitions and lines.
    pub(crate) fn none(alloc: Global) -> Draft
        ensures locks { result.locks ≡ [] }
        ensures parts { result.parts ≡ [] }
        ensures lines { result.lines ≡ [] }
    {
        Draft {
            locks: List::new(alloc),
            parts: List::new(alloc),
            lines: List::new(alloc),
        }
    }

    /// Adds a reservation.
    fn keep(&mut self, reservation: Reservation) -> Result<(), NoMemory>
        ensures { OnOk result (Keeps reservation self.old self.new) }
    {
        match reservation {
            Reservation::Nothing => Ok(()),
            Reservation::Lock(kind) => self.locks.push(kind),
            Reservation::Part(kind) => self.parts.push(kind),
        }
    }

    /// Adds a pair of operations: its reservation, and the lines of its cases.
    pub(crate) fn add_pair<'a>(
        &mut self,
        alloc: Global,
        spec: &'a Spec,
        pair: Pair,
        queries: &mut Queries<'a>,
    ) -> Result<(), DeriveError>
        requires well_formed { IsWellFormed spec.now }
        requires over { queries.old.over ≡ spec.now }
        requires known_a { pair.a < length spec.now.ops }
        requires known_b { pair.b < length spec.now.ops }
        requires few_locks { length self.old.locks ≤ 4096 }
        requires few_parts { length self.old.parts ≤ 4096 }
        ensures ok { IfOk result (λ _. AddsPair spec.now pair self.old self.new) }
        ensures err { IfErr result (λ e. Refuses spec.now (pair_cases spec.now pair.a pair.b) e) }
        ensures same { queries.new.over ≡ queries.old.over }
    {
        let judgements = judge_pair(alloc, spec, pair, queries)?;
        let conflict = Conflict {
            spec,
            a: pair.a,
            b: pair.b,
            cases: judgements.conflicts.as_slice(),
        };
        let reservation = reserve(alloc, &conflict)?;
        let place = Place {
            spec,
            reservation: &reservation,
            lock: self.locks.len() as u32,
            part: self.parts.len() as u32,
        };
        add_lines(&place, judgements.judged, &mut self.lines)?;
        self.keep(reservation)?;
        Ok(())
    }
}
