//! What a replica shows of its rights at the end.

ghost use Rattle.std.specs.Prelude.{◌≡◌, ◌<◌, ◌++◌, [], ℕ, List as Sequence, ◌↔◌, IfOk, OnOk, IsTrue, filter};
ghost use Rattle.std.specs.List.{flat_map};
ghost use Rattle.std.specs.Option.{option_to_list};
ghost use Rattle.spec_model.specs.AllRights.{rights_of};
ghost use Rattle.spec_model.specs.Fits.{IsWellFormed};
ghost use Rattle.spec_model.specs.declared.log.LogItem.{LogItem as LogItemOf};
ghost use Rattle.spec_model.specs.Universe.{below};
ghost use Rattle.spec_model.specs.declared.right.Right.TheVariants as right_of;
ghost use Rattle.run_model.specs.Finals as finals;
ghost use Rattle.run_model.specs.Points.{points_all, starts_with};
ghost use Rattle.partition_locks.specs.Held.{holds};
ghost use Rattle.run_model.specs.Fitting.{SetupFits};
ghost use Rattle.run_model.specs.Logs.{Logs as AllLogs};
ghost use Rattle.rights_table.specs.Showing.{held_shown};

use crate::first::{first_run, points_all as all_points};
use crate::holding::Holding;
use crate::table::Table;
use effect_model::all_rights;
use ind_base::{List, NoMemory, Span};
use partition_locks::Points;
use run_model::Hold;
use spec_model::{Held, Mode, Right, Setup};
use std::alloc::Global;

fn is_forbid(mode: Mode) -> bool
    ensures { result ≡ finals.is_forbid mode }
{
    match mode {
        Mode::Forbid => true,
        Mode::Allow => false,
    }
}

/// What is shown of a right of which this is held, where anything is.
fn hold_of(right: &Right, held: &Held) -> Option<Hold>
    ensures { option_to_list result ≡ held_shown right.now held.now }
{
    match held {
        Held::Count(0) => None,
        Held::Count(count) => Some(Hold::Count {
            right: *right,
            count: *count,
        }),
        Held::Shares { shares, mode } => {
            if *shares == 1 && is_forbid(*mode) {
                None
            } else {
                Some(Hold::Shares {
                    right: *right,
                    shares: *shares,
                    mode: *mode,
                })
            }
        }
        Held::Points { .. } => None,
    }
}

/// Whether these runs are just the one, or none.
fn are_run(runs: &[Span], run: Option<Span>) -> bool
    ensures { IsTrue result ↔ (runs.now ≡ option_to_list run) }
{
    match run {
        Some(run) => runs.len() == 1 && runs[0] == run,
        None => runs.is_empty(),
    }
}

/// What is shown of points, where they aren't those of the start.
fn show_points(
    alloc: Global,
    setup: &Setup,
    me: u32,
    right: &Right,
    part: u32,
    points: &Points,
) -> Result<Option<Hold>, NoMemory>
    requires well_formed { IsWellFormed setup.now.spec }
    requires mine { me < setup.now.replicas }
    ensures { IfOk result (λ hold. option_to_list hold ≡ finals.points_shown right.now (filter (starts_with (points_all setup.now part) setup.now.replicas me) (below (points_all setup.now part))) (filter (holds points.now) (below (points_all setup.now part)))) }
{
    let runs = points.runs_below(alloc, all_points(setup, part))?;
    if are_run(runs.as_slice(), first_run(setup, me, part)) {
        return Ok(None);
    }
    Ok(Some(Hold::Points {
        right: *right,
        spans: runs,
    }))
}

/// Puts a hold at the end, if there is one.
fn push_hold(hold: Option<Hold>, out: &mut List<Hold>) -> Result<(), NoMemory>
    ensures { OnOk result (out.new ≡ out.old ++ option_to_list hold) }
{
    match hold {
        Some(hold) => out.push(hold),
        None => Ok(()),
    }
}

impl Table {
    ghost use Rattle.rights_table.specs.Showing.{shown_in};
    ghost use Rattle.rights_table.specs.Tables.{replicas_of};
    ghost use Rattle.rights_table.specs.Whole.{HasAll};

    /// What is shown of the points of a partition, where they aren't those of the start.
    fn show_part(
        &self,
        alloc: Global,
        setup: &Setup,
        right: &Right,
        part: u32,
    ) -> Result<Option<Hold>, NoMemory>
        requires well_formed { IsWellFormed setup.now.spec }
        requires replicas { replicas_of self.now ≡ setup.now.replicas }
        requires of { (key : Sequence ℕ) × (right.now ≡ right_of.Part part key) }
        ensures { IfOk result (λ hold. option_to_list hold ≡ shown_in setup.now self.now right.now) }
    {
        match self.entry(right) {
            Some(holding) => match holding {
                Holding::Points(points) => show_points(alloc, setup, self.me, right, part, points),
                _ => unreachable!(),
            },
            None => Ok(None),
        }
    }

    /// What is shown of a right, where anything is.
    fn show(&self, alloc: Global, setup: &Setup, right: &Right) -> Result<Option<Hold>, NoMemory>
        requires well_formed { IsWellFormed setup.now.spec }
        requires some { 0 < setup.now.replicas }
        requires replicas { replicas_of self.now ≡ setup.now.replicas }
        ensures { IfOk result (λ hold. option_to_list hold ≡ shown_in setup.now self.now right.now) }
    {
        match right {
            Right::Part { part, .. } => self.show_part(alloc, setup, right, *part),
            _ => Ok(hold_of(right, &self.held_of(setup, right, &Span { lo: 1, hi: 0 }))),
        }
    }

    /// Puts what is shown of these rights at the end.
    fn show_all(
        &self,
        alloc: Global,
        setup: &Setup,
        rights: &[Right],
        out: &mut List<Hold>,
    ) -> Result<(), NoMemory>
        requires well_formed { IsWellFormed setup.now.spec }
        requires some { 0 < setup.now.replicas }
        requires replicas { replicas_of self.now ≡ setup.now.replicas }
        ensures { OnOk result (out.new ≡ out.old ++ flat_map (shown_in setup.now self.now) rights.now) }
    {
        for right in rights {
            push_hold(self.show(alloc, setup, right)?, out)?;
        }
        Ok(())
    }

    /// What is held of all rights, in their order; of each only what the trace shows of it.
    pub fn holds(&self, alloc: Global, setup: &Setup) -> Result<List<Hold>, NoMemory>
        requires setup { SetupFits setup.now }
        requires replicas { replicas_of self.now ≡ setup.now.replicas }
        ensures { IfOk result (λ all. (logs : AllLogs) (me : ℕ) (own : Sequence LogItemOf) → HasAll setup.now logs me own self.now → all ≡ flat_map (finals.shown setup.now logs me own) (rights_of setup.now)) }
    {
        let rights = all_rights(alloc, setup)?;
        let mut out = List::new(alloc);
        self.show_all(alloc, setup, rights.as_slice(), &mut out)?;
        Ok(out)
    }
}
