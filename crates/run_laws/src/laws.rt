//! What a schedule settles.

ghost use Rattle.run_laws.specs.EverySchedule.{EveryScheduleRuns};
ghost use Rattle.run_laws.specs.OneRun.{RunsAreOne};
ghost use Rattle.run_laws.specs.Stamps.{StampsAreCounted};

/// A schedule, the replicas that are up at first, and what disks say settle the run.
pub fn runs_are_one()
    ensures { RunsAreOne }
{}

/// A schedule whose replicas are there and whose messages are numbered has a legal run, with its
/// crashes and recoveries.
pub fn every_schedule_runs()
    ensures { EveryScheduleRuns }
{}

/// No stamp of a run passes the number of its steps.
pub fn stamps_are_counted()
    ensures { StampsAreCounted }
{}
