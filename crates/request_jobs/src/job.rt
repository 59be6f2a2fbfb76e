ghost use Rattle.std.specs.Prelude.{◌≡◌, ◌<◌, ℕ, All, length, slice_index_or, IfOk};

use ind_base::{List, NoMemory};
use std::sync::Wait;
use std::thread;
use std::thread::Threads;

/// Work that owns what it needs, and gives it back when it is done.
pub trait Job {
    type Done;

    /// Which jobs may be run.
    ghost is_ready: { Self → Type 0 };

    /// What a job may give back.
    ghost gives: { Self → Self.Done → Type 0 };

    fn run<R: Wait>(self, rt: &R) -> Self::Done
        requires { is_ready self }
        ensures { gives self result };
}

/// Runs all jobs, each in a thread of its own where one can be made, and else in this one. What they give back stands in their order.
/// Where memory doesn't suffice all that were begun have ended, some may not have been begun, and what they gave back is dropped.
pub fn run_all<J: Job<Done: Send + Drop> + Send + Drop, R: Threads + Wait + Sync>(
    rt: &R,
    jobs: List<J>,
) -> Result<List<J::Done>, NoMemory>
    requires ready { All J.is_ready jobs }
    ensures len { IfOk result (λ done. length done ≡ length jobs) }
    ensures each { IfOk result (λ done. (i : ℕ) (job : J) (back : J.Done) → i < length jobs → J.gives (slice_index_or jobs i job) (slice_index_or done i back)) }
{
    let done = thread::map_vec(
        rt,
        jobs.into_vec(),
        &|job: J| -> J::Done
            requires { J.is_ready job }
            ensures { J.gives job result }
        { job.run(rt) },
    )?;
    Ok(List::from_vec(done))
}
