ghost use Rattle.std.specs.Prelude.{◌≡◌, ◌<◌, ◌≤◌, [], length};
ghost use Rattle.replica_links.specs.Passes.{room_of, put_of, IsGetOf, IsPutOf};

use ind_base::{List, NoMemory};
use replica_links::{GetPass, Link, Made, PutPass};
use request_jobs::{Job, run_all};
use std::alloc::Global;
use std::sync::Wait;
use std::thread::Threads;

/// Puts the numbers below `count`, and gives the pass back.
#[derive(Drop)]
pub struct Putting<'a> {
    pub link: &'a Link<u32>,
    pub pass: PutPass<u32>,
    pub count: u32,
}

impl<'a> Job for Putting<'a> {
    type Done = PutPass<u32>;

    ghost is_ready = { λ job. IsPutOf job.link.now job.pass × (put_of job.pass ≡ []) × (job.count ≤ room_of job.link.now) };

    ghost gives = { λ job pass. IsPutOf job.link.now pass };

    fn run<R: Wait>(self, rt: &R) -> PutPass<u32> {
        let Putting {
            link,
            mut pass,
            count,
        } = self;
        for number in 0..count {
            match link.put(rt, &mut pass, number) {
                Ok(()) => {}
                Err(_) => unreachable!(),
            }
        }
        pass
    }
}

/// What lies on a link, one after the other, until it is empty or has given so many.
fn got<R: Wait>(
    rt: &R,
    alloc: Global,
    link: &Link<u32>,
    mut pass: GetPass<u32>,
    most: u32,
) -> Result<List<u32>, NoMemory>
    requires { IsGetOf link.now pass }
{
    let mut numbers = List::new(alloc);
    for _turn in 0..most {
        match link.get(rt, &mut pass) {
            Some(number) => numbers.push(number)?,
            None => return Ok(numbers),
        }
    }
    Ok(numbers)
}

/// Two jobs, each on a link of its own: how many passes came back, and what lies on the links when
/// both have ended.
pub fn put_on_two<R: Threads + Wait + Sync>(
    rt: &R,
    alloc: Global,
    count: u32,
) -> Result<(usize, List<u32>, List<u32>), NoMemory>
    requires { 0 < count }
{
    let one = Link::begin(alloc, count)?;
    let two = Link::begin(alloc, count)?;
    let Made { link, put, get } = one;
    let Made {
        link: other_link,
        put: other_put,
        get: other_get,
    } = two;
    let mut jobs = List::new(alloc);
    jobs.push(Putting {
        link: &link,
        pass: put,
        count,
    })?;
    jobs.push(Putting {
        link: &other_link,
        pass: other_put,
        count,
    })?;
    let back = run_all(rt, jobs)?;
    let numbers = got(rt, alloc, &link, get, count)?;
    let others = got(rt, alloc, &other_link, other_get, count)?;
    Ok((back.len(), numbers, others))
}
