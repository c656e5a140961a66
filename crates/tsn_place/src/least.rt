//! The least flowspan that links allow by what they have to carry, were frames on them interruptible (Jackson's rule): of the frames
//! whose rest of the way is at least as long as some frame's, the last is done so much later, and has no shorter rest.
use crate::placement::Placement;
use crate::uses::{Use, end_of, use_at};
use std::alloc::{AllocError, Global};
use tsn_bounds::number::{at, less, push, sum};

// A frame on a link: when it can start, how long it is there, and how long after that its stream arrives.
#[derive(Clone, Copy)]
struct Job {
    begin: i64,
    work: i64,
    rest: i64,
}

impl Placement {
    /// No flowspan is less, where offsets are as large as they have to be.
    pub fn least_flowspan(&self, alloc: Global) -> Result<i64, AllocError> {
        let mut least = self.least_by_streams();
        let mut jobs = Vec::new(alloc);
        let uses = &self.network.uses;
        let mut from: usize = 0;
        for _ in 0..uses.len() {
            let to = end_of(uses, from);
            jobs.clear();
            self.note_jobs(&mut jobs, from, to)?;
            jobs.sort_unstable_by_key(|job| job.begin);
            least = least_by_link(&jobs, least);
            from = to;
            if from >= uses.len() {
                break;
            }
        }
        Ok(least)
    }

    fn least_by_streams(&self) -> i64 {
        let mut least = 0i64;
        for stream in 0..self.streams() {
            least = least.max(sum(self.low(stream), self.arrival(stream)));
        }
        least
    }

    // The frames of a period of each stream on a link.
    fn note_jobs(&self, jobs: &mut Vec<Job>, from: usize, to: usize) -> Result<(), AllocError> {
        for place in from..to {
            let one = use_at(&self.network.uses, place);
            let arrival = self.arrival(one.stream);
            note_frames(jobs, one, at(&self.lows, one.stream), arrival)?;
        }
        Ok(())
    }
}

fn note_frames(jobs: &mut Vec<Job>, one: Use, low: i64, arrival: i64) -> Result<(), AllocError> {
    let mut start = one.start;
    for _ in 0..one.burst {
        let job = Job {
            begin: sum(low, start),
            work: one.work,
            rest: less(arrival, sum(start, one.work)),
        };
        push(jobs, job)?;
        start = sum(start, one.pace);
    }
    Ok(())
}

// The greater one of this and what the jobs of a link, by when they can start, allow.
fn least_by_link(jobs: &[Job], known: i64) -> i64 {
    let last = end_from(jobs, i64::MIN);
    let mut least = known;
    for job in jobs {
        if sum(last, job.rest) > least {
            least = least.max(sum(end_from(jobs, job.rest), job.rest));
        }
    }
    least
}

// When those of at least this rest are done.
fn end_from(jobs: &[Job], rest: i64) -> i64 {
    let mut end = 0i64;
    for job in jobs {
        if job.rest >= rest {
            end = sum(end.max(job.begin), job.work);
        }
    }
    end
}
