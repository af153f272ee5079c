//! Seats with their jobs, in a row.
ghost use Rattle.std.specs.Prelude.{◌≡◌, ◌≤◌, ◌<◌, ℕ, Some, None, [], length, map, slice_get};
ghost use Rattle.std.specs.Vec.{vec_capacity};
ghost use Rattle.shardpool.specs.Tokens.{LaneOf};
ghost use Rattle.guards.specs.Here.{lane_at, AreHereBelow, HoldNothing};
ghost use Rattle.guards.specs.Runs.{IsDone, AreFrom, AreBack};

use crate::jobs::Job;
use crate::lanes::Lanes;
use crate::named::PoolName;
use crate::seats::Seat;
use shardpool::Pool;
use slotcell::Clear;
use std::sync::Wait;
use std::thread;
use std::thread::Threads;

/// A seat with its job, and later with the answer.
#[derive(Drop)]
pub(crate) struct Post<'p, N: PoolName, T: Clear + Drop, J: Job<N, T>> {
    seat: Seat<'p, N, T>,
    job: Option<J>,
    answer: Option<J::Answer>,
}

/// Takes the lane of each job out, in their order.
pub(crate) fn seat_all<'p, N: PoolName, T: Clear + Drop, J: Job<N, T>>(
    pool: &'p Pool<T>,
    lanes: &mut Lanes<T>,
    jobs: Vec<J>,
    mut posts: Vec<Post<'p, N, T, J>>,
) -> Vec<Post<'p, N, T, J>>
    requires pool { (pool.now ≡ N.pool) × (lanes.old.pool ≡ N.pool) }
    requires nothing { HoldNothing lanes.old }
    requires here { AreHereBelow lanes.old (length jobs.items) }
    requires few { length jobs.items < 4294967296 }
    requires room { (posts.items ≡ []) × (length jobs.items ≤ vec_capacity posts) }
    ensures pool { lanes.new.pool ≡ N.pool }
    ensures nothing { HoldNothing lanes.new }
    ensures others { (number : ℕ) → length jobs.items ≤ number → lane_at lanes.new number ≡ lane_at lanes.old number }
    ensures jobs { map (λ post. post.job) result.items ≡ map Some jobs.items }
    ensures lanes { AreFrom lanes.old (map (λ post. post.seat.lane) result.items) }
{
    let mut number = 0;
    for job in jobs {
        posts.push_reserved(seat_one(pool, lanes, job, number));
        number += 1;
    }
    posts
}

/// Takes the lane of a job out.
fn seat_one<'p, N: PoolName, T: Clear + Drop, J: Job<N, T>>(
    pool: &'p Pool<T>,
    lanes: &mut Lanes<T>,
    job: J,
    number: u32,
) -> Post<'p, N, T, J>
    requires pool { (pool.now ≡ N.pool) × (lanes.old.pool ≡ N.pool) }
    requires nothing { HoldNothing lanes.old }
    requires here { (lane : LaneOf) × (lane_at lanes.old number ≡ Some lane) }
    ensures pool { lanes.new.pool ≡ N.pool }
    ensures nothing { HoldNothing lanes.new }
    ensures others { (other : ℕ) → number < other → lane_at lanes.new other ≡ lane_at lanes.old other }
    ensures job { result.job ≡ Some job }
    ensures lane { (lane_at lanes.old number ≡ Some result.seat.lane) × (result.seat.lane.number ≡ number) }
{
    let Some(lane) = lanes.take(number) else {
        unreachable!()
    };
    Post {
        seat: Seat::new(pool, lane),
        job: Some(job),
        answer: None,
    }
}

/// Does each job, in a thread of its own.
pub(crate) fn work_all<
    N: PoolName + Send,
    T: Clear + Drop + Send + Sync,
    J: Job<N, T>,
    R: Threads + Wait + Sync,
>(rt: &R, posts: &mut Vec<Post<'_, N, T, J>>)
    ensures count { length posts.new.items ≡ length posts.old.items }
    ensures done { (i : ℕ) (before after : _) → slice_get posts.old.items i ≡ Some before → slice_get posts.new.items i ≡ Some after
        → (job : J) → before.job ≡ Some job → IsDone J.does job before.seat.lane after.seat.lane after.answer }
{
    let threads = posts.len().max(1);
    thread::for_each_mut(rt, posts.as_mut_slice(), threads, &|_, post| work(rt, post));
}

/// Does a job.
fn work<N: PoolName, T: Clear + Drop, J: Job<N, T>, R: Threads + Wait + Sync>(
    rt: &R,
    post: &mut Post<'_, N, T, J>,
)
    ensures { (job : J) → post.old.job ≡ Some job → IsDone J.does job post.old.seat.lane post.new.seat.lane post.new.answer }
{
    if let Some(job) = post.job.take() {
        post.answer = Some(job.run(rt, &mut post.seat));
    }
}

/// Gives the lanes back. Answers what came of the jobs, in their order.
pub(crate) fn unseat_all<N: PoolName, T: Clear + Drop, J: Job<N, T>>(
    lanes: &mut Lanes<T>,
    posts: Vec<Post<'_, N, T, J>>,
    mut answers: Vec<J::Answer>,
) -> Vec<J::Answer>
    requires pool { lanes.old.pool ≡ N.pool }
    requires nothing { HoldNothing lanes.old }
    requires numbers { (number : ℕ) (lane : LaneOf) → slice_get (map (λ post. post.seat.lane) posts.items) number ≡ Some lane
        → lane.number ≡ number }
    requires answers { (list : _) × (map (λ post. post.answer) posts.items ≡ map Some list) }
    requires room { (answers.items ≡ []) × (length posts.items ≤ vec_capacity answers) }
    ensures nothing { HoldNothing lanes.new }
    ensures back { AreBack lanes.old lanes.new (map (λ post. post.seat.lane) posts.entry.items) }
    ensures answers { map Some result.items ≡ map (λ post. post.answer) posts.entry.items }
{
    for post in posts {
        answers.push_reserved(unseat_one(lanes, post));
    }
    answers
}

/// Gives a lane back. Answers what came of its job.
fn unseat_one<N: PoolName, T: Clear + Drop, J: Job<N, T>>(
    lanes: &mut Lanes<T>,
    post: Post<'_, N, T, J>,
) -> J::Answer
    requires pool { lanes.old.pool ≡ N.pool }
    requires nothing { HoldNothing lanes.old }
    requires answered { (answer : _) × (post.answer ≡ Some answer) }
    ensures pool { lanes.new.pool ≡ N.pool }
    ensures nothing { HoldNothing lanes.new }
    ensures here { lane_at lanes.new post.entry.seat.lane.number ≡ Some post.entry.seat.lane }
    ensures others { (other : ℕ) → (other ≡ post.entry.seat.lane.number → ⊥) → lane_at lanes.new other ≡ lane_at lanes.old other }
    ensures answer { post.entry.answer ≡ Some result }
{
    let Post {
        seat,
        job: _,
        answer,
    } = post;
    lanes.give(seat.into_lane());
    match answer {
        Some(answer) => answer,
        None => unreachable!(),
    }
}
