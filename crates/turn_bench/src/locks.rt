// The same counting under a plain `Mutex`, beside which the turn is measured.
use crate::team::Team;
use std::sync::{Mutex, Wait};
use std::thread::{Threads, join};

/// Each thread of the team takes the lock this many times. Gives the count at the end.
pub fn count_by_locks<R: Threads + Wait + Sync>(rt: &R, team: Team, each: u64) -> u64 {
    let count = Mutex::new(0);
    match team {
        Team::One => by_one(rt, &count, each),
        Team::Two => by_two(rt, &count, each),
        Team::Four => by_four(rt, &count, each),
    }
    count.into_inner()
}

fn by_one<R: Wait>(rt: &R, count: &Mutex<u64>, each: u64) {
    for _ in 0..each {
        let mut guard = count.lock(rt);
        *guard = guard.wrapping_add(1);
    }
}

fn by_two<R: Threads + Wait + Sync>(rt: &R, count: &Mutex<u64>, each: u64) {
    join(rt, || by_one(rt, count, each), || by_one(rt, count, each));
}

fn by_four<R: Threads + Wait + Sync>(rt: &R, count: &Mutex<u64>, each: u64) {
    join(rt, || by_two(rt, count, each), || by_two(rt, count, each));
}
