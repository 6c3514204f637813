//! How fast the turn is: turns a second with one, two and four threads on one `TurnCell`, beside a plain `Mutex` of std.
//!
//! With no argument each run is short and the counts alone are printed. With the argument `time` the runs are long, and each line
//! ends with the turns a second, by the system's monotonic clock.
#![tactic(auto)]

mod counter;
mod locks;
mod team;
mod turns;

use gr_ids::Memory;
use locks::count_by_locks;
use std::time::{Duration, Instant};
use std::{env, io};
use team::Team;
use turns::count_by_turns;

// How many turns the threads take together.
const FEW: u64 = 1_000;

const MANY: u64 = 400_000;

fn main(rt: HostRuntime) -> io::Result<()> {
    let timed = env::args(&rt)?
        .nth(1)
        .is_some_and(|word| word.as_str() == "time");
    let all = if timed { MANY } else { FEW };
    for team in [Team::One, Team::Two, Team::Four] {
        let start = Instant::now(&rt)?;
        let turns = match count_by_turns(&rt, rt.alloc(), team, all / team.size()) {
            Ok(turns) => turns,
            Err(Memory) => return Err(io::Error::from(io::ErrorKind::OutOfMemory)),
        };
        let in_turns = start.elapsed(&rt)?;
        let start = Instant::now(&rt)?;
        let locks = count_by_locks(&rt, team, all / team.size());
        let in_locks = start.elapsed(&rt)?;
        let threads = team.size();
        if timed {
            println!(rt;
                "threads {threads}: turns {turns}, {} a second",
                a_second(turns, in_turns)
            )?;
            println!(rt;
                "threads {threads}: locks {locks}, {} a second",
                a_second(locks, in_locks)
            )?;
        } else {
            println!(rt; "threads {threads}: turns {turns}, locks {locks}")?;
        }
    }
    Ok(())
}

// How many a second: by whole microseconds, of which at least one is counted.
fn a_second(count: u64, time: Duration) -> u128 {
    count as u128 * 1_000_000 / time.as_micros().max(1)
}
