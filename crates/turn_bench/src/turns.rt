// Turns of a cell, taken by one, two and four threads.
ghost use Rattle.std.specs.Prelude.{◌≡◌};

use crate::counter::Counter;
use crate::team::Team;
use gr_ids::Memory;
use std::alloc::Global;
use std::sync::Wait;
use std::thread::{Threads, join};
use turn_cell::{Behaviour, Pass, TurnCell};

/// Each thread of the team takes this many turns. Gives the count at the end.
pub fn count_by_turns<R: Threads + Wait + Sync>(
    rt: &R,
    alloc: Global,
    team: Team,
    each: u64,
) -> Result<u64, Memory> {
    let (cell, pass) = TurnCell::new(alloc, Counter { turns: 0 })?;
    let pass = match team {
        Team::One => by_one(rt, &cell, pass, each),
        Team::Two => by_two(rt, &cell, pass, each),
        Team::Four => by_four(rt, &cell, pass, each),
    };
    Ok(cell.close(rt, pass).turns)
}

fn by_one<R: Wait>(
    rt: &R,
    cell: &TurnCell<Counter>,
    pass: Pass<Counter>,
    each: u64,
) -> Pass<Counter>
    requires { pass.seat.table_id ≡ cell.now.table.shared.table_id }
    ensures { result.seat.table_id ≡ cell.now.table.shared.table_id }
{
    let mut pass = pass;
    for _ in 0..each {
        let mut turn = cell.enter(rt, pass);
        turn.state().act(());
        pass = cell.leave(turn);
    }
    pass
}

fn by_two<R: Threads + Wait + Sync>(
    rt: &R,
    cell: &TurnCell<Counter>,
    pass: Pass<Counter>,
    each: u64,
) -> Pass<Counter>
    requires { pass.seat.table_id ≡ cell.now.table.shared.table_id }
    ensures { result.seat.table_id ≡ cell.now.table.shared.table_id }
{
    let (one, two) = pass.split(cell);
    let (one, two) = join(
        rt,
        move || -> Pass<Counter>
            requires { one.seat.table_id ≡ cell.now.table.shared.table_id }
            ensures { result.seat.table_id ≡ cell.entry.now.table.shared.table_id }
        { by_one(rt, cell, one, each) },
        move || -> Pass<Counter>
            requires { two.seat.table_id ≡ cell.now.table.shared.table_id }
            ensures { result.seat.table_id ≡ cell.entry.now.table.shared.table_id }
        { by_one(rt, cell, two, each) },
    );
    one.join(two, cell)
}

fn by_four<R: Threads + Wait + Sync>(
    rt: &R,
    cell: &TurnCell<Counter>,
    pass: Pass<Counter>,
    each: u64,
) -> Pass<Counter>
    requires { pass.seat.table_id ≡ cell.now.table.shared.table_id }
    ensures { result.seat.table_id ≡ cell.now.table.shared.table_id }
{
    let (one, two) = pass.split(cell);
    let (one, two) = join(
        rt,
        move || -> Pass<Counter>
            requires { one.seat.table_id ≡ cell.now.table.shared.table_id }
            ensures { result.seat.table_id ≡ cell.entry.now.table.shared.table_id }
        { by_two(rt, cell, one, each) },
        move || -> Pass<Counter>
            requires { two.seat.table_id ≡ cell.now.table.shared.table_id }
            ensures { result.seat.table_id ≡ cell.entry.now.table.shared.table_id }
        { by_two(rt, cell, two, each) },
    );
    one.join(two, cell)
}
