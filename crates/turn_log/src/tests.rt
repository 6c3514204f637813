ghost use Rattle.std.specs.Prelude.{◌≡◌, ◌<◌, ◌^◌};

use crate::kept::Log;
use crate::{both, push};
use std::sync::Wait;
use std::sync::atomic::{AtomicBool, Ordering};
use std::thread::{join, yield_now};
use turn_cell::{Behaviour, Pass, TurnCell};

// How many numbers each thread pushes.
const MANY: u64 = 300;

#[test]
fn two_threads_push_once_each(rt: HostRuntime) {
    let (log, first, second) = both(&rt, rt.alloc(), 3, 4).expect(&rt, "memory");
    assert!(rt; first && second);
    assert!(rt; log.items.len() == 2);
    assert!(rt; log.items.iter().map(|x| *x as u128).sum::<u128>() == 7);
}

// Takes turns that push the numbers from this one on. False where memory was refused.
fn push_many<R: Wait>(rt: &R, cell: &TurnCell<Log>, pass: Pass<Log>, from: u64) -> (Pass<Log>, bool)
    requires { (pass.seat.table_id ≡ cell.now.table.shared.table_id) × (from < 2 ^ 32) }
    ensures { result.0.seat.table_id ≡ pass.seat.table_id }
{
    let mut pass = pass;
    let mut all = true;
    for x in from..from + MANY {
        let (after, done) = push(rt, cell, pass, x);
        pass = after;
        all = all && done;
    }
    (pass, all)
}

// Each of the numbers stands there once, and those of one thread in its order.
#[test]
fn two_threads_push_many_once_each(rt: HostRuntime) {
    let (cell, pass) = TurnCell::new(rt.alloc(), Log::new(rt.alloc())).expect(&rt, "memory");
    let (one, two) = pass.split(&cell);
    let ((one, first), (two, second)) = join(
        &rt,
        || -> (Pass<Log>, bool)
            requires { one.seat.table_id ≡ cell.table.shared.table_id }
            ensures { result.0.seat.table_id ≡ one.seat.table_id }
        { push_many(&rt, &cell, one, 0) },
        || -> (Pass<Log>, bool)
            requires { two.seat.table_id ≡ cell.table.shared.table_id }
            ensures { result.0.seat.table_id ≡ two.seat.table_id }
        { push_many(&rt, &cell, two, MANY) },
    );
    assert!(rt; first && second);
    let pass = one.join(two, &cell);
    let log = cell.close(&rt, pass);
    let mut next = [0, MANY];
    for x in log.items.iter() {
        let thread = if *x < MANY { 0 } else { 1 };
        assert!(rt; *x == next[thread]);
        next[thread] = x.wrapping_add(1);
    }
    assert_eq!(rt; next, [MANY, 2 * MANY]);
}

// A second pass waits in `enter` while the first has its turn. A third sees more once that turn is left, which waits for nobody.
#[test]
fn front_sees_a_turn_that_is_left(rt: HostRuntime) {
    let (cell, pass) = TurnCell::new(rt.alloc(), Log::new(rt.alloc())).expect(&rt, "memory");
    let (one, two) = pass.split(&cell);
    let (one, third) = one.split(&cell);
    let comes = AtomicBool::new(false);
    let ((before, after), two) = join(
        &rt,
        || -> (u64, u64)
            requires { (one.seat.table_id ≡ cell.table.shared.table_id) × (third.seat.table_id ≡ cell.table.shared.table_id) }
        { around_a_turn(&rt, &cell, one, third, &comes) },
        || -> Pass<Log>
            requires { two.seat.table_id ≡ cell.table.shared.table_id }
            ensures { result.seat.table_id ≡ two.seat.table_id }
        {
            comes.store(true, Ordering::SeqCst);
            push(&rt, &cell, two, 6).0
        },
    );
    assert!(rt; before < after);
    let log = cell.close(&rt, two);
    assert!(rt; log.items.len() == 2);
}

fn around_a_turn<R: Wait>(
    rt: &R,
    cell: &TurnCell<Log>,
    pass: Pass<Log>,
    mut other: Pass<Log>,
    comes: &AtomicBool,
) -> (u64, u64)
    requires first { pass.seat.table_id ≡ cell.now.table.shared.table_id }
    requires second { other.seat.table_id ≡ cell.now.table.shared.table_id }
{
    let mut turn = cell.enter(rt, pass);
    let before = cell.front(&mut other);
    turn.state().act(5);
    for _ in rt.forever() {
        if comes.load(Ordering::SeqCst) {
            break;
        }
        yield_now();
    }
    for _ in 0..1000 {
        yield_now();
    }
    let _ = cell.leave(turn);
    (before, cell.front(&mut other))
}
