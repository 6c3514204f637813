// Calls of the cell.
ghost use Rattle.std.specs.Prelude.{◌≡◌, ◌++◌, [], ◌∷◌, IfOk, IsTrue, length};
ghost use mathlib.Core.List.{IsPrefix};
ghost use Rattle.turn_log.specs.Pushed.{Has, Stands};

use crate::kept::Log;
use gr_ids::Memory;
use std::alloc::Global;
use std::sync::Wait;
use std::thread::{Threads, join};
use turn_cell::{Behaviour, Pass, TurnCell};

/// One turn. Where it answers true, the push stands at the turn's own position in what the pass then has seen.
pub fn push<R: Wait>(rt: &R, cell: &TurnCell<Log>, pass: Pass<Log>, x: u64) -> (Pass<Log>, bool)
    requires { pass.seat.table_id ≡ cell.now.table.shared.table_id }
    ensures same { result.0.seat.table_id ≡ pass.seat.table_id }
    ensures seen { IsPrefix pass.seat.me.0.seen result.0.seat.me.0.seen }
    ensures told { (k : _) × (result.0.seat.me.0.mine ≡ pass.seat.me.0.mine ++ k ∷ []) × (IsTrue result.1 → Stands result.0.seat.me.0.seen k x) }
{
    let mut turn = cell.enter(rt, pass);
    let done = turn.state().act(x);
    (cell.leave(turn), done)
}

/// Two threads push a number each. The log has each that was told to be pushed.
pub fn both<R: Threads + Wait + Sync>(
    rt: &R,
    alloc: Global,
    a: u64,
    b: u64,
) -> Result<(Log, bool, bool), Memory>
    ensures first { IfOk result (λ r. IsTrue r.1 → Has r.0.items.items a) }
    ensures second { IfOk result (λ r. IsTrue r.2 → Has r.0.items.items b) }
{
    let (cell, pass) = TurnCell::new(alloc, Log::new(alloc))?;
    let (one, two) = pass.split(&cell);
    let ((one, first), (two, second)) = join(
        rt,
        || -> (Pass<Log>, bool)
            requires { one.seat.table_id ≡ cell.table.shared.table_id }
            ensures { (result.0.seat.table_id ≡ one.seat.table_id) × ((k : _) × (IsTrue result.1 → Stands result.0.seat.me.0.seen k a)) }
        { push(rt, &cell, one, a) },
        || -> (Pass<Log>, bool)
            requires { two.seat.table_id ≡ cell.table.shared.table_id }
            ensures { (result.0.seat.table_id ≡ two.seat.table_id) × ((k : _) × (IsTrue result.1 → Stands result.0.seat.me.0.seen k b)) }
        { push(rt, &cell, two, b) },
    );
    let pass = one.join(two, &cell);
    let log = cell.close(rt, pass);
    Ok((log, first, second))
}
