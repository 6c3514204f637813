// A GTID put in among runs.
ghost use Rattle.std.specs.Prelude.{◌≡◌, ◌<◌, ◌+◌, ◌++◌, take, drop, slice_get, vec_len, Some, OnOk, OnErr};
ghost use Rattle.gtid_sets.specs.Sets.{with_gtid};
ghost use Rattle.gtid_sets.specs.Canonical.{IsCanonical, IsNumber};
ghost use Rattle.gtid_sets.specs.Places.{joined_next};

use crate::run::Run;
use crate::search::runs_before;
use gr_ids::{Gtid, Memory};

/// Puts a GTID in. Linear in the runs behind it; nothing changes where memory is refused.
pub(crate) fn put_gtid(runs: &mut Vec<Run>, gtid: Gtid) -> Result<(), Memory>
    requires canonical { IsCanonical runs.old.items }
    requires number { IsNumber gtid.number }
    ensures ok { OnOk result (runs.new.items ≡ with_gtid runs.old.items gtid) }
    ensures canonical { IsCanonical runs.new.items }
    ensures err { OnErr result (runs.new.items ≡ runs.old.items) }
{
    let run = Run::single(gtid);
    let at = runs_before(runs, gtid);
    if at == runs.len() {
        runs.push(run)?;
        return Ok(());
    }
    let next = runs[at];
    if run.is_before(&next) {
        runs.insert(at, run)?;
        return Ok(());
    }
    let joined = run.joined(&next);
    put_joined(runs, at, joined);
    Ok(())
}

/// Puts a run in the place of the one there, and joins it with the one behind, where they touch. Linear in the
/// runs behind.
fn put_joined(runs: &mut Vec<Run>, at: usize, run: Run)
    requires { at < vec_len runs.old }
    ensures { runs.new.items ≡ take at runs.old.items ++ joined_next run (drop (at + 1) runs.old.items) }
{
    if at + 1 == runs.len() {
        runs[at] = run;
        return;
    }
    let next = runs[at + 1];
    if run.is_before(&next) {
        runs[at] = run;
        return;
    }
    runs[at] = run.joined(&next);
    let _ = runs.remove(at + 1);
}
