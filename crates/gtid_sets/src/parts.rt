// What two lists of runs have in common, and what one has and the other hasn't.
ghost use Rattle.std.specs.Prelude.{◌≡◌, ◌++◌, ◌∷◌, [], drop, IfOk, OnOk};
ghost use Rattle.gtid_sets.specs.Sets.{Gtids, common, meet, below, minus};
ghost use Rattle.gtid_sets.specs.Canonical.{IsCanonical, IsRun, IsBefore};

use crate::run::Run;
use gr_ids::Memory;
use std::alloc::Global;

/// The runs that both have. Linear in them.
pub(crate) fn met(alloc: Global, a: &[Run], b: &[Run]) -> Result<Vec<Run>, Memory>
    requires first { IsCanonical a.now }
    requires second { IsCanonical b.now }
    ensures { IfOk result (λ runs. runs.items ≡ meet a.now b.now) }
{
    let mut runs = Vec::new(alloc);
    let mut i = 0;
    let mut j = 0;
    while i < a.len() && j < b.len() {
        push_common(&mut runs, &a[i], &b[j])?;
        if a[i].ends_first(&b[j]) {
            i += 1;
        } else {
            j += 1;
        }
    }
    Ok(runs)
}

/// Adds what two runs have in common.
fn push_common(runs: &mut Vec<Run>, a: &Run, b: &Run) -> Result<(), Memory>
    ensures { OnOk result (runs.new.items ≡ runs.old.items ++ common a.now b.now) }
{
    let source = a.source;
    let first = a.first.max(b.first);
    let last = a.last.min(b.last);
    if source == b.source && first <= last {
        runs.push(Run {
            source,
            first,
            last,
        })?;
    }
    Ok(())
}

/// The runs that the first has and the second hasn't. Linear in them.
pub(crate) fn remaining(alloc: Global, a: &[Run], b: &[Run]) -> Result<Vec<Run>, Memory>
    requires first { IsCanonical a.now }
    requires second { IsCanonical b.now }
    ensures { IfOk result (λ runs. runs.items ≡ minus a.now b.now) }
{
    let mut runs = Vec::new(alloc);
    let mut j = 0;
    for run in a {
        j = push_remaining(&mut runs, *run, b, j)?;
    }
    Ok(runs)
}

/// Adds what a run has and the cuts from an index on haven't. Answers an index from which on the cuts matter for
/// the runs behind. Linear in the cuts between.
fn push_remaining(runs: &mut Vec<Run>, run: Run, cuts: &[Run], from: usize) -> Result<usize, Memory>
    requires run { IsRun run }
    requires cuts { IsCanonical cuts.now }
    ensures added { OnOk result (runs.new.items ≡ runs.old.items ++ minus (run ∷ []) (drop from cuts.now)) }
    ensures later { IfOk result (λ next. (behind : Gtids) → IsBefore run behind → IsCanonical behind
        → minus behind (drop next cuts.now) ≡ minus behind (drop from cuts.now)) }
{
    let mut rest = run;
    let mut j = from;
    while j < cuts.len() {
        let cut = cuts[j];
        if cut.precedes(&rest) {
            j += 1;
            continue;
        }
        if rest.precedes(&cut) {
            runs.push(rest)?;
            return Ok(j);
        }
        push_below(runs, &rest, cut.first)?;
        if rest.last <= cut.last {
            return Ok(j);
        }
        rest.first = cut.last + 1;
        j += 1;
    }
    runs.push(rest)?;
    Ok(j)
}

/// Adds the part of a run below a number.
fn push_below(runs: &mut Vec<Run>, run: &Run, n: u64) -> Result<(), Memory>
    ensures { OnOk result (runs.new.items ≡ runs.old.items ++ below run.now n) }
{
    if run.first < n {
        let source = run.source;
        let first = run.first;
        let last = if run.last < n { run.last } else { n - 1 };
        runs.push(Run {
            source,
            first,
            last,
        })?;
    }
    Ok(())
}
