// Looks at all runs of a set.
ghost use Rattle.std.specs.Prelude.{◌≡◌};
ghost use Rattle.gtid_sets.specs.Sets.{subset, count_of};
ghost use Rattle.gtid_sets.specs.Canonical.{IsCanonical};

use crate::run::Run;

/// Whether the second has all that the first has. Linear in the runs.
pub(crate) fn covered(a: &[Run], b: &[Run]) -> bool
    requires first { IsCanonical a.now }
    requires second { IsCanonical b.now }
    ensures { result ≡ subset a.now b.now }
{
    let mut i = 0;
    let mut j = 0;
    while i < a.len() {
        if j >= b.len() {
            return false;
        }
        if b[j].precedes(&a[i]) {
            j += 1;
            continue;
        }
        if !a[i].is_covered(&b[j]) {
            return false;
        }
        i += 1;
    }
    true
}

/// How many GTIDs the runs have. Linear in the runs.
pub(crate) fn counted(runs: &[Run]) -> u128
    requires { IsCanonical runs.now }
    ensures { result ≡ count_of runs.now }
{
    let mut count = 0u128;
    for run in runs {
        count += u128::from(run.last - run.first + 1);
    }
    count
}
