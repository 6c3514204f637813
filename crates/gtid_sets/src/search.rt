// Where a GTID stands among the runs of a set.
ghost use Rattle.std.specs.Prelude.{◌≡◌, ◌≤◌, length};
ghost use Rattle.gtid_sets.specs.Canonical.{IsCanonical, IsUuid};
ghost use Rattle.gtid_sets.specs.Places.{runs_before};

use crate::run::Run;
use gr_ids::Gtid;

/// How many of the runs stand before the GTID, each with a gap between. Logarithmic in the runs.
pub(crate) fn runs_before(runs: &[Run], gtid: Gtid) -> usize
    requires { IsCanonical runs.now }
    ensures place { result ≡ runs_before runs.now gtid }
    ensures within { result ≤ length runs.now }
    ensures uuid { IsUuid gtid.source }
{
    let wanted = Run::single(gtid);
    let mut low = 0;
    let mut high = runs.len();
    while low < high {
        let middle = low + (high - low) / 2;
        let run = runs[middle];
        if run.is_before(&wanted) {
            low = middle + 1;
        } else {
            high = middle;
        }
    }
    low
}
