// Lists of incarnations.
ghost use Rattle.std.specs.Prelude.{◌≡◌, ◌↔◌, IsTrue, option_copied};
ghost use Rattle.std.specs.List.{AllByRecursion};
ghost use Rattle.name_forms.specs.Incs.{IsInc, IsIncAfter};
ghost use Rattle.paxos_forms.specs.Welcomes.{IsConfig};

use crate::chains::{Rule, are_few};
use crate::names::{is_inc, is_inc_after};
use gr_ids::{Inc, Sequence};

/// Incarnations, each above the one before it.
pub(crate) struct Ascending;

impl Rule for Ascending {
    type Element = Inc;

    ghost IsNext = { λ rule before inc. IsIncAfter before inc };

    fn is_next(&self, before: Option<&Inc>, inc: &Inc) -> bool {
        is_inc_after(before.copied(), *inc)
    }
}

/// Whether each is in its range.
fn are_incs(incs: &[Inc]) -> bool
    ensures { IsTrue result ↔ AllByRecursion IsInc incs.now }
{
    let mut left = incs;
    while let Some((first, behind)) = left.split_first() {
        if !is_inc(*first) {
            return false;
        }
        left = behind;
    }
    true
}

fn is_config(config: &Sequence<Inc>) -> bool
    ensures { IsTrue result ↔ IsConfig config.now }
{
    are_incs(config.as_slice()) && are_few(config.as_slice())
}

/// Whether each is a list of incarnations.
pub(crate) fn are_configs(configs: &[Sequence<Inc>]) -> bool
    ensures { IsTrue result ↔ AllByRecursion IsConfig configs.now }
{
    let mut left = configs;
    while let Some((first, behind)) = left.split_first() {
        if !is_config(first) {
            return false;
        }
        left = behind;
    }
    true
}
