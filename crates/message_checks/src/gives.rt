// Asks and Gives within their ranges.
ghost use Rattle.std.specs.Prelude.{◌≡◌, ◌≤◌, ◌↔◌, IsTrue, option_copied};
ghost use Rattle.message_checks.specs.Parts.{HasItems, HasNumbers, HasParts, HasPlaces, HasTold, HasTxns};
ghost use Rattle.paxos_forms.specs.Gives.{IsAsk, IsGive};

use crate::chains::is_list;
use crate::given::{Open, are_txns};
use crate::kept::{LastNumbers, ToldSets, are_items};
use crate::values::LAST_SLOT;
use paxos_forms::{Ask, Give};

/// Whether the place is 1 to 2^42.
pub fn is_ask(ask: &Ask) -> bool
    ensures { IsTrue result ↔ IsAsk ask.now }
{
    let _runs = ask.executed.runs();
    1 <= ask.place.0 && ask.place.0 <= LAST_SLOT
}

/// Whether other places are at most the place, and the lists ascend. Linear in it.
#[tactic(auto, using(crate::proofs::Whole::give_whole, crate::proofs::Whole::give_parts))]
pub fn is_give(give: &Give) -> bool
    ensures { IsTrue result ↔ IsGive give.now }
{
    let _runs = give.certified.runs();
    has_places(give)
        && has_numbers(give)
        && has_items(give)
        && has_told(give)
        && has_txns(give)
        && has_parts(give)
}

fn has_places(give: &Give) -> bool
    ensures { IsTrue result ↔ HasPlaces give.now }
{
    1 <= give.place.0 && give.place.0 <= LAST_SLOT && give.blocks <= give.place.0
}

fn has_numbers(give: &Give) -> bool
    ensures { IsTrue result ↔ HasNumbers give.now }
{
    is_list(&LastNumbers, &give.last)
}

fn has_items(give: &Give) -> bool
    ensures { IsTrue result ↔ HasItems give.now }
{
    are_items(give.place.0, &give.items)
}

fn has_told(give: &Give) -> bool
    ensures { IsTrue result ↔ HasTold give.now }
{
    is_list(&ToldSets, &give.told)
}

fn has_txns(give: &Give) -> bool
    ensures { IsTrue result ↔ HasTxns give.now }
{
    are_txns(give.place.0, &give.txns)
}

fn has_parts(give: &Give) -> bool
    ensures { IsTrue result ↔ HasParts give.now }
{
    is_list(&Open, &give.parts)
}
