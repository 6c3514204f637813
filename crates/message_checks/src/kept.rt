// What a Give tells of a certifier, element by element.
ghost use Rattle.std.specs.Prelude.{◌≡◌, ◌≤◌, ◌↔◌, IsTrue, option_copied};
ghost use Rattle.key_items.specs.Items.{item_lt};
ghost use Rattle.key_items.specs.Spelling.{IsItem, IsItemAfter};
ghost use Rattle.message_checks.specs.Parts.{IsListOf};
ghost use Rattle.paxos_forms.specs.Gives.{IsKeptAfter, IsLastAfter, IsToldAfter, inc_of_last as inc_of_last_of, inc_of_told as inc_of_told_of, item_of_kept};

use crate::chains::{Rule, is_list};
use crate::names::{is_gtid, is_inc_after};
use gr_ids::{Inc, LastNumber, Sequence};
use gtid_sets::ToldSet;
use key_items::{Item, KeptItem};

/// Last numbers, each incarnation above the one before it.
pub(crate) struct LastNumbers;

impl Rule for LastNumbers {
    type Element = LastNumber;

    ghost IsNext = { λ rule before last. IsLastAfter before last };

    fn is_next(&self, before: Option<&LastNumber>, last: &LastNumber) -> bool {
        is_last_after(before, last)
    }
}

fn is_last_after(before: Option<&LastNumber>, last: &LastNumber) -> bool
    ensures { IsTrue result ↔ IsLastAfter (option_copied before.entry) last.now }
{
    let _number = last.number;
    is_inc_after(inc_of_last(before), last.inc)
}

fn inc_of_last(before: Option<&LastNumber>) -> Option<Inc>
    ensures { result ≡ inc_of_last_of (option_copied before.entry) }
{
    match before {
        None => None,
        Some(last) => Some(last.inc),
    }
}

// Kept items, each above the one before it, whose writers' places are at most the place.
#[derive(Drop)]
struct KeptItems {
    place: u64,
}

impl Rule for KeptItems {
    type Element = KeptItem;

    ghost IsNext = { λ rule before kept. IsKeptAfter rule.place before kept };

    fn is_next(&self, before: Option<&KeptItem>, kept: &KeptItem) -> bool {
        is_kept_after(self.place, before, kept)
    }
}

/// Whether the items ascend, and their writers' places are at most the place.
pub(crate) fn are_items(place: u64, items: &Sequence<KeptItem>) -> bool
    ensures { IsTrue result ↔ IsListOf (IsKeptAfter place) items.now }
{
    is_list(&KeptItems { place }, items)
}

fn is_kept_after(place: u64, before: Option<&KeptItem>, kept: &KeptItem) -> bool
    ensures { IsTrue result ↔ IsKeptAfter place (option_copied before.entry) kept.now }
{
    is_item_after(before, &kept.item)
        && is_gtid(kept.gtid)
        && 1 <= kept.place.0
        && kept.place.0 <= place
}

fn is_item_after(before: Option<&KeptItem>, item: &Item) -> bool
    ensures { IsTrue result ↔ IsItemAfter (item_of_kept (option_copied before.entry)) item.now }
{
    match before {
        None => is_item(item),
        Some(last) => is_item(item) && is_below(&last.item, item),
    }
}

// Whether the table is 1 to 64 bytes, and the key 1 to 255.
fn is_item(item: &Item) -> bool
    ensures { IsTrue result ↔ IsItem item.now }
{
    let (table, key) = (item.table.len(), item.key.len());
    1 <= table && table <= 64 && 1 <= key && key <= 255
}

fn is_below(x: &Item, y: &Item) -> bool
    ensures { result ≡ item_lt x.now y.now }
{
    if x.table == y.table {
        x.key < y.key
    } else {
        x.table < y.table
    }
}

/// Told sets, each incarnation above the one before it.
pub(crate) struct ToldSets;

impl Rule for ToldSets {
    type Element = ToldSet;

    ghost IsNext = { λ rule before told. IsToldAfter before told };

    fn is_next(&self, before: Option<&ToldSet>, told: &ToldSet) -> bool {
        is_told_after(before, told)
    }
}

fn is_told_after(before: Option<&ToldSet>, told: &ToldSet) -> bool
    ensures { IsTrue result ↔ IsToldAfter (option_copied before.entry) told.now }
{
    let _runs = told.set.runs();
    is_inc_after(inc_of_told(before), told.inc)
}

fn inc_of_told(before: Option<&ToldSet>) -> Option<Inc>
    ensures { result ≡ inc_of_told_of (option_copied before.entry) }
{
    match before {
        None => None,
        Some(told) => Some(told.inc),
    }
}
