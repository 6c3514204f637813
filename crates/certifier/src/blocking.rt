// The writer that stands in the way of a transaction.
ghost use Rattle.std.specs.Prelude.{◌≡◌, map, option_map};
ghost use Rattle.std.specs.BTreeMap.{IsOrdered, is_at};
ghost use Rattle.std.specs.Map.{lookup};
ghost use Rattle.group_rules.specs.Certifier.{blocker as blocker_of};
ghost use Rattle.certifier.specs.Blockers.{later_writer, unseen, writer_of};
ghost use Rattle.certifier.specs.Inside.{item_cmp, kept_in};

use crate::writer::Writer;
use gtid_sets::GtidSet;
use key_items::Item;
use std::collections::BTreeMap;
use txn_forms::Txn;

/// Of the last writers of the transaction's items that its snapshot lacks, the one at the greatest place. Logarithmic in the items kept,
/// for each item of the transaction.
pub(crate) fn blocker(items: &BTreeMap<Item, Writer>, txn: &Txn) -> Option<Writer>
    requires { IsOrdered item_cmp items.now }
    ensures { result ≡ option_map writer_of (blocker_of (map kept_in items.now.entries) txn.now) }
{
    let mut last = None;
    let written = txn.items.as_slice();
    for item in written {
        last = later(last, unseen_writer(items, &txn.snapshot, item));
    }
    last
}

// The last writer of the item, where the snapshot lacks it.
fn unseen_writer(items: &BTreeMap<Item, Writer>, snapshot: &GtidSet, item: &Item) -> Option<Writer>
    ensures { result ≡ unseen snapshot.now (lookup (is_at (item_cmp item.now)) items.now.entries) }
{
    match items.get(item) {
        Some(writer) if !snapshot.contains(writer.gtid) => Some(*writer),
        _ => None,
    }
}

// Of two writers the one at the greater place, and where they tie the second.
fn later(first: Option<Writer>, second: Option<Writer>) -> Option<Writer>
    ensures { result ≡ later_writer first second }
{
    match (first, second) {
        (Some(one), Some(other)) if other.place.0 < one.place.0 => first,
        (_, None) => first,
        _ => second,
    }
}
