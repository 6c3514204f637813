// For each writer, the items that it wrote.
ghost use Rattle.std.specs.Prelude.{◌≡◌, ◌∷◌, [], ◌++◌, OnErr, OnOk, true};
ghost use Rattle.gr_ids.specs.declared.names.Gtid.{Gtid as AnyGtid};
ghost use Rattle.key_items.specs.declared.item.Item.{Item as AnyItem};
ghost use Rattle.key_items.specs.Items.{has_item};
ghost use Rattle.certifier.specs.Inside.{IsNoted};

use gr_ids::{Gtid, Memory};
use key_items::Item;
use std::alloc::Global;
use std::collections::BTreeMap;

/// Notes that the transaction wrote these items. Logarithmic in the writers, for each item.
pub(crate) fn note_items(
    alloc: Global,
    written: &mut BTreeMap<Gtid, Vec<Item>>,
    gtid: Gtid,
    items: &[Item],
) -> Result<(), Memory>
    ensures keeps { (g : AnyGtid) (i : AnyItem) → IsNoted written.old.entries g i → IsNoted written.new.entries g i }
    ensures ok { OnOk result ((i : AnyItem) → has_item items.now i ≡ true → IsNoted written.new.entries gtid i) }
{
    for item in items {
        note(alloc, written, gtid, item)?;
    }
    Ok(())
}

/// Notes that the transaction wrote the item. Logarithmic in the writers.
pub(crate) fn note(
    alloc: Global,
    written: &mut BTreeMap<Gtid, Vec<Item>>,
    gtid: Gtid,
    item: &Item,
) -> Result<(), Memory>
    ensures keeps { (g : AnyGtid) (i : AnyItem) → IsNoted written.old.entries g i → IsNoted written.new.entries g i }
    ensures ok { OnOk result (IsNoted written.new.entries gtid item.now) }
{
    let item = item.try_copy(alloc)?;
    if let Some(items) = written.get_mut(&gtid) {
        return push_item(items, item);
    }
    let mut items = Vec::new(alloc);
    items.push(item)?;
    written.insert(gtid, items)?;
    Ok(())
}

fn push_item(items: &mut Vec<Item>, item: Item) -> Result<(), Memory>
    ensures ok { OnOk result (items.new.items ≡ items.old.items ++ item ∷ []) }
    ensures err { OnErr result (items.new.items ≡ items.old.items) }
{
    items.push(item)?;
    Ok(())
}
