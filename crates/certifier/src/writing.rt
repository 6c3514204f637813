// Writers put into the map of items.
ghost use Rattle.std.specs.Prelude.{◌≡◌, cond, if◌then◌else◌, IfOk, IsSome, length, map, OnErr, OnOk, Option, Some};
ghost use Rattle.std.specs.BTreeMap.{get, insert_entry, IsOrdered};
ghost use Rattle.std.specs.Ordering.{is_eq};
ghost use Rattle.key_items.specs.declared.item.Item.{Item as AnyItem};
ghost use Rattle.key_items.specs.Items.{has_item};
ghost use Rattle.group_rules.specs.Certifier.{written_by};
ghost use Rattle.certifier.specs.declared.writer.Writer.{Writer as AnyWriter};
ghost use Rattle.certifier.specs.Inside.{AreThere, item_cmp, kept_in};

use crate::writer::Writer;
use gr_ids::Memory;
use key_items::Item;
use std::alloc::Global;
use std::collections::BTreeMap;

/// Makes the transaction the last writer of each of these items. Logarithmic in the items kept, for each of these; nothing changes where
/// memory is refused.
pub(crate) fn write_items(
    alloc: Global,
    items: &mut BTreeMap<Item, Writer>,
    written: &[Item],
    writer: &Writer,
) -> Result<(), Memory>
    requires { IsOrdered item_cmp items.old }
    ensures ok { OnOk result (map kept_in items.new.entries ≡ written_by writer.now.place writer.now.gtid written.now (map kept_in items.old.entries)) }
    ensures there { OnOk result ((i : AnyItem) → get item_cmp items.new i ≡ (if has_item written.now i then Some writer.now else get item_cmp items.old i)) }
    ensures err { OnErr result (items.new.entries ≡ items.old.entries) }
    ensures ordered { IsOrdered item_cmp items.new }
{
    let before = writers_of(alloc, items, written)?;
    for at in 0..written.len() {
        if write_item(alloc, items, &written[at], *writer).is_err() {
            put_all_back(items, &written[..at], &before[..at]);
            return Err(Memory);
        }
    }
    Ok(())
}

// The last writers of these items.
fn writers_of(
    alloc: Global,
    items: &BTreeMap<Item, Writer>,
    written: &[Item],
) -> Result<Vec<Option<Writer>>, Memory>
    ensures { IfOk result (λ v. v.items ≡ map (get item_cmp items.now) written.now) }
{
    Ok(
        written
            .iter()
            .map(|item| items.get(item).copied())
            .collect(alloc)?,
    )
}

fn write_item(
    alloc: Global,
    items: &mut BTreeMap<Item, Writer>,
    item: &Item,
    writer: Writer,
) -> Result<(), Memory>
    requires { IsOrdered item_cmp items.old }
    ensures ok { OnOk result (items.new.entries ≡ insert_entry item_cmp items.old.entries item.now writer) }
    ensures there { OnOk result ((q : AnyItem) → get item_cmp items.new q ≡ cond (is_eq (item_cmp item.now q)) (Some writer) (get item_cmp items.old q)) }
    ensures err { OnErr result (items.new.entries ≡ items.old.entries) }
    ensures ordered { IsOrdered item_cmp items.new }
{
    items.insert(item.try_copy(alloc)?, writer)?;
    Ok(())
}

// Gives each of these items the writer that it had before.
fn put_all_back(items: &mut BTreeMap<Item, Writer>, written: &[Item], before: &[Option<Writer>])
    requires { length before.now ≡ length written.now }
    ensures back { (was : AnyItem → Option AnyWriter) → before.now ≡ map was written.now → AreThere items.old.entries written.now
        → (q : AnyItem) → get item_cmp items.new q ≡ (if has_item written.now q then was q else get item_cmp items.old q) }
    ensures ordered { IsOrdered item_cmp items.old → IsOrdered item_cmp items.new }
{
    for at in 0..written.len() {
        put_back(items, &written[at], before[at]);
    }
}

/// Gives the key, which is there, the value that it had before. Logarithmic in the entries; takes no memory.
pub(crate) fn put_back<K: Ord + Drop, V: Drop>(map: &mut BTreeMap<K, V>, key: &K, before: Option<V>)
    ensures back { (IsSome before → IsSome (get K.cmp map.old key.now))
        → (q : K) → get K.cmp map.new q ≡ cond (is_eq (K.cmp key.now q)) before (get K.cmp map.old q) }
    ensures ordered { IsOrdered K.cmp map.new }
{
    let Some(value) = before else {
        map.remove(key);
        return;
    };
    if let Some(slot) = map.get_mut(key) {
        *slot = value;
    }
}
