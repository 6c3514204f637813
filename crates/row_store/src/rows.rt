// The rows of all chains.
ghost use Rattle.std.specs.Prelude.{◌≡◌, ◌++◌, [], IfOk, OnOk, map, option_copied};
ghost use Rattle.gr_ids.specs.declared.memory.Memory.{Memory};
ghost use Rattle.row_store.specs.Chains.{item_of, row_list, row_listed, row_now, rows_of};
ghost use Rattle.key_items.specs.Items.{Ascend};
ghost use Rattle.key_items.specs.declared.item.Item.{Item as AnyItem};
ghost use Rattle.row_store.specs.Inside.{chain_of};

use crate::version::{Version, newest_row};
use gr_ids::{Blob, Memory};
use group_rules::Row;
use key_items::Item;
use std::alloc::Global;
use std::collections::BTreeMap;

/// Copies of the rows as the newest versions have them.
pub(crate) fn rows_of_chains(
    alloc: Global,
    chains: &BTreeMap<Item, Vec<Version>>,
) -> Result<Vec<Row>, Memory>
    ensures rows { IfOk result (λ rows. rows.items ≡ rows_of (map chain_of chains.now.entries)) }
    ensures ascend { IfOk result (λ rows. Ascend (map item_of rows.items)) }
    ensures listed { IfOk result (λ rows. (i : AnyItem) → row_listed rows.items i ≡ row_now (map chain_of chains.now.entries) i) }
{
    let room = Vec::with_capacity(alloc, chains.len())?;
    let rows = with_rows(room, alloc, chains)?;
    Ok(rows)
}

fn with_rows(
    room: Vec<Row>,
    alloc: Global,
    chains: &BTreeMap<Item, Vec<Version>>,
) -> Result<Vec<Row>, Memory>
    requires { room.items ≡ [] }
    ensures { IfOk result (λ rows. rows.items ≡ rows_of (map chain_of chains.now.entries)) }
{
    let mut rows = room;
    for (item, versions) in chains.iter() {
        add_row(&mut rows, alloc, item, newest_row(versions))?;
    }
    Ok(rows)
}

fn add_row(
    rows: &mut Vec<Row>,
    alloc: Global,
    item: &Item,
    row: Option<&Blob>,
) -> Result<(), Memory>
    ensures { OnOk result (rows.new.items ≡ rows.old.items ++ row_list item.now (option_copied row.entry)) }
{
    let Some(row) = row else {
        return Ok(());
    };
    rows.push(Row {
        item: item.try_copy(alloc)?,
        value: row.try_copy(alloc)?,
    })?;
    Ok(())
}
