// The rows that a line names.
ghost use Rattle.std.specs.Prelude.{◌≡◌, IfOk};
ghost use Rattle.script_text.specs.Words.{words_of};
ghost use Rattle.script_text.specs.Rows.{item_of, row_of, change_of};

use crate::names::{is_table_name, is_visible_text};
use crate::words::{is_word, three_words, two_words};
use gr_ids::{Blob, Memory};
use group_rules::Row;
use key_items::{Change, ChangeKind, Item};
use std::alloc::Global;

/// The item that is all of a line: TABLE KEY.
#[tactic(auto, unfolding(crate::specs::Rows::item_of))]
pub fn read_item(alloc: Global, line: &[u8]) -> Result<Option<Item>, Memory>
    ensures { IfOk result (λ item. item ≡ item_of (words_of line.now)) }
{
    let Some((table, key)) = two_words(line) else {
        return Ok(None);
    };
    if !is_table_name(table) || !is_visible_text(key, 255) {
        return Ok(None);
    }
    Ok(Some(Item {
        table: Blob::of(alloc, table)?,
        key: Blob::of(alloc, key)?,
    }))
}

/// The row that is all of a line: TABLE KEY VALUE.
#[tactic(auto, unfolding(crate::specs::Rows::row_of))]
pub fn read_row(alloc: Global, line: &[u8]) -> Result<Option<Row>, Memory>
    ensures { IfOk result (λ row. row ≡ row_of (words_of line.now)) }
{
    let Some((table, key, value)) = three_words(line) else {
        return Ok(None);
    };
    if !is_table_name(table) || !is_visible_text(key, 255) || !is_visible_text(value, 60_000) {
        return Ok(None);
    }
    Ok(Some(Row {
        item: Item {
            table: Blob::of(alloc, table)?,
            key: Blob::of(alloc, key)?,
        },
        value: Blob::of(alloc, value)?,
    }))
}

/// A change of a row: `insert TABLE KEY VALUE`, `update TABLE KEY VALUE` or `delete TABLE KEY`, the name and what stands behind it.
#[tactic(auto, unfolding(crate::specs::Rows::change_of))]
pub fn read_change(alloc: Global, name: &[u8], line: &[u8]) -> Result<Option<Change>, Memory>
    ensures { IfOk result (λ change. change ≡ change_of name.now (words_of line.now)) }
{
    if is_word(name, "insert") {
        let row = read_row(alloc, line)?;
        return Ok(row.map(|row| Change {
            item: row.item,
            what: ChangeKind::Insert(row.value),
        }));
    }
    if is_word(name, "update") {
        let row = read_row(alloc, line)?;
        return Ok(row.map(|row| Change {
            item: row.item,
            what: ChangeKind::Update(row.value),
        }));
    }
    if is_word(name, "delete") {
        let item = read_item(alloc, line)?;
        return Ok(item.map(|item| Change {
            item,
            what: ChangeKind::Delete,
        }));
    }
    Ok(None)
}
