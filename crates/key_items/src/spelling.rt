// Items as bytes.
ghost use Rattle.std.specs.Prelude.{◌≡◌, ◌≤◌, ◌<◌, ◌^◌, ◌&&◌, ◌++◌, [], ℕ, List, None, length, IfErr, IfOk, OnErr, OnOk, option_copied};
ghost use Rattle.byte_forms.specs.Cuts.{FaultsAt, Takes};
ghost use Rattle.byte_forms.specs.Fields.{field};
ghost use Rattle.byte_forms.specs.Lists.{IsChain, list_of, several};
ghost use Rattle.byte_forms.specs.Packs.{Keeps};
ghost use Rattle.byte_forms.specs.Unreads.{Breaks};
ghost use Rattle.key_items.specs.Floors.{passes};
ghost use Rattle.key_items.specs.Spelling.{IsItem, IsItemAfter, begins_key, begins_table, has_key_above as has_key_above_of, is_between, item_bytes, length_where, next_item_after};

use crate::floors::{can_pass, take_above, take_length};
use crate::item::Item;
use crate::write_set::WriteSet;
use byte_forms::{Cutter, ListForm, Misfit, Packer, Unread, put_list, take_list};
use gr_ids::{Blob, Memory};
use std::alloc::Global;

// The greatest length of a table's name.
const LONGEST_TABLE: u8 = 64;

// The greatest length of a key.
const LONGEST_KEY: u8 = 255;

/// Takes an item that is above the one before it in a list. An error changes nothing. Linear in the item's bytes,
/// and in those of the one before where the two tie; memory is asked for once all of the item is there.
#[tactic(auto, unfolding(crate::specs::Spelling::next_item_after))]
pub fn take_item_after(
    alloc: Global,
    from: &mut Cutter,
    before: Option<&Item>,
) -> Result<Item, Unread>
    ensures ok { IfOk result (λ item. Takes (next_item_after (option_copied before.entry)) from.old item from.new) }
    ensures misfit { IfErr result (λ e. Breaks (next_item_after (option_copied before.entry)) from.old e) }
    ensures err { OnErr result (from.new ≡ from.old) }
{
    let mut ahead = from.fork();
    let table_length = take_table_length(&mut ahead, before)?;
    let table = take_table(&mut ahead, before, table_length)?;
    let key_length = take_key_length(&mut ahead, before, table)?;
    let key = take_key(&mut ahead, before, table, key_length)?;
    let item = Item {
        table: Blob::of(alloc, table)?,
        key: Blob::of(alloc, key)?,
    };
    *from = ahead;
    Ok(item)
}

/// Puts an item. Linear in its bytes; changes nothing where memory is refused.
pub fn put_item(to: &mut Packer, item: &Item) -> Result<(), Memory>
    requires { IsItem item.now }
    ensures ok { OnOk result (to.new ≡ to.old ++ item_bytes item.now) }
    ensures err { OnErr result (to.new ≡ to.old) }
{
    let len = to.len();
    let put = put_fields(to, item);
    to.settle(len, put)
}

fn put_fields(to: &mut Packer, item: &Item) -> Result<(), Memory>
    requires { IsItem item.now }
    ensures ok { OnOk result (to.new ≡ to.old ++ item_bytes item.now) }
    ensures err { OnErr result (Keeps to.old to.new) }
{
    to.put_u8(item.table.len() as u8)?;
    to.put_slice(item.table.as_slice())?;
    to.put_u8(item.key.len() as u8)?;
    to.put_slice(item.key.as_slice())
}

/// Takes a write set: a list of items, each above the one before it. An error changes nothing. Linear in the bytes;
/// memory is asked for item by item, whatever the count says.
pub fn take_write_set(alloc: Global, from: &mut Cutter) -> Result<WriteSet, Unread>
    ensures ok { IfOk result (λ set. Takes (list_of 0 next_item_after) from.old set from.new) }
    ensures misfit { IfErr result (λ e. Breaks (list_of 0 next_item_after) from.old e) }
    ensures err { OnErr result (from.new ≡ from.old) }
{
    let items = take_list(alloc, from, 0, &Ascending)?;
    Ok(WriteSet::from_ascending(items))
}

/// Puts a write set. Linear in its bytes; changes nothing where memory is refused.
pub fn put_write_set(to: &mut Packer, set: &WriteSet) -> Result<(), Memory>
    requires items { IsChain IsItemAfter None set.now }
    requires few { length set.now < 2 ^ 32 }
    ensures ok { OnOk result (to.new ≡ to.old ++ several item_bytes set.now) }
    ensures err { OnErr result (to.new ≡ to.old) }
{
    put_list(to, set.as_slice(), &Ascending)
}

// Items, each above the one before it.
struct Ascending;

impl ListForm for Ascending {
    type Element = Item;

    ghost reader = { λ form before. next_item_after before };

    ghost spelling = { λ form item. item_bytes item };

    ghost CanPrecede = { λ form item. Unit {0} };

    ghost CanPut = { λ form item. IsItem item };

    fn take_next(
        &self,
        alloc: Global,
        from: &mut Cutter,
        before: Option<&Item>,
    ) -> Result<Item, Unread> {
        take_item_after(alloc, from, before)
    }

    fn put_next(&self, to: &mut Packer, item: &Item) -> Result<(), Memory> {
        put_item(to, item)
    }
}

fn take_table_length(from: &mut Cutter, before: Option<&Item>) -> Result<u8, Misfit>
    ensures ok { IfOk result (λ n. Takes (length_where (λ m. is_between 1 64 m && begins_table (option_copied before.entry) m [])) from.old n from.new) }
    ensures misfit { IfErr result (λ e. FaultsAt (length_where (λ m. is_between 1 64 m && begins_table (option_copied before.entry) m [])) from.old e.at) }
    ensures err { OnErr result (from.new ≡ from.old) }
{
    let (floor, itself) = table_floor(before);
    take_length(from, LONGEST_TABLE, floor, itself)
}

fn take_table<'a>(from: &mut Cutter<'a>, before: Option<&Item>, n: u8) -> Result<&'a [u8], Misfit>
    ensures ok { IfOk result (λ slice. Takes (field (begins_table (option_copied before.entry) n) n) from.old slice.now from.new) }
    ensures misfit { IfErr result (λ e. FaultsAt (field (begins_table (option_copied before.entry) n) n) from.old e.at) }
    ensures err { OnErr result (from.new ≡ from.old) }
{
    let (floor, itself) = table_floor(before);
    take_above(from, n, floor, itself)
}

fn take_key_length(from: &mut Cutter, before: Option<&Item>, table: &[u8]) -> Result<u8, Misfit>
    ensures ok { IfOk result (λ n. Takes (length_where (λ m. is_between 1 255 m && begins_key (option_copied before.entry) table.now m [])) from.old n from.new) }
    ensures misfit { IfErr result (λ e. FaultsAt (length_where (λ m. is_between 1 255 m && begins_key (option_copied before.entry) table.now m [])) from.old e.at) }
    ensures err { OnErr result (from.new ≡ from.old) }
{
    let (floor, itself) = key_floor(before, table);
    take_length(from, LONGEST_KEY, floor, itself)
}

fn take_key<'a>(
    from: &mut Cutter<'a>,
    before: Option<&Item>,
    table: &[u8],
    n: u8,
) -> Result<&'a [u8], Misfit>
    ensures ok { IfOk result (λ slice. Takes (field (begins_key (option_copied before.entry) table.now n) n) from.old slice.now from.new) }
    ensures misfit { IfErr result (λ e. FaultsAt (field (begins_key (option_copied before.entry) table.now n) n) from.old e.at) }
    ensures err { OnErr result (from.new ≡ from.old) }
{
    let (floor, itself) = key_floor(before, table);
    take_above(from, n, floor, itself)
}

// What the table has to be above; it may be the same where a key above the one before is left.
fn table_floor<'b>(before: Option<&'b Item>) -> (&'b [u8], bool)
    ensures { (n : ℕ) (front : List ℕ) → begins_table (option_copied before.entry) n front ≡ passes result.0.now result.1 n front }
{
    match before {
        None => (&[], true),
        Some(item) => (item.table.as_slice(), has_key_above(item)),
    }
}

// What the key has to be above: the key before it, in the same table.
fn key_floor<'b>(before: Option<&'b Item>, table: &[u8]) -> (&'b [u8], bool)
    ensures { (n : ℕ) (front : List ℕ) → begins_key (option_copied before.entry) table.now n front ≡ passes result.0.now result.1 n front }
{
    match before {
        Some(item) if item.table.as_slice() == table => (item.key.as_slice(), false),
        _ => (&[], true),
    }
}

// Whether the item's key isn't the greatest one.
fn has_key_above(item: &Item) -> bool
    ensures { result ≡ has_key_above_of item.now }
{
    can_pass(item.key.as_slice(), false, LONGEST_KEY)
}
