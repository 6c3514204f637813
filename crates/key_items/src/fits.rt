// What a clause can't say of a list of numbers: that they are bytes. These walks read nothing, and compile to nothing.
ghost use Rattle.std.specs.Prelude.{◌≡◌, true};
ghost use Rattle.std.specs.List.{AllByRecursion};
ghost use Rattle.byte_forms.specs.Numbers.{are_bytes};
ghost use Rattle.key_items.specs.Spelling.{AreBytes};

use crate::item::Item;

/// The tables and keys of the items are bytes: a clause alone can't tell it of a list of numbers. Compiles to nothing.
#[inline]
pub fn items_fit(items: &[Item])
    ensures { AllByRecursion AreBytes items.now }
{
    let mut left = items;
    while let Some((item, behind)) = left.split_first() {
        item_fits(item);
        left = behind;
    }
}

/// The table and the key of the item are bytes. Compiles to nothing.
#[inline]
pub fn item_fits(item: &Item)
    ensures { AreBytes item.now }
{
    bytes_fit(item.table.as_slice());
    bytes_fit(item.key.as_slice());
}

#[inline]
fn bytes_fit(bytes: &[u8])
    ensures { are_bytes bytes.now ≡ true }
{}
