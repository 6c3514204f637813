// What a clause can't say of a list of numbers: that they are bytes. This walk reads nothing, and compiles to nothing.
ghost use Rattle.std.specs.List.{AllByRecursion};
ghost use Rattle.key_items.specs.Spelling.{AreBytes};

use key_items::{KeptItem, item_fits};

/// The tables and keys of the kept items are bytes.
#[inline]
pub(crate) fn kept_items_fit(kept: &[KeptItem])
    ensures { AllByRecursion (λ k. AreBytes k.item) kept.now }
{
    let mut left = kept;
    while let Some((first, behind)) = left.split_first() {
        item_fits(&first.item);
        left = behind;
    }
}
