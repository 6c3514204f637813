// Copies of what is kept, and maps made of such copies.
ghost use Rattle.std.specs.Prelude.{◌≡◌, ◌∷◌, [], ◌++◌, IfOk, map, OnOk};
ghost use Rattle.group_rules.specs.Certifier.{numbers_of};
ghost use Rattle.certifier.specs.Certifying.{numbers_told};
ghost use Rattle.certifier.specs.Inside.{kept_in, last_in};

use crate::writer::Writer;
use gr_ids::{Inc, LastNumber, Memory, Sequence};
use key_items::{Item, KeptItem};
use std::alloc::Global;
use std::collections::BTreeMap;

/// The last number of each of these members that has one. Logarithmic in the origins, for each of these.
pub(crate) fn copied_last(
    alloc: Global,
    last: &BTreeMap<Inc, u64>,
    members: &[Inc],
) -> Result<Sequence<LastNumber>, Memory>
    ensures { IfOk result (λ numbers. numbers ≡ numbers_of (map last_in last.now.entries) members.now) }
{
    let mut numbers = Vec::new(alloc);
    for inc in members {
        push_last(&mut numbers, last, *inc)?;
    }
    Ok(Sequence::from_vec(numbers))
}

// Puts the origin's last number behind the others, where it has one.
fn push_last(to: &mut Vec<LastNumber>, last: &BTreeMap<Inc, u64>, inc: Inc) -> Result<(), Memory>
    ensures { OnOk result (to.new.items ≡ to.old.items ++ numbers_of (map last_in last.now.entries) (inc ∷ [])) }
{
    if let Some(number) = last.get(&inc) {
        to.push(LastNumber {
            inc,
            number: *number,
        })?;
    }
    Ok(())
}

/// The items with their last writers, ascending. Linear in them.
pub(crate) fn copied_items(
    alloc: Global,
    items: &BTreeMap<Item, Writer>,
) -> Result<Sequence<KeptItem>, Memory>
    ensures { IfOk result (λ kept. kept ≡ map kept_in items.now.entries) }
{
    let mut kept = Vec::with_capacity(alloc, items.len())?;
    for (item, writer) in items {
        kept.push(KeptItem {
            item: item.try_copy(alloc)?,
            gtid: writer.gtid,
            place: writer.place,
        })?;
    }
    Ok(Sequence::from_vec(kept))
}

/// The last numbers by origin. Linear in them, and logarithmic in the origins for each.
pub(crate) fn last_by_origin(
    alloc: Global,
    numbers: &[LastNumber],
) -> Result<BTreeMap<Inc, u64>, Memory>
    ensures { IfOk result (λ last. map last_in last.entries ≡ numbers_told numbers.now) }
{
    let mut last = BTreeMap::new(alloc);
    for told in numbers {
        last.insert(told.inc, told.number)?;
    }
    Ok(last)
}
