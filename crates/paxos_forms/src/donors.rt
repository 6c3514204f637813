// What a donor gives, as bytes: list by list.
ghost use Rattle.std.specs.Prelude.{◌≡◌, ◌≤◌, ◌<◌, ◌^◌, ◌++◌, length, suc, IfErr, IfOk, IfSome, OnErr, OnOk, option_copied};
ghost use Rattle.byte_forms.specs.Cuts.{FaultsAt, Takes};
ghost use Rattle.byte_forms.specs.Packs.{Keeps};
ghost use Rattle.byte_forms.specs.Unreads.{Breaks};
ghost use Rattle.key_items.specs.Spelling.{IsItem};
ghost use Rattle.name_forms.specs.OpenParts.{inc_of_parts as inc_of_parts_of};
ghost use Rattle.slot_values.specs.Slots.{last_slot};
ghost use Rattle.paxos_forms.specs.Gives.{given_bytes, inc_of_last as inc_of_last_of, item_of_kept as item_of_kept_of, kept_bytes, last_bytes, next_given_after, next_kept_after, next_last_after, next_parts_after, parts_bytes, place_above as place_above_of};

use crate::recovery::Given;
use byte_forms::{Cutter, ListForm, Misfit, Packer, Unread, put_counted, take_counted};
use gr_ids::{Inc, LastNumber, Memory, OpenParts, Pos};
use key_items::{Item, KeptItem, put_item, take_item_after};
use name_forms::{put_gtid, put_inc, take_gtid, take_inc, take_inc_after};
use std::alloc::Global;

// The bytes that a part carries that isn't the last one.
const PART_SIZE: u32 = 65_523;

// The greatest number of parts of a transaction.
const MOST_PARTS: u32 = 257;

/// Last numbers, each incarnation above the one before it.
pub(crate) struct LastNumbers;

impl ListForm for LastNumbers {
    type Element = LastNumber;

    ghost reader = { λ form before. next_last_after before };

    ghost spelling = { λ form last. last_bytes last };

    ghost CanPrecede = { λ form last. last.inc.server ≤ 32 };

    ghost CanPut = { λ form last. Unit {0} };

    fn take_next(
        &self,
        _alloc: Global,
        from: &mut Cutter,
        before: Option<&LastNumber>,
    ) -> Result<LastNumber, Unread> {
        Ok(take_last(from, before)?)
    }

    fn put_next(&self, to: &mut Packer, last: &LastNumber) -> Result<(), Memory> {
        put_inc(to, last.inc)?;
        to.put_u64(last.number)
    }
}

#[tactic(auto, unfolding(crate::specs::Gives::next_last_after))]
fn take_last(from: &mut Cutter, before: Option<&LastNumber>) -> Result<LastNumber, Misfit>
    requires { IfSome (option_copied before) (λ b. b.inc.server ≤ 32) }
    ensures ok { IfOk result (λ last. Takes (next_last_after (option_copied before.entry)) from.old last from.new) }
    ensures range { IfOk result (λ last. last.inc.server ≤ 32) }
    ensures misfit { IfErr result (λ e. FaultsAt (next_last_after (option_copied before.entry)) from.old e.at) }
{
    let inc = take_inc_after(from, inc_of_last(before))?;
    let number = from.take_u64_in(0, u64::MAX)?;
    Ok(LastNumber { inc, number })
}

fn inc_of_last(before: Option<&LastNumber>) -> Option<Inc>
    ensures { result ≡ inc_of_last_of (option_copied before.entry) }
{
    match before {
        None => None,
        Some(last) => Some(last.inc),
    }
}

/// Kept items, each above the one before it, whose writers' places are at most the place.
#[derive(Drop)]
pub(crate) struct KeptItems {
    pub(crate) place: u64,
}

impl ListForm for KeptItems {
    type Element = KeptItem;

    ghost reader = { λ form before. next_kept_after form.place before };

    ghost spelling = { λ form kept. kept_bytes kept };

    ghost CanPrecede = { λ form kept. Unit {0} };

    ghost CanPut = { λ form kept. IsItem kept.item };

    fn take_next(
        &self,
        alloc: Global,
        from: &mut Cutter,
        before: Option<&KeptItem>,
    ) -> Result<KeptItem, Unread> {
        take_kept(alloc, from, self.place, before)
    }

    fn put_next(&self, to: &mut Packer, kept: &KeptItem) -> Result<(), Memory> {
        put_item(to, &kept.item)?;
        put_gtid(to, kept.gtid)?;
        to.put_u64(kept.place.0)
    }
}

#[tactic(auto, unfolding(crate::specs::Gives::next_kept_after))]
fn take_kept(
    alloc: Global,
    from: &mut Cutter,
    place: u64,
    before: Option<&KeptItem>,
) -> Result<KeptItem, Unread>
    ensures ok { IfOk result (λ kept. Takes (next_kept_after place (option_copied before.entry)) from.old kept from.new) }
    ensures misfit { IfErr result (λ e. Breaks (next_kept_after place (option_copied before.entry)) from.old e) }
{
    let item = take_item_after(alloc, from, item_of_kept(before))?;
    let gtid = take_gtid(from)?;
    let writer = from.take_u64_in(1, place)?;
    Ok(KeptItem {
        item,
        gtid,
        place: Pos(writer),
    })
}

fn item_of_kept(before: Option<&KeptItem>) -> Option<&Item>
    ensures { option_copied result ≡ item_of_kept_of (option_copied before.entry) }
{
    match before {
        None => None,
        Some(kept) => Some(&kept.item),
    }
}

/// Certified transactions, by place, up to a place.
#[derive(Drop)]
pub(crate) struct Txns {
    pub(crate) place: u64,
    ghost few: { place ≤ last_slot },
}

impl ListForm for Txns {
    type Element = Given;

    ghost reader = { λ form before. next_given_after form.place before };

    ghost spelling = { λ form given. given_bytes given };

    ghost CanPrecede = { λ form given. given.place ≤ form.place };

    ghost CanPut = { λ form given. length given.body < 2 ^ 32 };

    fn take_next(
        &self,
        alloc: Global,
        from: &mut Cutter,
        before: Option<&Given>,
    ) -> Result<Given, Unread> {
        take_given(alloc, from, self.place, before)
    }

    fn put_next(&self, to: &mut Packer, given: &Given) -> Result<(), Memory> {
        to.put_u64(given.place.0)?;
        put_inc(to, given.origin)?;
        put_gtid(to, given.gtid)?;
        put_counted(to, given.body.as_slice())
    }
}

#[tactic(auto, unfolding(crate::specs::Gives::next_given_after))]
fn take_given(
    alloc: Global,
    from: &mut Cutter,
    place: u64,
    before: Option<&Given>,
) -> Result<Given, Unread>
    requires above { IfSome (option_copied before) (λ b. b.place ≤ place) }
    requires few { place ≤ last_slot }
    ensures ok { IfOk result (λ given. Takes (next_given_after place (option_copied before.entry)) from.old given from.new) }
    ensures range { IfOk result (λ given. given.place ≤ place) }
    ensures misfit { IfErr result (λ e. Breaks (next_given_after place (option_copied before.entry)) from.old e) }
{
    let at = from.take_u64_in(place_above(before), place)?;
    let origin = take_inc(from)?;
    let gtid = take_gtid(from)?;
    let body = take_counted(alloc, from, 0, u32::MAX)?;
    Ok(Given {
        place: Pos(at),
        origin,
        gtid,
        body,
    })
}

fn place_above(before: Option<&Given>) -> u64
    requires { IfSome (option_copied before) (λ b. b.place < 18446744073709551615) }
    ensures { result ≡ place_above_of (option_copied before.entry) }
{
    match before {
        None => 1,
        Some(given) => given.place.0 + 1,
    }
}

/// Open parts, each origin above the one before it.
pub(crate) struct PartsOpen;

impl ListForm for PartsOpen {
    type Element = OpenParts;

    ghost reader = { λ form before. next_parts_after before };

    ghost spelling = { λ form parts. parts_bytes parts };

    ghost CanPrecede = { λ form parts. parts.origin.server ≤ 32 };

    ghost CanPut = { λ form parts. length parts.bytes < 2 ^ 32 };

    fn take_next(
        &self,
        alloc: Global,
        from: &mut Cutter,
        before: Option<&OpenParts>,
    ) -> Result<OpenParts, Unread> {
        take_parts(alloc, from, before)
    }

    fn put_next(&self, to: &mut Packer, parts: &OpenParts) -> Result<(), Memory> {
        put_inc(to, parts.origin)?;
        to.put_u32(parts.count)?;
        to.put_u32(parts.held)?;
        put_counted(to, parts.bytes.as_slice())
    }
}

#[tactic(auto, unfolding(crate::specs::Gives::next_parts_after))]
fn take_parts(
    alloc: Global,
    from: &mut Cutter,
    before: Option<&OpenParts>,
) -> Result<OpenParts, Unread>
    requires { IfSome (option_copied before) (λ b. b.origin.server ≤ 32) }
    ensures ok { IfOk result (λ parts. Takes (next_parts_after (option_copied before.entry)) from.old parts from.new) }
    ensures range { IfOk result (λ parts. parts.origin.server ≤ 32) }
    ensures misfit { IfErr result (λ e. Breaks (next_parts_after (option_copied before.entry)) from.old e) }
{
    let origin = take_inc_after(from, inc_of_parts(before))?;
    let count = from.take_u32_in(2, MOST_PARTS)?;
    let held = from.take_u32_in(1, count - 1)?;
    let bytes = take_counted(alloc, from, PART_SIZE * held, PART_SIZE * held)?;
    Ok(OpenParts {
        origin,
        count,
        held,
        bytes,
    })
}

fn inc_of_parts(before: Option<&OpenParts>) -> Option<Inc>
    ensures { result ≡ inc_of_parts_of (option_copied before.entry) }
{
    match before {
        None => None,
        Some(parts) => Some(parts.origin),
    }
}
