// Changes as bytes.
ghost use Rattle.std.specs.Prelude.{◌≡◌, ◌≤◌, ◌<◌, ◌^◌, ◌++◌, length, IfErr, IfOk, OnErr, OnOk};
ghost use Rattle.byte_forms.specs.Cuts.{FaultsAt, Takes};
ghost use Rattle.byte_forms.specs.Packs.{Keeps};
ghost use Rattle.byte_forms.specs.Unreads.{Breaks};
ghost use Rattle.txn_forms.specs.Changes.{IsChange, IsKind, change_bytes, index_of as place_of, kind_bytes, next_change, next_index, next_kind};

use byte_forms::{Cutter, ListForm, Misfit, Packer, Unread, put_counted, take_counted};
use gr_ids::Memory;
use key_items::{Change, ChangeKind, WriteSet};
use std::alloc::Global;

/// The changes of the items of a write set.
#[derive(Drop)]
pub(crate) struct Changes<'a> {
    pub(crate) items: &'a WriteSet,
    ghost few: { length items.now < 2 ^ 32 },
}

impl ListForm for Changes<'_> {
    type Element = Change;

    ghost reader = { λ form before. next_change form.items.now };

    ghost spelling = { λ form change. change_bytes form.items.now change };

    ghost CanPrecede = { λ form change. Unit {0} };

    ghost CanPut = { λ form change. IsChange form.items.now change };

    fn take_next(
        &self,
        alloc: Global,
        from: &mut Cutter,
        _before: Option<&Change>,
    ) -> Result<Change, Unread> {
        take_change(alloc, from, self.items)
    }

    fn put_next(&self, to: &mut Packer, change: &Change) -> Result<(), Memory> {
        put_change(to, change, self.items)
    }
}

// A change of one of the items.
fn take_change(alloc: Global, from: &mut Cutter, items: &WriteSet) -> Result<Change, Unread>
    requires { length items.now < 2 ^ 32 }
    ensures ok { IfOk result (λ change. Takes (next_change items.now) from.old change from.new) }
    ensures misfit { IfErr result (λ e. Breaks (next_change items.now) from.old e) }
{
    let index = take_index(from, items.len() as u32)?;
    let what = take_kind(alloc, from)?;
    let item = match items.at(index) {
        Some(item) => item.try_copy(alloc)?,
        None => return Err(Unread::Misfit { at: from.at() }),
    };
    Ok(Change { item, what })
}

// An index below the count.
fn take_index(from: &mut Cutter, count: u32) -> Result<u32, Misfit>
    ensures ok { IfOk result (λ n. Takes (next_index count) from.old n from.new) }
    ensures misfit { IfErr result (λ e. FaultsAt (next_index count) from.old e.at) }
    ensures err { OnErr result (from.new ≡ from.old) }
{
    match count {
        0 => from.take_u32_in(1, 0),
        _ => from.take_u32_in(0, count - 1),
    }
}

// What the change does.
#[tactic(auto, unfolding(crate::specs::Changes::next_kind))]
fn take_kind(alloc: Global, from: &mut Cutter) -> Result<ChangeKind, Unread>
    ensures ok { IfOk result (λ what. Takes next_kind from.old what from.new) }
    ensures misfit { IfErr result (λ e. Breaks next_kind from.old e) }
{
    match from.take_u8_in(1, 3)? {
        1 => Ok(ChangeKind::Insert(take_counted(alloc, from, 0, u32::MAX)?)),
        2 => Ok(ChangeKind::Update(take_counted(alloc, from, 0, u32::MAX)?)),
        _ => Ok(ChangeKind::Delete),
    }
}

fn put_change(to: &mut Packer, change: &Change, items: &WriteSet) -> Result<(), Memory>
    requires few { length items.now < 2 ^ 32 }
    requires is { IsChange items.now change.now }
    ensures ok { OnOk result (to.new ≡ to.old ++ change_bytes items.now change.now) }
    ensures err { OnErr result (Keeps to.old to.new) }
{
    to.put_u32(index_of(items, change) as u32)?;
    put_kind(to, &change.what)
}

// The index of the change's item.
fn index_of(items: &WriteSet, change: &Change) -> usize
    requires { IsChange items.now change.now }
    ensures is { result ≡ place_of change.now.item items.now }
    ensures below { result < length items.now }
{
    match items.position(&change.item) {
        Some(at) => at,
        None => unreachable!(),
    }
}

fn put_kind(to: &mut Packer, what: &ChangeKind) -> Result<(), Memory>
    requires { IsKind what.now }
    ensures ok { OnOk result (to.new ≡ to.old ++ kind_bytes what.now) }
    ensures err { OnErr result (Keeps to.old to.new) }
{
    match what {
        ChangeKind::Insert(row) => {
            to.put_u8(1)?;
            put_counted(to, row.as_slice())
        }
        ChangeKind::Update(row) => {
            to.put_u8(2)?;
            put_counted(to, row.as_slice())
        }
        ChangeKind::Delete => to.put_u8(3),
    }
}
