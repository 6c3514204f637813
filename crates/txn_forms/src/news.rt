// Changes of the mode, and parts, as bytes.
ghost use Rattle.std.specs.Prelude.{◌≡◌, ◌==◌, ◌++◌, if◌then◌else◌, IfErr, IfOk, OnErr, OnOk};
ghost use Rattle.byte_forms.specs.Cuts.{FaultsAt, Takes};
ghost use Rattle.byte_forms.specs.Packs.{Keeps};
ghost use Rattle.byte_forms.specs.Unreads.{Breaks};
ghost use Rattle.name_forms.specs.OpenParts.{part_size};
ghost use Rattle.txn_forms.specs.Bodies.{IsPart, mode_bytes, next_mode, next_part, part_bytes};

use crate::body::{ModeChange, Part};
use byte_forms::{Cutter, Misfit, Packer, Unread, put_counted, take_counted};
use gr_ids::Memory;
use name_forms::{put_inc, take_inc};
use std::alloc::Global;

// The bytes that a part carries that isn't the last one.
const PART_SIZE: u32 = 65_523;

// The greatest number of parts of a transaction.
const MOST_PARTS: u32 = 257;

#[tactic(auto, unfolding(crate::specs::Bodies::next_mode))]
pub(crate) fn take_mode(from: &mut Cutter) -> Result<ModeChange, Misfit>
    ensures ok { IfOk result (λ mode. Takes next_mode from.old mode from.new) }
    ensures misfit { IfErr result (λ e. FaultsAt next_mode from.old e.at) }
{
    match from.take_u8_in(0, 2)? {
        0 => Ok(ModeChange::Multi),
        1 => Ok(ModeChange::Single(None)),
        _ => Ok(ModeChange::Single(Some(take_inc(from)?))),
    }
}

pub(crate) fn put_mode(to: &mut Packer, mode: ModeChange) -> Result<(), Memory>
    ensures ok { OnOk result (to.new ≡ to.old ++ mode_bytes mode) }
    ensures err { OnErr result (Keeps to.old to.new) }
{
    match mode {
        ModeChange::Multi => to.put_u8(0),
        ModeChange::Single(None) => to.put_u8(1),
        ModeChange::Single(Some(inc)) => {
            to.put_u8(2)?;
            put_inc(to, inc)
        }
    }
}

#[tactic(auto, unfolding(crate::specs::Bodies::next_part))]
pub(crate) fn take_part(alloc: Global, from: &mut Cutter) -> Result<Part, Unread>
    ensures ok { IfOk result (λ part. Takes next_part from.old part from.new) }
    ensures misfit { IfErr result (λ e. Breaks next_part from.old e) }
{
    let index = from.take_u32_in(1, MOST_PARTS)?;
    let count = from.take_u32_in(index.max(2), MOST_PARTS)?;
    let bytes = take_counted(alloc, from, least_size(index, count), PART_SIZE)?;
    Ok(Part {
        index,
        count,
        bytes,
    })
}

// The least number of bytes of this part.
fn least_size(index: u32, count: u32) -> u32
    ensures { result ≡ (if index == count then 1 else part_size) }
{
    if index == count { 1 } else { PART_SIZE }
}

pub(crate) fn put_part(to: &mut Packer, part: &Part) -> Result<(), Memory>
    requires { IsPart part.now }
    ensures ok { OnOk result (to.new ≡ to.old ++ part_bytes part.now) }
    ensures err { OnErr result (Keeps to.old to.new) }
{
    to.put_u32(part.index)?;
    to.put_u32(part.count)?;
    put_counted(to, part.bytes.as_slice())
}
