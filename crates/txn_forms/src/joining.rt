// Parts that are taken one after another, and joined.
ghost use Rattle.std.specs.Prelude.{◌≡◌, ◌≤◌, ◌<◌, ◌^◌, ◌+◌, ◌++◌, None, Some, IfOk, OnErr, OnOk, length, is_some};
ghost use Rattle.byte_forms.specs.Lists.{IsChain};
ghost use Rattle.gr_ids.specs.declared.memory.Memory.{Memory};
ghost use Rattle.name_forms.specs.Incs.{IsInc};
ghost use Rattle.name_forms.specs.OpenParts.{IsOpenAfter};
ghost use Rattle.txn_forms.specs.Bodies.{IsPart, read_body};
ghost use Rattle.txn_forms.specs.PartPlaces.{parts_before as parts_before_of};
ghost use Rattle.txn_forms.specs.Parts.{after_part, becomes, goes_on as goes_on_of, if_txn, is_large as is_large_of, parts_of, whole_or_void, with_parts};

use crate::body::{Body, Part};
use crate::codec::decode;
use crate::fault::BodyFault;
use crate::joined::Joined;
use crate::places::{has_parts, parts_before};
use gr_ids::{Blob, Inc, Memory, OpenParts};
use std::alloc::Global;
use std::mem;

// The most bytes of a whole body; in parts it has more.
const WHOLE_BYTES: usize = 65_536;

// The most bytes of a body in parts.
const MOST_BYTES: usize = 16_777_216;

/// Takes a kept part of the origin. Linear in its bytes, and logarithmic in the origins; nothing changes where memory
/// is refused.
pub(crate) fn take_part(
    alloc: Global,
    parts: &mut Vec<OpenParts>,
    origin: Inc,
    part: Part,
) -> Result<Joined, Memory>
    requires ascend { IsChain IsOpenAfter None parts.old.items }
    requires origin { IsInc origin }
    requires part { IsPart part }
    ensures joined { IfOk result (λ joined. joined ≡ becomes (parts_of parts.old.items origin) part) }
    ensures left { OnOk result (parts.new.items ≡ with_parts parts.old.items origin (after_part origin (parts_of parts.old.items origin) part)) }
    ensures err { OnErr result (parts.new.items ≡ parts.old.items) }
{
    let at = parts_before(parts, origin);
    if part.index == 1 {
        put_parts(parts, at, first_part(origin, part))?;
        return Ok(Joined::Open);
    }
    if !goes_on(parts, at, origin, &part) {
        end_parts(parts, at, origin);
        return Ok(Joined::Void);
    }
    if part.index < part.count {
        extend(&mut parts[at], &part)?;
        return Ok(Joined::Open);
    }
    let joined = complete(alloc, &mut parts[at], &part)?;
    let _ = parts.remove(at);
    Ok(joined)
}

/// Ends the origin's parts. Moves those behind them; takes no memory.
pub(crate) fn end_parts(parts: &mut Vec<OpenParts>, at: usize, origin: Inc)
    requires { at ≡ parts_before_of parts.old.items origin }
    ensures { parts.new.items ≡ with_parts parts.old.items origin None }
{
    if has_parts(parts, at, origin) {
        let _ = parts.remove(at);
    }
}

// Puts an origin's parts in the place of those that it had.
fn put_parts(parts: &mut Vec<OpenParts>, at: usize, first: OpenParts) -> Result<(), Memory>
    requires { at ≡ parts_before_of parts.old.items first.origin }
    ensures ok { OnOk result (parts.new.items ≡ with_parts parts.old.items first.origin (Some first)) }
    ensures err { OnErr result (parts.new.items ≡ parts.old.items) }
{
    if has_parts(parts, at, first.origin) {
        parts[at] = first;
        return Ok(());
    }
    parts.insert(at, first)?;
    Ok(())
}

fn first_part(origin: Inc, part: Part) -> OpenParts
    ensures { result ≡ record { origin = origin; count = part.count; held = part.index; bytes = part.bytes } }
{
    OpenParts {
        origin,
        count: part.count,
        held: part.index,
        bytes: part.bytes,
    }
}

// Whether the part goes on where those of the origin left off.
fn goes_on(parts: &[OpenParts], at: usize, origin: Inc, part: &Part) -> bool
    requires ascend { IsChain IsOpenAfter None parts.now }
    requires place { at ≡ parts_before_of parts.now origin }
    requires index { 1 ≤ part.now.index }
    ensures { result ≡ goes_on_of (parts_of parts.now origin) part.now }
{
    if !has_parts(parts, at, origin) {
        return false;
    }
    match parts.get(at) {
        Some(held) => follows(held, part),
        None => false,
    }
}

fn follows(held: &OpenParts, part: &Part) -> bool
    requires { 1 ≤ part.now.index }
    ensures { result ≡ goes_on_of (Some held.now) part.now }
{
    held.count == part.count && held.held == part.index - 1
}

// One part more, which isn't the last one.
fn extend(held: &mut OpenParts, part: &Part) -> Result<(), Memory>
    ensures ok { OnOk result (held.new ≡ record held.old { held = part.now.index; bytes = held.old.bytes ++ part.now.bytes }) }
    ensures err { OnErr result (held.new ≡ held.old) }
{
    held.bytes.append(part.bytes.as_slice())?;
    held.held = part.index;
    Ok(())
}

// The last part. Where memory is refused, what is held is as before.
fn complete(alloc: Global, held: &mut OpenParts, part: &Part) -> Result<Joined, Memory>
    requires { length held.old.bytes + length part.now.bytes < 2 ^ 32 }
    ensures ok { IfOk result (λ joined. joined ≡ whole_or_void (held.old.bytes ++ part.now.bytes)) }
    ensures err { OnErr result (held.new ≡ held.old) }
{
    let before = held.bytes.len();
    if !is_large(before + part.bytes.len()) {
        return Ok(Joined::Void);
    }
    held.bytes.append(part.bytes.as_slice())?;
    match spells_txn(alloc, held.bytes.as_slice()) {
        Ok(true) => Ok(Joined::Whole(mem::replace(
            &mut held.bytes,
            Blob::from_vec(Vec::new(alloc)),
        ))),
        Ok(false) => Ok(Joined::Void),
        Err(memory) => {
            held.bytes.truncate(before);
            Err(memory)
        }
    }
}

fn is_large(bytes: usize) -> bool
    ensures { result ≡ is_large_of bytes }
{
    WHOLE_BYTES < bytes && bytes <= MOST_BYTES
}

fn spells_txn(alloc: Global, bytes: &[u8]) -> Result<bool, Memory>
    ensures { IfOk result (λ spells. spells ≡ is_some (if_txn (read_body bytes.now))) }
{
    match decode(alloc, bytes) {
        Ok(Body::Txn(_)) => Ok(true),
        Ok(_) => Ok(false),
        Err(BodyFault::BadBody { .. }) => Ok(false),
        Err(BodyFault::Memory) => Err(Memory),
    }
}
