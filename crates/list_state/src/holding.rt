// What a place with a value holds, by the parts that its origin has open.
ghost use Rattle.std.specs.Prelude.{◌≡◌, IfOk, OnOk, is_some, true};
ghost use Rattle.name_forms.specs.Incs.{IsInc};
ghost use Rattle.txn_forms.specs.Bodies.{IsPart, read_body};
ghost use Rattle.txn_forms.specs.Parts.{after_part, joined, parts_of, with_parts};
ghost use Rattle.group_rules.specs.Parts.{held, held_body, held_part, open_after};
ghost use Rattle.list_state.specs.Holding.{Shows};
ghost use Rattle.gr_ids.specs.declared.memory.Memory.{Memory};

use crate::held::Held;
use gr_ids::{Blob, Inc, Memory};
use slot_values::{Value, What};
use std::alloc::Global;
use txn_forms::{Body, BodyFault, Joined, Part, Parts, decode};

/// What the next place holds, with this value. A body is decoded here, once; the last part of a transaction holds the whole of it.
pub(crate) fn hold(alloc: Global, parts: &mut Parts, value: &Value) -> Result<Held, Memory>
    requires { IsInc value.now.id.origin }
    ensures held { IfOk result (λ h. Shows (parts_of parts.old value.now.id.origin) (held (parts_of parts.old value.now.id.origin) value.now.what) h) }
    ensures parts { OnOk result (parts.new ≡ with_parts parts.old value.now.id.origin
        (open_after value.now.id.origin (held (parts_of parts.old value.now.id.origin) value.now.what) (parts_of parts.old value.now.id.origin))) }
{
    match &value.what {
        What::Body(bytes) => hold_body(alloc, parts, value.id.origin, bytes),
        _ => {
            parts.left(value.id.origin);
            Ok(Held::Nothing)
        }
    }
}

fn hold_body(alloc: Global, parts: &mut Parts, origin: Inc, bytes: &Blob) -> Result<Held, Memory>
    requires { IsInc origin }
    ensures held { IfOk result (λ h. Shows (parts_of parts.old origin) (held_body (parts_of parts.old origin) (read_body bytes.now)) h) }
    ensures parts { OnOk result (parts.new ≡ with_parts parts.old origin
        (open_after origin (held_body (parts_of parts.old origin) (read_body bytes.now)) (parts_of parts.old origin))) }
{
    match decode(alloc, bytes.as_slice()) {
        Ok(Body::Part(part)) => hold_part(alloc, parts, origin, part),
        Ok(Body::Txn(txn)) => {
            let bytes = bytes.try_copy(alloc)?;
            parts.left(origin);
            Ok(Held::Txn(txn, bytes))
        }
        Ok(body) => {
            parts.left(origin);
            Ok(Held::Other(body))
        }
        Err(BodyFault::BadBody { .. }) => {
            parts.left(origin);
            Ok(Held::Nothing)
        }
        Err(BodyFault::Memory) => Err(Memory),
    }
}

fn hold_part(alloc: Global, parts: &mut Parts, origin: Inc, part: Part) -> Result<Held, Memory>
    requires origin { IsInc origin }
    requires part { IsPart part }
    ensures held { IfOk result (λ h. Shows (parts_of parts.old origin) (held_part (parts_of parts.old origin) part) h) }
    ensures parts { OnOk result (parts.new ≡ with_parts parts.old origin (after_part origin (parts_of parts.old origin) part)) }
{
    match parts.take(alloc, origin, part)? {
        Joined::Open => Ok(Held::Part(false)),
        Joined::Void => Ok(Held::Part(true)),
        Joined::Whole(bytes) => hold_whole(alloc, bytes),
    }
}

// The transaction that joined parts spell.
fn hold_whole(alloc: Global, bytes: Blob) -> Result<Held, Memory>
    requires { is_some (joined bytes) ≡ true }
    ensures { IfOk result (λ h. Shows None (joined bytes) h) }
{
    match decode(alloc, bytes.as_slice()) {
        Ok(Body::Txn(txn)) => Ok(Held::Txn(txn, bytes)),
        Ok(_) => unreachable!(),
        Err(BodyFault::BadBody { .. }) => unreachable!(),
        Err(BodyFault::Memory) => Err(Memory),
    }
}
