// The texts of entries.
ghost use Rattle.std.specs.Prelude.{◌≡◌, ◌++◌, OnOk, Some, codes};
ghost use Rattle.txn_forms.specs.Bodies.{read_body};
ghost use Rattle.group_rules.specs.Texts.{decimal, void_text, body_text, what_text, effect_text};

use crate::worded::{put_gtid_after, put_inc_after, put_number_after, put_set_after};
use gr_ids::{Blob, Memory};
use group_rules::Effect;
use slot_values::What;
use std::alloc::Global;
use txn_forms::{Body, BodyFault, ModeChange, decode};

/// What marks an entry without effect.
fn void_mark(effect: &Effect) -> &'static [u8]
    ensures { result.now ≡ void_text effect.now }
{
    match effect {
        Effect::Void => b" void",
        _ => b"",
    }
}

/// A body; of a transaction the word alone.
fn put_body(alloc: Global, to: &mut Blob, body: &Body) -> Result<(), Memory>
    ensures { OnOk result (to.new ≡ to.old ++ body_text (Some body.now)) }
{
    match body {
        Body::Txn(_) => to.append(b"txn"),
        Body::Prepared(gtid) => put_gtid_after(to, b"prepared ", *gtid),
        Body::Sync => to.append(b"sync"),
        Body::Executed(set) => put_set_after(alloc, to, b"executed ", set),
        Body::Online(set) => put_set_after(alloc, to, b"online ", set),
        Body::Mode(ModeChange::Multi) => to.append(b"mode multi"),
        Body::Mode(ModeChange::Single(_)) => to.append(b"mode single"),
        Body::Primary(inc) => put_inc_after(to, b"primary ", *inc),
        Body::Part(part) => put_part(to, part.index, part.count),
    }
}

fn put_part(to: &mut Blob, index: u32, count: u32) -> Result<(), Memory>
    ensures { OnOk result (to.new ≡ to.old ++ (codes "part " ++ decimal index ++ codes " of " ++ decimal count)) }
{
    put_number_after(to, b"part ", index as u64)?;
    put_number_after(to, b" of ", count as u64)
}

/// The body that these bytes spell.
fn put_spelt_body(alloc: Global, to: &mut Blob, bytes: &[u8]) -> Result<(), Memory>
    ensures { OnOk result (to.new ≡ to.old ++ body_text (read_body bytes.now)) }
{
    match decode(alloc, bytes) {
        Ok(body) => put_body(alloc, to, &body),
        Err(BodyFault::Memory) => Err(Memory),
        Err(_) => to.append(b"unread"),
    }
}

/// What a value says.
fn put_what(alloc: Global, to: &mut Blob, what: &What) -> Result<(), Memory>
    ensures { OnOk result (to.new ≡ to.old ++ what_text what.now) }
{
    match what {
        What::Noop => Ok(()),
        What::Add(joiner) => put_inc_after(to, b"add ", joiner.inc),
        What::Remove(inc) => put_inc_after(to, b"remove ", *inc),
        What::Body(bytes) => put_spelt_body(alloc, to, bytes.as_slice()),
    }
}

/// An entry: what its value says and does.
pub fn put_effect(alloc: Global, to: &mut Blob, what: &What, effect: &Effect) -> Result<(), Memory>
    ensures { OnOk result (to.new ≡ to.old ++ effect_text what.now effect.now) }
{
    match effect {
        Effect::Positive(gtid) => put_gtid_after(to, b"txn positive ", *gtid),
        Effect::Conflict(gtid) => put_gtid_after(to, b"txn conflict ", *gtid),
        _ => {
            put_what(alloc, to, what)?;
            to.append(void_mark(effect))
        }
    }
}
