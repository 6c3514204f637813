// Bodies as bytes.
ghost use Rattle.std.specs.Prelude.{◌≡◌, ◌++◌, [], IfErr, IfOk, OnErr, OnOk};
ghost use Rattle.byte_forms.specs.Cuts.{Takes};
ghost use Rattle.byte_forms.specs.Packs.{Keeps};
ghost use Rattle.byte_forms.specs.Reads.{Got, whole};
ghost use Rattle.byte_forms.specs.Unreads.{Breaks};
ghost use Rattle.txn_forms.specs.Bodies.{IsBody, IsHeld, body_bytes, next_body};
ghost use Rattle.txn_forms.specs.Faults.{IsFault};
ghost use Rattle.gr_ids.specs.declared.memory.Memory.{Memory};

use crate::body::Body;
use crate::fault::BodyFault;
use crate::news::{put_mode, put_part, take_mode, take_part};
use crate::txns::{put_txn, take_txn};
use byte_forms::{Cutter, Packer, Unread};
use gr_ids::{Blob, Memory};
use gtid_sets::GtidSet;
use name_forms::{put_gtid, put_inc, take_gtid, take_inc};
use std::alloc::Global;

/// The bytes of a body, which are read as that body again. Linear in them. A set whose counts need more than four
/// bytes has no spelling, and is answered as want of memory; it would take 128 GiB. So a body that has bytes is one that memory holds.
pub fn encode(alloc: Global, body: &Body) -> Result<Blob, Memory>
    requires { IsBody body.now }
    ensures ok { IfOk result (λ blob. blob ≡ body_bytes body.now) }
    ensures held { OnOk result (IsHeld body.now) }
    ensures back { IfOk result (λ blob. whole next_body blob ≡ Got body.now []) }
{
    let mut to = Packer::new(alloc);
    put_body(&mut to, body)?;
    Ok(Blob::from_vec(to.finish()))
}

/// The body that the bytes spell. Refused as `BadBody` at the first byte with which no spelling goes on.
/// Linear in the bytes: what a count says takes no memory before it is there.
pub fn decode(alloc: Global, bytes: &[u8]) -> Result<Body, BodyFault>
    ensures ok { IfOk result (λ body. whole next_body bytes.now ≡ Got body []) }
    ensures spelled { IfOk result (λ body. IsBody body × (bytes.now ≡ body_bytes body)) }
    ensures bad { IfErr result (λ e. IsFault bytes.now e) }
{
    let mut from = Cutter::new(bytes);
    let body = take_body(alloc, &mut from)?;
    from.end()?;
    Ok(body)
}

#[tactic(auto, unfolding(crate::specs::Bodies::next_body))]
fn take_body(alloc: Global, from: &mut Cutter) -> Result<Body, Unread>
    ensures ok { IfOk result (λ body. Takes next_body from.old body from.new) }
    ensures misfit { IfErr result (λ e. Breaks next_body from.old e) }
{
    match from.take_u8_in(1, 8)? {
        1 => Ok(Body::Txn(take_txn(alloc, from)?)),
        2 => Ok(Body::Prepared(take_gtid(from)?)),
        3 => Ok(Body::Sync),
        4 => Ok(Body::Executed(GtidSet::read_bytes(alloc, from)?)),
        5 => Ok(Body::Online(GtidSet::read_bytes(alloc, from)?)),
        6 => Ok(Body::Mode(take_mode(from)?)),
        7 => Ok(Body::Primary(take_inc(from)?)),
        _ => Ok(Body::Part(take_part(alloc, from)?)),
    }
}

fn put_body(to: &mut Packer, body: &Body) -> Result<(), Memory>
    requires { IsBody body.now }
    ensures ok { OnOk result (to.new ≡ to.old ++ body_bytes body.now) }
    ensures held { OnOk result (IsHeld body.now) }
    ensures err { OnErr result (Keeps to.old to.new) }
{
    match body {
        Body::Txn(txn) => {
            to.put_u8(1)?;
            put_txn(to, txn)
        }
        Body::Prepared(gtid) => {
            to.put_u8(2)?;
            put_gtid(to, *gtid)
        }
        Body::Sync => to.put_u8(3),
        Body::Executed(set) => {
            to.put_u8(4)?;
            set.write_bytes(to)
        }
        Body::Online(set) => {
            to.put_u8(5)?;
            set.write_bytes(to)
        }
        Body::Mode(mode) => {
            to.put_u8(6)?;
            put_mode(to, *mode)
        }
        Body::Primary(inc) => {
            to.put_u8(7)?;
            put_inc(to, *inc)
        }
        Body::Part(part) => {
            to.put_u8(8)?;
            put_part(to, part)
        }
    }
}
