// Bytes behind their count.
ghost use Rattle.std.specs.Prelude.{◌≡◌, ◌<◌, ◌^◌, ◌++◌, length, IfErr, IfOk, OnErr, OnOk};
ghost use Rattle.byte_forms.specs.Cuts.{Takes};
ghost use Rattle.byte_forms.specs.Lists.{bytes_in, counted};
ghost use Rattle.byte_forms.specs.Packs.{Keeps};
ghost use Rattle.byte_forms.specs.Unreads.{Breaks};

use crate::cutter::Cutter;
use crate::packer::Packer;
use crate::unread::Unread;
use gr_ids::{Blob, Memory};
use std::alloc::Global;

/// Takes bytes, from `low` to `high` of them, behind their count in four bytes. An error changes nothing.
/// Linear in the bytes; no memory is asked for before all of them are there.
pub fn take_counted(alloc: Global, from: &mut Cutter, low: u32, high: u32) -> Result<Blob, Unread>
    ensures ok { IfOk result (λ blob. Takes (bytes_in low high) from.old blob from.new) }
    ensures misfit { IfErr result (λ e. Breaks (bytes_in low high) from.old e) }
    ensures err { OnErr result (from.new ≡ from.old) }
{
    let mut ahead = from.fork();
    let count = ahead.take_u32_in(low, high)?;
    let bytes = ahead.take_slice(count)?;
    let blob = Blob::of(alloc, bytes)?;
    *from = ahead;
    Ok(blob)
}

/// Puts bytes behind their count in four bytes. Linear in the bytes; changes nothing where memory is refused.
pub fn put_counted(to: &mut Packer, bytes: &[u8]) -> Result<(), Memory>
    requires { length bytes.now < 2 ^ 32 }
    ensures ok { OnOk result (to.new ≡ to.old ++ counted bytes.now) }
    ensures err { OnErr result (to.new ≡ to.old) }
{
    let len = to.len();
    let put = put_both(to, bytes);
    to.settle(len, put)
}

fn put_both(to: &mut Packer, bytes: &[u8]) -> Result<(), Memory>
    requires { length bytes.now < 2 ^ 32 }
    ensures ok { OnOk result (to.new ≡ to.old ++ counted bytes.now) }
    ensures err { OnErr result (Keeps to.old to.new) }
{
    to.put_u32(bytes.len() as u32)?;
    to.put_slice(bytes)
}
