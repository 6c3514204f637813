// Welcomes as bytes.
ghost use Rattle.std.specs.Prelude.{◌≡◌, ◌++◌, IfErr, IfOk, OnErr, OnOk};
ghost use Rattle.byte_forms.specs.Cuts.{FaultsAt, Takes};
ghost use Rattle.byte_forms.specs.Packs.{Keeps};
ghost use Rattle.byte_forms.specs.Unreads.{Breaks};
ghost use Rattle.paxos_forms.specs.Welcomes.{IsWelcome, mode_number as mode_number_of, next_mode, next_primary, next_welcome, primary_bytes, welcome_bytes};
ghost use Rattle.paxos_forms.specs.WelcomeParts.{lists_bytes, numbers_bytes};

use crate::incs::{Ascending, Configs};
use crate::members::Members;
use crate::welcome::Welcome;
use byte_forms::{Cutter, Misfit, Packer, Unread, put_list, take_list};
use gr_ids::{Inc, Memory, Mode, Pos};
use name_forms::{put_ballot, put_inc, take_ballot, take_inc};
use std::alloc::Global;

// The greatest slot: 2^42.
const LAST_SLOT: u64 = 1 << 42;

#[tactic(auto, unfolding(crate::specs::Welcomes::next_welcome))]
pub(crate) fn take_welcome(alloc: Global, from: &mut Cutter) -> Result<Welcome, Unread>
    ensures ok { IfOk result (λ welcome. Takes next_welcome from.old welcome from.new) }
    ensures misfit { IfErr result (λ e. Breaks next_welcome from.old e) }
{
    let slot = from.take_u64_in(1, LAST_SLOT)?;
    let place = from.take_u64_in(1, slot)?;
    let number = from.take_u64_in(1, place + 1)?;
    let promise = take_ballot(from)?;
    let mode = take_mode(from)?;
    let primary = take_primary(from)?;
    let elected = from.take_u64_in(0, place)?;
    let members = take_list(alloc, from, 0, &Members { place })?;
    let ever = take_list(alloc, from, 0, &Ascending)?;
    let configs = take_list(alloc, from, 0, &Configs)?;
    Ok(Welcome {
        slot,
        place: Pos(place),
        number,
        promise,
        mode,
        primary,
        elected: Pos(elected),
        members,
        ever,
        configs,
    })
}

#[tactic(auto, unfolding(crate::specs::Welcomes::next_mode))]
fn take_mode(from: &mut Cutter) -> Result<Mode, Misfit>
    ensures ok { IfOk result (λ mode. Takes next_mode from.old mode from.new) }
    ensures misfit { IfErr result (λ e. FaultsAt next_mode from.old e.at) }
{
    let number = from.take_u8_in(0, 1)?;
    Ok(if number == 1 {
        Mode::Single
    } else {
        Mode::Multi
    })
}

#[tactic(auto, unfolding(crate::specs::Welcomes::next_primary))]
fn take_primary(from: &mut Cutter) -> Result<Option<Inc>, Misfit>
    ensures ok { IfOk result (λ primary. Takes next_primary from.old primary from.new) }
    ensures misfit { IfErr result (λ e. FaultsAt next_primary from.old e.at) }
{
    match from.take_u8_in(0, 1)? {
        0 => Ok(None),
        _ => Ok(Some(take_inc(from)?)),
    }
}

#[tactic(auto, using(crate::proofs::Parts::welcome_parts))]
pub(crate) fn put_welcome(to: &mut Packer, welcome: &Welcome) -> Result<(), Memory>
    requires { IsWelcome welcome.now }
    ensures ok { OnOk result (to.new ≡ to.old ++ welcome_bytes welcome.now) }
    ensures err { OnErr result (Keeps to.old to.new) }
{
    put_numbers(to, welcome)?;
    put_lists(to, welcome)
}

fn put_numbers(to: &mut Packer, welcome: &Welcome) -> Result<(), Memory>
    ensures ok { OnOk result (to.new ≡ to.old ++ numbers_bytes welcome.now) }
    ensures err { OnErr result (Keeps to.old to.new) }
{
    to.put_u64(welcome.slot)?;
    to.put_u64(welcome.place.0)?;
    to.put_u64(welcome.number)?;
    put_ballot(to, welcome.promise)?;
    to.put_u8(mode_number(welcome.mode))?;
    put_primary(to, welcome.primary)?;
    to.put_u64(welcome.elected.0)
}

fn put_lists(to: &mut Packer, welcome: &Welcome) -> Result<(), Memory>
    requires { IsWelcome welcome.now }
    ensures ok { OnOk result (to.new ≡ to.old ++ lists_bytes welcome.now) }
    ensures err { OnErr result (Keeps to.old to.new) }
{
    let members = Members {
        place: welcome.place.0,
    };
    put_list(to, welcome.members.as_slice(), &members)?;
    put_list(to, welcome.ever.as_slice(), &Ascending)?;
    put_list(to, welcome.configs.as_slice(), &Configs)
}

// The byte for a mode.
fn mode_number(mode: Mode) -> u8
    ensures { result ≡ mode_number_of mode }
{
    match mode {
        Mode::Multi => 0,
        Mode::Single => 1,
    }
}

fn put_primary(to: &mut Packer, primary: Option<Inc>) -> Result<(), Memory>
    ensures ok { OnOk result (to.new ≡ to.old ++ primary_bytes primary) }
    ensures err { OnErr result (Keeps to.old to.new) }
{
    match primary {
        None => to.put_u8(0),
        Some(inc) => {
            to.put_u8(1)?;
            put_inc(to, inc)
        }
    }
}
