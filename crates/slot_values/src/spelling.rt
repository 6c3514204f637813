// Joiners, values and votes as bytes.
ghost use Rattle.std.specs.Prelude.{◌≡◌, ◌≤◌, ◌<◌, ◌^◌, ◌++◌, IfErr, IfOk, IfSome, OnErr, OnOk, option_copied};
ghost use Rattle.byte_forms.specs.Cuts.{FaultsAt, Takes};
ghost use Rattle.byte_forms.specs.Packs.{Keeps};
ghost use Rattle.byte_forms.specs.Unreads.{Breaks};
ghost use Rattle.slot_values.specs.Joiners.{joiner_bytes, next_joiner, next_joiner_after};
ghost use Rattle.slot_values.specs.Slots.{last_slot};
ghost use Rattle.slot_values.specs.Spelling.{IsWhat, least_kind as least_kind_of, least_slot as least_slot_of, next_value, next_vote_after, next_what, value_bytes, vote_bytes, what_bytes};

use crate::value::{Joiner, Value, Vote, What};
use byte_forms::{Cutter, Misfit, Packer, Unread, put_counted, take_counted};
use gr_ids::{Inc, Memory};
use name_forms::{put_ballot, put_id, put_inc, take_ballot, take_id, take_inc, take_inc_after};
use std::alloc::Global;

// The greatest slot: 2^42.
const LAST_SLOT: u64 = 1 << 42;

// The greatest weight.
const MOST_WEIGHT: u8 = 100;

/// Takes a joiner whose incarnation is above the one before it, if there is one. Takes constant time; a refusal changes nothing.
#[tactic(auto, unfolding(crate::specs::Joiners::next_joiner_after))]
pub fn take_joiner_after(from: &mut Cutter, before: Option<Inc>) -> Result<Joiner, Misfit>
    requires { IfSome before (λ b. b.server ≤ 32) }
    ensures ok { IfOk result (λ joiner. Takes (next_joiner_after before) from.old joiner from.new) }
    ensures range { IfOk result (λ joiner. joiner.inc.server ≤ 32) }
    ensures misfit { IfErr result (λ e. FaultsAt (next_joiner_after before) from.old e.at) }
    ensures err { OnErr result (from.new ≡ from.old) }
{
    let mut ahead = from.fork();
    let inc = take_inc_after(&mut ahead, before)?;
    let mut uuid = [0u8; 16];
    let source = ahead.take_slice(16)?;
    uuid.copy_from_slice(source);
    let major = ahead.take_u64_in(0, u64::MAX)?;
    let minor = ahead.take_u64_in(0, u64::MAX)?;
    let patch = ahead.take_u64_in(0, u64::MAX)?;
    let weight = ahead.take_u8_in(0, MOST_WEIGHT)?;
    *from = ahead;
    Ok(Joiner {
        inc,
        uuid,
        version: [major, minor, patch],
        weight,
    })
}

/// Puts a joiner. Takes constant time; changes nothing where memory is refused.
pub fn put_joiner(to: &mut Packer, joiner: &Joiner) -> Result<(), Memory>
    ensures ok { OnOk result (to.new ≡ to.old ++ joiner_bytes joiner.now) }
    ensures err { OnErr result (to.new ≡ to.old) }
{
    let len = to.len();
    let put = put_joiner_fields(to, joiner);
    to.settle(len, put)
}

fn put_joiner_fields(to: &mut Packer, joiner: &Joiner) -> Result<(), Memory>
    ensures ok { OnOk result (to.new ≡ to.old ++ joiner_bytes joiner.now) }
    ensures err { OnErr result (Keeps to.old to.new) }
{
    let [major, minor, patch] = joiner.version;
    put_inc(to, joiner.inc)?;
    to.put_slice(&joiner.uuid)?;
    to.put_u64(major)?;
    to.put_u64(minor)?;
    to.put_u64(patch)?;
    to.put_u8(joiner.weight)
}

/// Takes a value. Linear in its bytes; an error changes nothing.
#[tactic(auto, unfolding(crate::specs::Spelling::next_value))]
pub fn take_value(alloc: Global, from: &mut Cutter) -> Result<Value, Unread>
    ensures ok { IfOk result (λ value. Takes next_value from.old value from.new) }
    ensures misfit { IfErr result (λ e. Breaks next_value from.old e) }
    ensures err { OnErr result (from.new ≡ from.old) }
{
    let mut ahead = from.fork();
    let id = take_id(&mut ahead)?;
    let what = take_what(alloc, &mut ahead, id.number)?;
    *from = ahead;
    Ok(Value { id, what })
}

// What a value with this number says.
#[tactic(auto, unfolding(crate::specs::Spelling::next_what))]
fn take_what(alloc: Global, from: &mut Cutter, number: u64) -> Result<What, Unread>
    ensures ok { IfOk result (λ what. Takes (next_what number) from.old what from.new) }
    ensures misfit { IfErr result (λ e. Breaks (next_what number) from.old e) }
{
    match from.take_u8_in(least_kind(number), 3)? {
        0 => Ok(What::Noop),
        1 => Ok(What::Add(take_joiner_after(from, None)?)),
        2 => Ok(What::Remove(take_inc(from)?)),
        _ => Ok(What::Body(take_counted(alloc, from, 1, u32::MAX)?)),
    }
}

// The least kind: a value of another number than 0 is no Noop.
fn least_kind(number: u64) -> u8
    ensures { result ≡ least_kind_of number }
{
    if number == 0 { 0 } else { 1 }
}

/// Puts a value. Linear in its bytes; changes nothing where memory is refused.
pub fn put_value(to: &mut Packer, value: &Value) -> Result<(), Memory>
    requires { IsWhat value.now.id.number value.now.what }
    ensures ok { OnOk result (to.new ≡ to.old ++ value_bytes value.now) }
    ensures err { OnErr result (to.new ≡ to.old) }
{
    let len = to.len();
    let put = put_value_fields(to, value);
    to.settle(len, put)
}

fn put_value_fields(to: &mut Packer, value: &Value) -> Result<(), Memory>
    requires { IsWhat value.now.id.number value.now.what }
    ensures ok { OnOk result (to.new ≡ to.old ++ value_bytes value.now) }
    ensures err { OnErr result (Keeps to.old to.new) }
{
    put_id(to, value.id)?;
    put_what(to, &value.what, value.id.number)
}

fn put_what(to: &mut Packer, what: &What, number: u64) -> Result<(), Memory>
    requires { IsWhat number what.now }
    ensures ok { OnOk result (to.new ≡ to.old ++ what_bytes what.now) }
    ensures err { OnErr result (Keeps to.old to.new) }
{
    match what {
        What::Noop => to.put_u8(0),
        What::Add(joiner) => {
            to.put_u8(1)?;
            put_joiner(to, joiner)
        }
        What::Remove(inc) => {
            to.put_u8(2)?;
            put_inc(to, *inc)
        }
        What::Body(bytes) => {
            to.put_u8(3)?;
            put_counted(to, bytes.as_slice())
        }
    }
}

/// Takes a vote whose slot is above that of the one before it, if there is one. Linear in its bytes; an error changes nothing.
#[tactic(auto, unfolding(crate::specs::Spelling::next_vote_after))]
pub fn take_vote_after(
    alloc: Global,
    from: &mut Cutter,
    before: Option<&Vote>,
) -> Result<Vote, Unread>
    requires { IfSome (option_copied before) (λ b. b.slot ≤ last_slot) }
    ensures ok { IfOk result (λ vote. Takes (next_vote_after (option_copied before.entry)) from.old vote from.new) }
    ensures range { IfOk result (λ vote. vote.slot ≤ last_slot) }
    ensures misfit { IfErr result (λ e. Breaks (next_vote_after (option_copied before.entry)) from.old e) }
    ensures err { OnErr result (from.new ≡ from.old) }
{
    let mut ahead = from.fork();
    let slot = ahead.take_u64_in(least_slot(before), LAST_SLOT)?;
    let ballot = take_ballot(&mut ahead)?;
    let value = take_value(alloc, &mut ahead)?;
    *from = ahead;
    Ok(Vote {
        slot,
        ballot,
        value,
    })
}

// The least slot behind the one before.
fn least_slot(before: Option<&Vote>) -> u64
    requires { IfSome (option_copied before) (λ b. b.slot ≤ last_slot) }
    ensures { result ≡ least_slot_of (option_copied before.entry) }
{
    match before {
        None => 1,
        Some(vote) => vote.slot + 1,
    }
}

/// Puts a vote. Linear in its bytes; changes nothing where memory is refused.
pub fn put_vote(to: &mut Packer, vote: &Vote) -> Result<(), Memory>
    requires { IsWhat vote.now.value.id.number vote.now.value.what }
    ensures ok { OnOk result (to.new ≡ to.old ++ vote_bytes vote.now) }
    ensures err { OnErr result (to.new ≡ to.old) }
{
    let len = to.len();
    let put = put_vote_fields(to, vote);
    to.settle(len, put)
}

fn put_vote_fields(to: &mut Packer, vote: &Vote) -> Result<(), Memory>
    requires { IsWhat vote.now.value.id.number vote.now.value.what }
    ensures ok { OnOk result (to.new ≡ to.old ++ vote_bytes vote.now) }
    ensures err { OnErr result (Keeps to.old to.new) }
{
    to.put_u64(vote.slot)?;
    put_ballot(to, vote.ballot)?;
    put_value(to, &vote.value)
}
