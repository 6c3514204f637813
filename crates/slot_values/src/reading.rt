// Reading the log on by one value: who is a member then, who ever was one, and who was removed.
ghost use Rattle.std.specs.Prelude.{◌≡◌, ◌+◌, ◌<◌, ◌≤◌, ◌^◌, ◌&&◌, ℕ, List, not, IfOk, filter, OnErr, OnOk, false};
ghost use Rattle.std.specs.List.{prefix_len};
ghost use Rattle.gr_ids.specs.Names.{has_inc, inc_eq, inc_lt};
ghost use Rattle.gr_ids.specs.declared.memory.Memory.{Memory};
ghost use Rattle.gr_ids.specs.declared.names.Inc.{Inc};
ghost use Rattle.slot_values.specs.Log.{Reading, Member, became, counted, has_effect, has_server, incs, is_member, is_next, read, with_inc, with_member, without};
ghost use Rattle.slot_values.specs.Values.{is_noop};

use crate::kept::Kept;
use crate::member::Member;
use crate::value::{Value, What};
use gr_ids::{Inc, Memory, Pos};
use std::alloc::Global;

/// As many members as a group may have (MySQL 8.0 Reference Manual, Group Replication Limitations).
const MOST_MEMBERS: usize = 9;

fn is_before(i: Inc, j: Inc) -> bool
    ensures { result ≡ inc_lt i j }
{
    i < j
}

fn has(incs: &[Inc], inc: Inc) -> bool
    ensures { result ≡ has_inc incs.now inc }
{
    incs.iter().any(|i| *i == inc)
}

fn has_member(members: &[Member], inc: Inc) -> bool
    ensures { result ≡ is_member members.now inc }
{
    members.iter().any(|m| m.inc == inc)
}

fn server_is_taken(members: &[Member], server: u8) -> bool
    ensures { result ≡ has_server members.now server }
{
    members.iter().any(|m| m.inc.server == server)
}

fn is_next_number(members: &[Member], inc: Inc, number: u64) -> bool
    ensures { result ≡ is_next members.now inc number }
{
    members
        .iter()
        .any(|m| m.inc == inc && number > 0 && m.last == number - 1)
}

/// Whether the value is kept. Linear in the members.
pub(crate) fn is_kept_now(members: &[Member], value: &Value) -> bool
    ensures { result ≡ (not (is_noop value.now.what) && is_next members.now value.now.id.origin value.now.id.number) }
{
    let is_noop = match value.what {
        What::Noop => true,
        _ => false,
    };
    !is_noop && is_next_number(members, value.id.origin, value.id.number)
}

/// Whether the value, once kept, takes effect. Linear in the members and in those that ever were.
pub(crate) fn takes_effect(members: &[Member], ever: &[Inc], what: &What) -> bool
    ensures { (place : ℕ) (former : List Member) → result ≡ has_effect (record { place = place; members = members.now; ever = ever.now; former = former }) what.now }
{
    match what {
        What::Add(joiner) => {
            members.len() < MOST_MEMBERS
                && !server_is_taken(members, joiner.inc.server)
                && !has(ever, joiner.inc)
        }
        What::Remove(inc) => has_member(members, *inc) && members.len() > 1,
        _ => true,
    }
}

/// The members as a configuration has them.
pub(crate) fn incs_of(alloc: Global, members: &[Member]) -> Result<Vec<Inc>, Memory>
    ensures { IfOk result (λ v. v.items ≡ incs members.now) }
{
    Ok(members.iter().map(|m| m.inc).collect(alloc)?)
}

fn without_member(alloc: Global, members: &[Member], inc: Inc) -> Result<Vec<Member>, Memory>
    ensures { IfOk result (λ v. v.items ≡ without members.now inc) }
{
    Ok(
        members
            .iter()
            .copied()
            .filter(|m| m.inc != inc)
            .collect(alloc)?,
    )
}

fn removed_member(alloc: Global, members: &[Member], inc: Inc) -> Result<Vec<Member>, Memory>
    ensures { IfOk result (λ v. v.items ≡ filter (λ m. inc_eq m.inc inc) members.now) }
{
    Ok(
        members
            .iter()
            .copied()
            .filter(|m| m.inc == inc)
            .collect(alloc)?,
    )
}

fn counted_members(
    alloc: Global,
    members: &[Member],
    inc: Inc,
    number: u64,
) -> Result<Vec<Member>, Memory>
    ensures { IfOk result (λ v. v.items ≡ counted members.now inc number) }
{
    Ok(
        members
            .iter()
            .map(|m| Member {
                inc: m.inc,
                last: if m.inc == inc { number } else { m.last },
            })
            .collect(alloc)?,
    )
}

// The first place whose member isn't before the incarnation.
fn member_place(members: &[Member], inc: Inc) -> usize
    ensures { result ≡ prefix_len (λ m. not (inc_lt inc m.inc)) members.now }
{
    for (k, m) in members.iter().enumerate() {
        if is_before(inc, m.inc) {
            return k;
        }
    }
    members.len()
}

fn add_member(members: &mut Vec<Member>, inc: Inc) -> Result<(), Memory>
    ensures ok { OnOk result (members.new.items ≡ with_member members.old.items inc) }
    ensures err { OnErr result (members.new.items ≡ members.old.items) }
{
    let at = member_place(members, inc);
    members.insert(at, Member { inc, last: 0 })?;
    Ok(())
}

// The first place whose incarnation isn't before the given one.
fn inc_place(incs: &[Inc], inc: Inc) -> usize
    ensures { result ≡ prefix_len (λ i. not (inc_lt inc i)) incs.now }
{
    for (k, i) in incs.iter().enumerate() {
        if is_before(inc, *i) {
            return k;
        }
    }
    incs.len()
}

fn add_inc(incs: &mut Vec<Inc>, inc: Inc) -> Result<(), Memory>
    requires { has_inc incs.old.items inc ≡ false }
    ensures ok { OnOk result (incs.new.items ≡ with_inc incs.old.items inc) }
    ensures err { OnErr result (incs.new.items ≡ incs.old.items) }
{
    let at = inc_place(incs, inc);
    incs.insert(at, inc)?;
    Ok(())
}

/// The members after the value is taken. Linear in the members and in those that ever were.
#[tactic(auto, unfolding(crate::specs::Log::read))]
pub(crate) fn members_after(
    alloc: Global,
    members: &[Member],
    ever: &[Inc],
    value: &Value,
) -> Result<Vec<Member>, Memory>
    ensures { (place : ℕ) (former : List Member) → IfOk result (λ v. v.items ≡ (read (record { place = place; members = members.now; ever = ever.now; former = former }) value.now).members) }
{
    if !is_kept_now(members, value) {
        return Ok(members.to_vec(alloc)?);
    }
    let mut next = counted_members(alloc, members, value.id.origin, value.id.number)?;
    if !takes_effect(members, ever, &value.what) {
        return Ok(next);
    }
    match &value.what {
        What::Add(joiner) => {
            add_member(&mut next, joiner.inc)?;
            Ok(next)
        }
        What::Remove(inc) => without_member(alloc, &next, *inc),
        _ => Ok(next),
    }
}

/// The number of kept values after the value is taken. Linear in the members.
#[tactic(auto, unfolding(crate::specs::Log::read))]
pub(crate) fn place_after(place: u64, members: &[Member], value: &Value) -> u64
    requires { place < 2 ^ 42 }
    ensures place { (ever : List Inc) (former : List Member) → result ≡ (read (record { place = place; members = members.now; ever = ever; former = former }) value.now).place }
    ensures most { result ≤ place + 1 }
{
    if is_kept_now(members, value) {
        place + 1
    } else {
        place
    }
}

/// What the value becomes. Linear in the members and in those that ever were.
pub(crate) fn kept_as(place: u64, members: &[Member], ever: &[Inc], value: &Value) -> Kept
    requires { place < 2 ^ 42 }
    ensures { (former : List Member) → result ≡ became (record { place = place; members = members.now; ever = ever.now; former = former }) value.now }
{
    if is_kept_now(members, value) {
        Kept::At(Pos(place + 1), takes_effect(members, ever, &value.what))
    } else {
        Kept::Skipped
    }
}

/// Puts the one that the value adds among those that ever were members, or the one that it removes before those that
/// were removed. Linear in these and in the members.
#[tactic(auto, unfolding(crate::specs::Log::read))]
pub(crate) fn remember(
    alloc: Global,
    members: &[Member],
    ever: &mut Vec<Inc>,
    former: &mut Vec<Member>,
    value: &Value,
) -> Result<(), Memory>
    ensures ever { (place : ℕ) → OnOk result (ever.new.items ≡ (read (record { place = place; members = members.now; ever = ever.old.items; former = former.old.items }) value.now).ever) }
    ensures former { (place : ℕ) → OnOk result (former.new.items ≡ (read (record { place = place; members = members.now; ever = ever.old.items; former = former.old.items }) value.now).former) }
    ensures err { OnErr result ((ever.new.items ≡ ever.old.items) × (former.new.items ≡ former.old.items)) }
{
    if !is_kept_now(members, value) || !takes_effect(members, ever, &value.what) {
        return Ok(());
    }
    match &value.what {
        What::Add(joiner) => add_inc(ever, joiner.inc),
        What::Remove(inc) => {
            let counted = counted_members(alloc, members, value.id.origin, value.id.number)?;
            let mut next = removed_member(alloc, &counted, *inc)?;
            next.extend_from_slice(former)?;
            *former = next;
            Ok(())
        }
        _ => Ok(()),
    }
}
