// The members that a Welcome names, as bytes.
ghost use Rattle.std.specs.Prelude.{◌≡◌, ◌≤◌, ◌++◌, IfErr, IfOk, IfSome, OnErr, OnOk, option_copied};
ghost use Rattle.byte_forms.specs.Cuts.{FaultsAt, Takes};
ghost use Rattle.byte_forms.specs.Packs.{Keeps};
ghost use Rattle.byte_forms.specs.Unreads.{Breaks};
ghost use Rattle.paxos_forms.specs.Welcomes.{inc_before as inc_before_of, member_bytes, next_member_after, next_state, state_number as state_number_of};

use crate::welcome::WelcomeMember;
use byte_forms::{Cutter, ListForm, Misfit, Packer, Unread};
use gr_ids::{Inc, MemberState, Memory};
use slot_values::{put_joiner, take_joiner_after};
use std::alloc::Global;

/// Members, each incarnation above the one before it, whose last kept numbers are at most the place.
#[derive(Drop)]
pub(crate) struct Members {
    pub(crate) place: u64,
}

impl ListForm for Members {
    type Element = WelcomeMember;

    ghost reader = { λ form before. next_member_after form.place before };

    ghost spelling = { λ form member. member_bytes member };

    ghost CanPrecede = { λ form member. member.joiner.inc.server ≤ 32 };

    ghost CanPut = { λ form member. Unit {0} };

    fn take_next(
        &self,
        _alloc: Global,
        from: &mut Cutter,
        before: Option<&WelcomeMember>,
    ) -> Result<WelcomeMember, Unread> {
        Ok(take_member(from, self.place, before)?)
    }

    fn put_next(&self, to: &mut Packer, member: &WelcomeMember) -> Result<(), Memory> {
        put_joiner(to, &member.joiner)?;
        to.put_u8(state_number(member.state))?;
        to.put_u64(member.last)
    }
}

#[tactic(auto, unfolding(crate::specs::Welcomes::next_member_after))]
fn take_member(
    from: &mut Cutter,
    place: u64,
    before: Option<&WelcomeMember>,
) -> Result<WelcomeMember, Misfit>
    requires { IfSome (option_copied before) (λ b. b.joiner.inc.server ≤ 32) }
    ensures ok { IfOk result (λ member. Takes (next_member_after place (option_copied before.entry)) from.old member from.new) }
    ensures range { IfOk result (λ member. member.joiner.inc.server ≤ 32) }
    ensures misfit { IfErr result (λ e. FaultsAt (next_member_after place (option_copied before.entry)) from.old e.at) }
{
    let joiner = take_joiner_after(from, inc_before(before))?;
    let state = take_state(from)?;
    let last = from.take_u64_in(0, place)?;
    Ok(WelcomeMember {
        joiner,
        state,
        last,
    })
}

// The incarnation of the member before.
fn inc_before(before: Option<&WelcomeMember>) -> Option<Inc>
    ensures { result ≡ inc_before_of (option_copied before.entry) }
{
    match before {
        None => None,
        Some(member) => Some(member.joiner.inc),
    }
}

#[tactic(auto, unfolding(crate::specs::Welcomes::next_state))]
fn take_state(from: &mut Cutter) -> Result<MemberState, Misfit>
    ensures ok { IfOk result (λ state. Takes next_state from.old state from.new) }
    ensures misfit { IfErr result (λ e. FaultsAt next_state from.old e.at) }
{
    let number = from.take_u8_in(1, 2)?;
    Ok(if number == 1 {
        MemberState::Online
    } else {
        MemberState::Recovering
    })
}

// The byte for a state.
fn state_number(state: MemberState) -> u8
    ensures { result ≡ state_number_of state }
{
    match state {
        MemberState::Online => 1,
        MemberState::Recovering => 2,
        MemberState::Offline | MemberState::Error => 0,
    }
}
