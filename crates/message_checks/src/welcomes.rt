// Welcomes within their ranges.
ghost use Rattle.std.specs.Prelude.{◌≡◌, ◌≤◌, ◌↔◌, IsTrue, option_copied};
ghost use Rattle.message_checks.specs.Parts.{HasConfigs, HasEver, HasMembers, HasSlots, HasView, IsListOf};
ghost use Rattle.paxos_forms.specs.Welcomes.{IsMemberAfter, IsPrimary, IsWelcome, inc_before as inc_before_of, state_number};

use crate::chains::{Rule, are_few, is_list};
use crate::incs::{Ascending, are_configs};
use crate::names::{is_ballot, is_inc};
use crate::values::{LAST_SLOT, is_joiner_after};
use gr_ids::{Inc, MemberState, Sequence};
use paxos_forms::{Welcome, WelcomeMember};

// Members, each incarnation above the one before it, whose last kept numbers are at most the place.
#[derive(Drop)]
struct Members {
    place: u64,
}

impl Rule for Members {
    type Element = WelcomeMember;

    ghost IsNext = { λ rule before member. IsMemberAfter rule.place before member };

    fn is_next(&self, before: Option<&WelcomeMember>, member: &WelcomeMember) -> bool {
        is_member_after(self.place, before, member)
    }
}

fn are_members(place: u64, members: &Sequence<WelcomeMember>) -> bool
    ensures { IsTrue result ↔ IsListOf (IsMemberAfter place) members.now }
{
    is_list(&Members { place }, members)
}

fn is_member_after(place: u64, before: Option<&WelcomeMember>, member: &WelcomeMember) -> bool
    ensures { IsTrue result ↔ IsMemberAfter place (option_copied before.entry) member.now }
{
    is_joiner_after(inc_before(before), &member.joiner)
        && is_shown(member.state)
        && member.last <= place
}

// The incarnation of the member before.
fn inc_before(before: Option<&WelcomeMember>) -> Option<Inc>
    ensures { result ≡ inc_before_of (option_copied before.entry) }
{
    match before {
        None => None,
        Some(member) => Some(member.joiner.inc),
    }
}

fn is_shown(state: MemberState) -> bool
    ensures { IsTrue result ↔ (1 ≤ state_number state) }
{
    match state {
        MemberState::Online | MemberState::Recovering => true,
        MemberState::Offline | MemberState::Error => false,
    }
}

fn is_primary(primary: Option<Inc>) -> bool
    ensures { IsTrue result ↔ IsPrimary primary }
{
    match primary {
        None => true,
        Some(inc) => is_inc(inc),
    }
}

/// Whether the place is at most the slot, other places at most the place, and the lists ascend. Linear in it.
#[tactic(auto, using(crate::proofs::Whole::welcome_whole, crate::proofs::Whole::welcome_parts))]
pub fn is_welcome(welcome: &Welcome) -> bool
    ensures { IsTrue result ↔ IsWelcome welcome.now }
{
    has_slots(welcome)
        && has_view(welcome)
        && has_members(welcome)
        && has_ever(welcome)
        && has_configs(welcome)
}

fn has_slots(welcome: &Welcome) -> bool
    ensures { IsTrue result ↔ HasSlots welcome.now }
{
    let (slot, place) = (welcome.slot, welcome.place.0);
    1 <= slot && slot <= LAST_SLOT && 1 <= place && place <= slot
}

fn has_view(welcome: &Welcome) -> bool
    ensures { IsTrue result ↔ HasView welcome.now }
{
    1 <= welcome.number
        && welcome.number - 1 <= welcome.place.0
        && is_ballot(welcome.promise)
        && is_primary(welcome.primary)
        && welcome.elected.0 <= welcome.place.0
}

fn has_members(welcome: &Welcome) -> bool
    ensures { IsTrue result ↔ HasMembers welcome.now }
{
    are_members(welcome.place.0, &welcome.members)
}

fn has_ever(welcome: &Welcome) -> bool
    ensures { IsTrue result ↔ HasEver welcome.now }
{
    is_list(&Ascending, &welcome.ever)
}

fn has_configs(welcome: &Welcome) -> bool
    ensures { IsTrue result ↔ HasConfigs welcome.now }
{
    are_configs(welcome.configs.as_slice()) && are_few(welcome.configs.as_slice())
}
