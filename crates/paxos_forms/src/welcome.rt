// What a member tells a joiner when it takes the joiner's Add.
use gr_ids::{Ballot, Inc, MemberState, Mode, Pos, Sequence};
use slot_values::Joiner;

/// A member as a Welcome names it, with its state, ONLINE or RECOVERING, and its last kept number.
#[derive(Clone, Copy, Debug, PartialEq, Eq)]
pub struct WelcomeMember {
    pub joiner: Joiner,
    pub state: MemberState,
    pub last: u64,
}

/// The group as of the slot of a joiner's Add: what the joiner needs to take the slots after it.
#[derive(Debug, Drop)]
pub struct Welcome {
    /// The slot of the Add.
    pub slot: u64,
    /// The place of the Add.
    pub place: Pos,
    /// The view number.
    pub number: u64,
    /// What the sender has promised.
    pub promise: Ballot,
    pub mode: Mode,
    pub primary: Option<Inc>,
    /// The place at which the primary became primary; 0 where it did so at the founding, or there is none.
    pub elected: Pos,
    /// The members, ascending.
    pub members: Sequence<WelcomeMember>,
    /// Every incarnation that ever was a member, ascending.
    pub ever: Sequence<Inc>,
    /// The members after slots slot-H+1 to slot, H being the horizon.
    pub configs: Sequence<Sequence<Inc>>,
}
