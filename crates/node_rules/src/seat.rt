// A member as a view shows it.
use gr_ids::MemberState;
use slot_values::Joiner;

/// A member of the group, and its state there: ONLINE or RECOVERING.
#[derive(Clone, Copy, Debug, PartialEq, Eq)]
pub struct Seat {
    pub joiner: Joiner,
    pub state: MemberState,
}
