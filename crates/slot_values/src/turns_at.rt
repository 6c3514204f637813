// What a Welcome tells of the log.
use crate::member::Member;
use gr_ids::{Inc, Pos, Sequence};

/// What a joiner needs of the log to take the slots after one: the state of the kept list, and the configurations behind
/// the horizon.
#[derive(Debug, Drop)]
pub struct TurnsAt {
    /// The last slot taken.
    pub slot: u64,
    /// The number of kept values.
    pub place: Pos,
    /// The members, ascending, each with its last kept number.
    pub last: Sequence<Member>,
    /// Every incarnation that ever was a member, ascending.
    pub ever: Sequence<Inc>,
    /// The members after slots slot-H+1 to slot, H being the horizon. A slot of 0 or below has the founders.
    pub configs: Sequence<Sequence<Inc>>,
}
