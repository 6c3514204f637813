// A view as a value.
use gr_ids::{Inc, Mode, Pos, Sequence};
use node_rules::Seat;

/// What a joiner is told of the view: the members with their states, by ascending incarnation, and the place at which the present primary
/// became primary, 0 where there is none.
#[derive(Debug, Drop)]
pub struct ViewAt {
    pub number: u64,
    pub mode: Mode,
    pub primary: Option<Inc>,
    pub elected: Pos,
    pub members: Sequence<Seat>,
}
