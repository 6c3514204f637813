// What an entry was.
use crate::held::Held;
use gr_ids::Pos;
use group_rules::Effect;

/// An entry that was taken: its place, its effect, and what it holds.
#[derive(Debug, Drop)]
pub struct Entered {
    pub place: Pos,
    pub effect: Effect,
    pub held: Held,
}
