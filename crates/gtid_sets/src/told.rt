// The sets that members tell.
use crate::set::GtidSet;
use gr_ids::Inc;

/// An incarnation with the last executed set that it told.
#[derive(Debug, Drop)]
pub struct ToldSet {
    pub inc: Inc,
    pub set: GtidSet,
}
