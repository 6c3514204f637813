// What a member counts of the others.
use gr_ids::Inc;

/// A member, and how many own ticks passed since it was heard.
#[derive(Clone, Copy, Debug, PartialEq, Eq)]
pub struct Silence {
    pub inc: Inc,
    pub ticks: u64,
}
