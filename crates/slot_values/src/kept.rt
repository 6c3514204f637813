// What a decided value becomes.
use gr_ids::Pos;

/// What the value of a slot becomes when the slot is taken.
#[derive(Clone, Copy, Debug, PartialEq, Eq)]
pub enum Kept {
    /// It is kept at this place. An Add or a Remove takes effect where the flag is true; it is true for any other value.
    At(Pos, bool),
    /// It is skipped: its origin is no member, its number isn't the next one, or it is a Noop.
    Skipped,
}
