//! What a slot decides: values, the rule by which they are kept, and the configurations behind the horizon.
#![tactic(auto)]

mod copies;
mod kept;
mod laws;
mod member;
mod reading;
mod spelling;
mod turns;
mod turns_at;
mod value;

pub use kept::Kept;
pub use laws::bytes_of_values;
pub use member::Member;
pub use spelling::{
    put_joiner, put_value, put_vote, take_joiner_after, take_value, take_vote_after,
};
pub use turns::Turns;
pub use turns_at::TurnsAt;
pub use value::{Joiner, Value, Vote, What};
