//! Held begins: what each waits for, and how long.
#![tactic(auto)]

mod calling;
mod conditions;
mod held;
mod laws;
mod placing;
mod waits;

pub use calling::{AtCall, conditions_now};
pub use held::{Released, Standing};
pub use laws::{
    a_fall_ends_all_holds, begins_are_those_of_the_rules, holds_follow_their_history,
    timeouts_are_those_of_the_rules,
};
pub use waits::Waits;
