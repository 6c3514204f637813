//! Certified transactions of other origins, which workers apply in any order and which are committed in order of place.
#![tactic(auto)]

mod entry;
mod fault;
mod laws;
mod mark;
mod queue;
mod scan;
mod work;

pub use fault::QueueFault;
pub use laws::{
    commits_take_the_first, fronts_are_those_of_the_rules, pushes_are_those_of_the_rules,
    queues_are_those_of_the_rules, results_are_those_of_the_rules,
};
pub use queue::Queue;
pub use work::{Work, WorkDone};
