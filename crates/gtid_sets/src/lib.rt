//! Sets of global transaction identifiers.
#![tactic(auto)]

mod adding;
mod faults;
mod fits;
mod laws;
mod numerals;
mod packing;
mod parsing;
mod parts;
mod run;
mod scanner;
mod search;
mod set;
mod taking;
mod text;
mod told;
mod union;
mod whole;

pub use faults::{SetFault, TextFault};
pub use laws::{
    bytes_of_sets, members_of_added, members_of_meet, members_of_minus, members_of_subset,
    members_of_union, one_list_of_runs, texts_read_back,
};
pub use run::Run;
pub use set::GtidSet;
pub use told::ToldSet;
