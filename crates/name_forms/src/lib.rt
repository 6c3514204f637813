//! Names as bytes: incarnations, ballots, identities of values, GTIDs. Each call takes constant time, and an error
//! changes nothing.
#![tactic(auto)]

mod laws;
mod packing;
mod taking;

pub use laws::bytes_of_names;
pub use packing::{put_ballot, put_gtid, put_id, put_inc};
pub use taking::{take_ballot, take_gtid, take_id, take_inc, take_inc_after};
