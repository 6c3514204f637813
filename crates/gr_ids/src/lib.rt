//! The names of a group: servers and their incarnations, values, places, sessions, GTIDs, ballots, and lists of bytes.
#![tactic(auto)]

mod blob;
mod levels;
mod limits;
mod memory;
mod names;
mod quorum;
mod sequence;
#[cfg(test)]
mod tests;
mod uuids;

pub use blob::Blob;
pub use levels::{Level, MemberState, Mode};
pub use limits::Limits;
pub use memory::Memory;
pub use names::{Ballot, Gtid, Inc, LastNumber, OpenParts, Pos, SessionId, ValueId};
pub use quorum::majority;
pub use sequence::Sequence;
pub use uuids::{BadUuid, read_uuid, uuids_read_back, write_uuid};
