// The steps of a script.
use crate::requests::{Operator, Request};
use gr_ids::{Blob, Mode, Pos, Sequence, SessionId};
use key_items::{Change, Item};

/// What one line of a script does. `server` is a server's number, 1 to 32.
#[derive(Debug, Drop)]
pub enum Step {
    /// Declares a server.
    Server {
        number: u8,
        uuid: [u8; 16],
        version: [u64; 3],
        weight: u8,
    },
    /// Sets how many consecutive GTID numbers an origin draws at a time.
    Block {
        size: u32,
    },
    /// Founds the group, with the first start of each of these servers.
    Found {
        group: [u8; 16],
        mode: Mode,
        horizon: u16,
        expel: u32,
        majority: u32,
        servers: Sequence<u8>,
    },
    /// A session call.
    Session {
        server: u8,
        session: SessionId,
        what: Request,
    },
    /// A whole transaction of one change, in a session of its own.
    Once {
        server: u8,
        session: SessionId,
        change: Change,
    },
    /// An operator's action.
    Operate {
        server: u8,
        what: Operator,
    },
    /// The k-th message sent is taken by its addressee.
    Deliver {
        k: u64,
    },
    /// The k-th message sent is lost.
    Lose {
        k: u64,
    },
    /// Messages between these servers are delivered until there is none; between all where none is named.
    Settle {
        servers: Sequence<u8>,
    },
    /// A worker does this place, or the least one that waits.
    Work {
        server: u8,
        place: Option<Pos>,
    },
    /// All messages are delivered and all places worked.
    Drain,
    Tick {
        server: u8,
        count: u32,
    },
    /// Starts the server's next incarnation, which joins by the running incarnation of the server `via`.
    Start {
        server: u8,
        via: u8,
    },
    Stop {
        server: u8,
    },
    /// Writes a row at a server that doesn't run.
    Offline {
        server: u8,
        item: Item,
        value: Blob,
    },
    ShowMembers {
        server: u8,
    },
    ShowSlots {
        server: u8,
    },
    ShowConfig {
        server: u8,
        slot: u64,
    },
    ShowGtids {
        server: u8,
    },
    ShowRows {
        server: u8,
    },
    ShowQueue {
        server: u8,
    },
    ShowCertifier {
        server: u8,
    },
    ShowKept {
        server: u8,
    },
    ShowWire,
    /// Ends the work of a member's threads. No line of a script says it.
    Finish {
        server: u8,
    },
}
