// Names: incarnations, values, places, sessions, GTIDs and ballots.
use crate::blob::Blob;
use std::marker::Model;

/// The `start`-th start of a server: `server` is 1 to 32, `start` counts from 1.
#[derive(Clone, Copy, Debug, PartialEq, Eq, PartialOrd, Ord, Hash)]
pub struct Inc {
    pub server: u8,
    pub start: u32,
}

/// A value's identity: its origin and the origin's own count of values, from 1. A Noop has the number 0.
#[derive(Clone, Copy, Debug, PartialEq, Eq, PartialOrd, Ord, Hash)]
pub struct ValueId {
    pub origin: Inc,
    pub number: u64,
}

/// A position among the kept values of the group's list, from 1. 0 stands before the first.
#[derive(Clone, Copy, Debug, PartialEq, Eq, PartialOrd, Ord, Hash)]
pub struct Pos(pub u64);

impl Model for Pos {
    ghost use Rattle.std.specs.Prelude.{ℕ};

    ghost Value = { ℕ };

    ghost view = { λ p. p.0 };

    ghost inverse = { λ n. record { 0 = n } };
}

/// A session's number, from 1. It is distinct within a member.
#[derive(Clone, Copy, Debug, PartialEq, Eq, PartialOrd, Ord, Hash)]
pub struct SessionId(pub u32);

impl Model for SessionId {
    ghost use Rattle.std.specs.Prelude.{ℕ};

    ghost Value = { ℕ };

    ghost view = { λ s. s.0 };

    ghost inverse = { λ n. record { 0 = n } };
}

/// A global transaction identifier: the UUID of its source and a number from 1 to 2^63-2
/// (MySQL 8.0 Reference Manual, GTID Format and Storage).
#[derive(Clone, Copy, Debug, PartialEq, Eq, PartialOrd, Ord, Hash)]
pub struct Gtid {
    pub source: [u8; 16],
    pub number: u64,
}

/// A ballot of Multi-Paxos: ordered by round, from 1, then by incarnation.
#[derive(Clone, Copy, Debug, PartialEq, Eq, PartialOrd, Ord, Hash)]
pub struct Ballot {
    pub round: u32,
    pub inc: Inc,
}

/// The parts of a large transaction that one origin has sent so far: `held` of `count` parts, with the bytes that they join to.
#[derive(Debug, Drop)]
pub struct OpenParts {
    pub origin: Inc,
    pub count: u32,
    pub held: u32,
    pub bytes: Blob,
}

/// An origin with the number of its last positive transaction.
#[derive(Clone, Copy, Debug, PartialEq, Eq)]
pub struct LastNumber {
    pub inc: Inc,
    pub number: u64,
}
