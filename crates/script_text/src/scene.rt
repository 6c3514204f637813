// A line of a scenario.
use gr_ids::SessionId;
use group_rules::{Operator, Request, Step};

/// What a line of a scenario says.
#[derive(Debug, Drop)]
pub enum SceneStep {
    Comment,
    /// A `server` or `found` line.
    Step(Step),
    /// A session is opened at a server's member, a thread of its own.
    Session(SessionId, u8),
    /// A session makes a call.
    Call(SessionId, Request),
    /// A session makes an operator's action.
    Operate(SessionId, Operator),
}

/// A line with its number, from 1, and what it says.
#[derive(Debug, Drop)]
pub struct Scene {
    pub number: u64,
    pub what: SceneStep,
}
