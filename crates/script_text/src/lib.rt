//! The grammar of scripts and of scenarios: a line as what it says; and scripts that are made.
//!
//! A line is words, separated by spaces. One without words, or that begins with `#`, is a comment. The lines of a script:
//!
//! | Line | Step |
//! |---|---|
//! | `server N UUID VERSION WEIGHT` | declares a server |
//! | `block SIZE` | sets how many consecutive GTID numbers an origin draws at a time |
//! | `found UUID multi\|single HORIZON EXPEL MAJORITY N...` | founds the group with 1 to 9 distinct servers |
//! | `begin N S LEVEL WAIT`, `get N S TABLE KEY`, `insert N S TABLE KEY VALUE`, `update N S TABLE KEY VALUE` | calls of a session |
//! | `delete N S TABLE KEY`, `commit N S`, `rollback N S` | calls of a session |
//! | `once N insert TABLE KEY VALUE`, `once N update TABLE KEY VALUE`, `once N delete TABLE KEY` | a transaction of one statement |
//! | `deliver K`, `lose K`, `settle`, `settle N...` | what happens to messages |
//! | `work N`, `work N P`, `drain`, `tick N`, `tick N COUNT` | workers and clocks |
//! | `campaign N`, `tell N`, `leave N`, `primary N INC`, `single N`, `single N INC`, `multi N`, `donor N INC`, `nodonor N` | an operator's actions |
//! | `start N VIA`, `stop N`, `offline N TABLE KEY VALUE` | servers |
//! | `show members N`, `show slots N`, `show config N T`, `show gtids N`, `show rows N` | looks |
//! | `show queue N`, `show certifier N`, `show kept N`, `show wire` | looks |
//!
//! `N` and `VIA` are servers, 1 to 32; `S` is a session, 1 to 999,999,999; `K`, `T` and `P` are numbers below 2^64 from 1. `HORIZON` is 10 to 200,
//! `EXPEL` 0 to 3,600, `MAJORITY` 0 to 1,000,000, `SIZE` and `WAIT` 1 to 1,000,000, `COUNT` 1 to 10,000, `WEIGHT` 0 to 100. `INC` is `s.n`, the n-th start
//! of server s. `TABLE` is a lower-case letter and up to 63 lower-case letters, digits or `_`; `KEY` has 1 to 255 and `VALUE` 1 to 60,000 bytes from 0x21
//! to 0x7E. `LEVEL` is `EVENTUAL`, `BEFORE_ON_PRIMARY_FAILOVER`, `BEFORE`, `AFTER` or `BEFORE_AND_AFTER`. `VERSION` is at least 8.0.17. Numbers have no sign
//! and no leading zero.
//!
//! A scenario has `server` and `found` lines, lines `session S N`, and lines of `S` and a session's call, or one of an operator's actions but the
//! last two, without its `N` and `S`.
#![tactic(auto)]

mod founding;
mod grammar;
mod line;
mod looks;
mod make;
mod moves;
mod names;
mod numbers;
mod operators;
mod rows;
mod scan;
mod scene;
mod scenes;
mod servers;
mod sessions;
mod words;

pub use grammar::parse_line;
pub use line::{Line, LineFault};
pub use make::make_script;
pub use numbers::{numbers_are_decimal, read_number};
pub use scene::{Scene, SceneStep};
pub use scenes::parse_scene;
