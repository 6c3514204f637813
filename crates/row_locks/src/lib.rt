//! Row locks of a member: one holder for each key.
//!
//! A session locks the keys that it writes, until its transaction ends. A transaction of another origin takes over its keys once it is
//! done, and holds them until it is committed.
#![tactic(auto)]

ghost use Rattle.std.specs.Prelude.{◌≡◌, ℕ, true, List};
ghost use Rattle.row_locks.specs.Locking.{ascend, with_place, without_place, DonePlace as Done};

mod done;
mod fault;
mod keys;
mod locks;

pub use done::DonePlace;
pub use fault::LockFault;
pub use locks::Locks;

/// The places ascend whatever comes and goes, so the first that holds a key is the least.
pub fn places_ascend()
    ensures put { (ds : List Done) (d : Done) → ascend ds ≡ true → ascend (with_place ds d) ≡ true }
    ensures taken { (ds : List Done) (p : ℕ) → ascend ds ≡ true → ascend (without_place p ds) ≡ true }
{}
