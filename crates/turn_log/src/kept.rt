// A list of numbers.
ghost use Rattle.std.specs.Prelude.{◌≡◌, []};

use std::alloc::Global;
use turn_cell::Behaviour;

/// The numbers that were pushed. A push that is refused memory answers false, and is an entry of the history too.
#[derive(Drop)]
pub struct Log {
    pub items: Vec<u64>,
}

impl Log {
    /// The empty log; takes no memory.
    pub fn new(alloc: Global) -> Log
        ensures { result.items.items ≡ [] }
    {
        Log {
            items: Vec::new(alloc),
        }
    }
}

impl Behaviour for Log {
    ghost use Rattle.turn_log.specs.Pushed.{pushed};
    ghost use Rattle.std.specs.Prelude.{◌≡◌};

    type Act = u64;

    type Reply = bool;

    ghost stands = { λ l h. l.items.items ≡ pushed h };

    fn act(&mut self, act: u64) -> bool {
        self.items.push(act).is_ok()
    }
}
