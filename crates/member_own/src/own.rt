// What is kept.
ghost use Rattle.std.specs.Prelude.{◌≡◌, ◌<◌, ◌^◌, suc, IfOk, OnErr, OnOk};
ghost use Rattle.gr_ids.specs.declared.memory.Memory.{Memory};
ghost use Rattle.member_own.specs.Keeping.{nothing_kept, with_place, with_tick, with_value};

use gr_ids::{Memory, Pos};
use std::marker::Model;

/// The number of a member's last own value, whether it made its Online entry, its ticks, and the place of its Online entry.
#[derive(Debug, Drop)]
pub struct Own {
    made: u64,
    arrived: bool,
    ticks: u64,
    online: Option<Pos>,
}

impl Model for Own {
    ghost use Rattle.member_own.specs.Keeping.{Kept};

    ghost Value = { Kept };

    ghost view = { λ o. record { made = o.made; arrived = o.arrived; ticks = o.ticks; online = o.online } };
}

impl Own {
    /// No value was made, and no tick passed.
    pub fn new() -> Own
        ensures { result ≡ nothing_kept }
    {
        Own {
            made: 0,
            arrived: false,
            ticks: 0,
            online: None,
        }
    }

    /// The next own value is made, an Online entry or another one; its number. Refused as want of memory above 2^64 - 1.
    pub fn make(&mut self, arrives: bool) -> Result<u64, Memory>
        ensures number { IfOk result (λ n. n ≡ suc self.old.made) }
        ensures made { OnOk result (self.new ≡ with_value (suc self.old.made) arrives self.old) }
        ensures err { OnErr result (self.new ≡ self.old) }
    {
        let Some(number) = self.made.checked_add(1) else {
            return Err(Memory);
        };
        self.made = number;
        if arrives {
            self.arrived = true;
        }
        Ok(number)
    }

    /// One tick passes. A member has fewer than 2^50.
    pub fn tick(&mut self)
        requires { self.old.ticks < 2 ^ 50 }
        ensures { self.new ≡ with_tick self.old }
    {
        self.ticks += 1;
    }

    /// An entry is taken at this place, the own Online entry or another one.
    pub fn take(&mut self, place: Pos, arrives: bool)
        ensures { self.new ≡ with_place place arrives self.old }
    {
        if arrives {
            self.online = Some(place);
        }
    }

    /// The number of the last own value, 0 before the first.
    pub fn made(&self) -> u64
        ensures { result ≡ self.now.made }
    {
        self.made
    }

    /// Whether the Online entry was made.
    pub fn has_arrived(&self) -> bool
        ensures { result ≡ self.now.arrived }
    {
        self.arrived
    }

    /// The ticks that have passed.
    pub fn ticks(&self) -> u64
        ensures { result ≡ self.now.ticks }
    {
        self.ticks
    }

    /// The place at which the Online entry was taken.
    pub fn online(&self) -> Option<Pos>
        ensures { result ≡ self.now.online }
    {
        self.online
    }
}
