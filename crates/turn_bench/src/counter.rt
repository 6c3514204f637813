// What both locks guard: a count.
ghost use Rattle.std.specs.Prelude.{◌≡◌, ◌%◌, ◌^◌, length};

use turn_cell::Behaviour;

/// How many turns were taken, to the end of 64 bits and then from 0 again.
#[derive(Drop)]
pub struct Counter {
    pub turns: u64,
}

impl Behaviour for Counter {
    ghost use Rattle.std.specs.Prelude.{◌≡◌, ◌%◌, ◌^◌, length};

    type Act = ();

    type Reply = ();

    ghost stands = { λ c h. c.turns ≡ length h % 2 ^ 64 };

    fn act(&mut self, _act: ()) {
        self.turns = self.turns.wrapping_add(1);
    }
}
