// How many threads count together.
ghost use Rattle.std.specs.Prelude.{◌≡◌};
ghost use Rattle.turn_bench.specs.Teams.{size_of};

/// One, two or four threads.
#[derive(Clone, Copy)]
pub enum Team {
    One,
    Two,
    Four,
}

impl Team {
    /// The number of its threads.
    pub fn size(self) -> u64
        ensures { result ≡ size_of self }
    {
        match self {
            Team::One => 1,
            Team::Two => 2,
            Team::Four => 4,
        }
    }
}
