// `state` has a file of its own: its clause names the row of `Turn`, which the file that declares `Turn` cannot import.
ghost use Rattle.std.specs.Prelude.{◌≡◌};
ghost use Rattle.std.specs.Borrow.{sem, Lends};
ghost use Rattle.turn_cell.specs.contracts.cell.Turn.{the_row};
ghost use Rattle.turn_cell.specs.Lent.{turn_with};

use crate::behaviour::Behaviour;
use crate::cell::Turn;

impl<B: Behaviour> Turn<B> {
    /// The state, which stands for the history when the turn begins.
    pub fn state(&mut self) -> &mut B
        ensures* writes_back { sem 𝓛 (Lends (the_row B.row B.Act.row B.Reply.row (record { stands = B.stands })) B.row self.entry result (turn_with self.old)) }
        ensures value { result.now ≡ self.old.state }
    {
        &mut self.state
    }
}
