// The statuses with which a run ends.
use std::marker::Model;

/// The source was read to its end and every text was written. Of one line: the run goes on.
pub const DONE: u8 = 0;

/// The words are no command.
pub const NO_COMMAND: u8 = 2;

/// The source failed.
pub const READ_FAILED: u8 = 3;

/// The sink failed, or took nothing.
pub const WRITE_FAILED: u8 = 4;

/// A line isn't in the grammar or is misplaced.
pub const BAD_LINE: u8 = 5;

/// Memory was refused.
pub const NO_MEMORY: u8 = 6;

/// A counted quantity passed its limit.
pub const PAST_LIMIT: u8 = 7;

/// How a run ended: the exit status of the program.
#[derive(Clone, Copy, Debug, PartialEq, Eq)]
pub struct Status {
    code: u8,
}

impl Model for Status {
    ghost use Rattle.std.specs.Prelude.{ℕ};

    ghost Value = { ℕ };

    ghost view = { λ s. s.code };

    ghost inverse = { λ n. record { code = n } };
}

impl Status {
    ghost use Rattle.std.specs.Prelude.{◌≡◌};

    /// The status of this number.
    pub fn new(code: u8) -> Self
        ensures { result ≡ code }
    {
        Status { code }
    }

    /// The number of the status.
    pub fn code(self) -> u8
        ensures { result ≡ self }
    {
        self.code
    }
}
