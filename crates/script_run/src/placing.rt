// Where the lines of a script may stand.
ghost use Rattle.std.specs.Prelude.{◌≡◌};
ghost use Rattle.script_run.specs.Placing.{is_misplaced as misplaced, no_lines, with_line as after_line};

use group_rules::Step;

/// Which lines stood so far.
#[derive(Clone, Copy, Debug, PartialEq, Eq)]
pub struct Placing {
    /// A `found` line.
    pub founded: bool,
    /// A `block` line.
    pub blocked: bool,
    /// A line behind which no `found` may stand.
    pub begun: bool,
}

impl Placing {
    /// Before the first line.
    pub fn new() -> Self
        ensures { result ≡ no_lines }
    {
        Placing {
            founded: false,
            blocked: false,
            begun: false,
        }
    }

    /// Whether a line may not stand behind these: a `found` behind another one, or behind any line but `server` and `block` lines; a `block` behind a `found`
    /// or another `block`.
    pub fn is_misplaced(self, step: &Step) -> bool
        ensures { result ≡ misplaced step.now self }
    {
        match step {
            Step::Found { .. } => self.founded || self.begun,
            Step::Block { .. } => self.founded || self.blocked,
            _ => false,
        }
    }

    /// With one more line.
    pub fn with_line(self, step: &Step) -> Self
        ensures { result ≡ after_line step.now self }
    {
        match step {
            Step::Found { .. } => Placing {
                founded: true,
                ..self
            },
            Step::Block { .. } => Placing {
                blocked: true,
                ..self
            },
            Step::Server { .. } => self,
            _ => Placing {
                begun: true,
                ..self
            },
        }
    }
}
