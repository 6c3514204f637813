// What a line says.
ghost use Rattle.std.specs.Prelude.{◌≡◌, IfOk, false};
ghost use Rattle.report_text.specs.Faults.{fault_line};
ghost use Rattle.script_run.specs.Standing.{fault_status, is_memory};
ghost use Rattle.script_run.specs.Statuses.{done, bad_line, past_limit};
ghost use Rattle.script_run.specs.Texts.{bad_text};

use crate::status::{BAD_LINE, DONE, PAST_LIMIT, Status};
use gr_ids::{Blob, Memory};
use report_text::{WorldFault, fault_text, line_text};
use std::alloc::Global;

/// The text of a line, and the status with which it ends the run. With `DONE` the run goes on.
#[derive(Debug, Drop)]
pub struct LineText {
    pub status: Status,
    pub text: Blob,
}

/// The line was done.
pub fn says(text: Blob) -> LineText
    ensures status { result.status ≡ done }
    ensures text { result.text ≡ text }
{
    LineText {
        status: Status::new(DONE),
        text,
    }
}

/// The line isn't in the grammar or is misplaced.
pub fn refuses(alloc: Global, number: u64) -> Result<LineText, Memory>
    ensures { IfOk result (λ said. (said.status ≡ bad_line) × (said.text ≡ bad_text number)) }
{
    Ok(LineText {
        status: Status::new(BAD_LINE),
        text: line_text(alloc, number, b"bad line")?,
    })
}

/// The line passes a limit.
pub fn passes(text: Blob) -> LineText
    ensures status { result.status ≡ past_limit }
    ensures text { result.text ≡ text }
{
    LineText {
        status: Status::new(PAST_LIMIT),
        text,
    }
}

/// What a step says that isn't done: why it is refused, or which limit of the wire it passed.
pub fn fault_says(alloc: Global, number: u64, fault: WorldFault) -> Result<LineText, Memory>
    ensures { IfOk result (λ said. (said.status ≡ fault_status fault) × (said.text ≡ fault_line number fault) × (is_memory fault ≡ false)) }
{
    match fault {
        WorldFault::WireFull { .. } => Ok(passes(fault_text(alloc, number, fault)?)),
        WorldFault::Memory => Err(Memory),
        _ => Ok(says(fault_text(alloc, number, fault)?)),
    }
}
