// The texts of refusals.
ghost use Rattle.std.specs.Prelude.{◌≡◌, ◌++◌, IfOk, OnOk};
ghost use Rattle.group_rules.specs.Texts.{limit_text};
ghost use Rattle.report_text.specs.Faults.{fault_line, fault_words};

use crate::fault::WorldFault;
use crate::lines::{begin_line, end_line};
use crate::worded::put_number_after;
use gr_ids::{Blob, Memory};
use std::alloc::Global;

/// The most messages that a script may send.
const MESSAGES_LIMIT: u64 = 1_048_576;

/// The limit that was passed; where both are, the messages are named.
fn limit_name(messages: u64, bytes: u64) -> &'static [u8]
    ensures { result.now ≡ limit_text (record { messages = messages; bytes = bytes }) }
{
    if messages > MESSAGES_LIMIT {
        b"limit wire 1048576"
    } else {
        b"limit bytes 1073741824"
    }
}

/// The text behind a number.
fn put_fault(to: &mut Blob, fault: WorldFault) -> Result<(), Memory>
    ensures { OnOk result (to.new ≡ to.old ++ fault_words fault) }
{
    match fault {
        WorldFault::Declared => to.append(b"refused Declared"),
        WorldFault::NoServer => to.append(b"refused NoServer"),
        WorldFault::AlreadyRunning => to.append(b"refused AlreadyRunning"),
        WorldFault::NoMessage { k } => put_number_after(to, b"refused NoMessage ", k),
        WorldFault::MessageLost { k } => put_number_after(to, b"refused MessageLost ", k),
        WorldFault::NoMember => to.append(b"refused NoMember"),
        WorldFault::WireFull { messages, bytes } => to.append(limit_name(messages, bytes)),
        WorldFault::Spent { steps } => put_number_after(to, b"refused Spent ", steps),
        WorldFault::Memory => Ok(()),
    }
}

/// The text of a step that isn't done, on the line with this number of a script: why it is refused, or which limit the messages passed.
/// For want of memory it is empty.
pub fn fault_text(alloc: Global, number: u64, fault: WorldFault) -> Result<Blob, Memory>
    ensures { IfOk result (λ text. text ≡ fault_line number fault) }
{
    let mut text = Blob::from_vec(Vec::new(alloc));
    if fault == WorldFault::Memory {
        return Ok(text);
    }
    begin_line(&mut text, number)?;
    put_fault(&mut text, fault)?;
    end_line(&mut text)?;
    Ok(text)
}
