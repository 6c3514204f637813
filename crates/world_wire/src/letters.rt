// Letters, one after another.
ghost use Rattle.std.specs.Prelude.{◌≡◌, map, IfOk};
ghost use Rattle.group_rules.specs.Script.{letter as letter_of, total, wire_lines};

use crate::letter::Letter;
use gr_ids::Memory;
use group_rules::WireLine;
use message_sizes::sum;
use paxos_forms::Message;
use std::alloc::Global;

/// The messages as they are sent.
pub(crate) fn letters_of(alloc: Global, messages: Vec<Message>) -> Result<Vec<Letter>, Memory>
    ensures { IfOk result (λ letters. letters.items ≡ map letter_of messages.items) }
{
    let mut letters = Vec::new(alloc);
    for message in messages {
        letters.push(Letter::new(alloc, message)?)?;
    }
    Ok(letters)
}

/// The sum of their bytes.
pub(crate) fn total_of(letters: &[Letter]) -> Result<u64, Memory>
    ensures { IfOk result (λ n. n ≡ total letters.now) }
{
    let mut bytes = 0;
    for letter in letters {
        bytes = sum(bytes, letter.size())?;
    }
    Ok(bytes)
}

/// Those that are neither delivered nor lost, with their numbers from 1 on.
pub(crate) fn all_lines(alloc: Global, letters: &[Letter]) -> Result<Vec<WireLine>, Memory>
    ensures { IfOk result (λ lines. lines.items ≡ wire_lines 1 letters.now) }
{
    let mut lines = Vec::new(alloc);
    for (at, letter) in letters.iter().enumerate() {
        if letter.is_open() {
            lines.push(letter.line(at as u64 + 1))?;
        }
    }
    Ok(lines)
}
