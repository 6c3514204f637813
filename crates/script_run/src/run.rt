// A script from a source, its texts to a sink.
ghost use Rattle.std.specs.Prelude.{◌≡◌, ◌⊎◌, ◌↔◌, ℕ, Bool, List, Some};
ghost use Rattle.std.specs.Io.KnownBytes.{append_known};
ghost use Rattle.gr_io.specs.Causes.{Rose};
ghost use Rattle.script_run.specs.Commands.{IsCommand, command_of, texts_of};
ghost use Rattle.script_run.specs.declared.command.Command.TheVariants.{Play, Make};
ghost use Rattle.script_run.specs.Making.{made_status, made_text};
ghost use Rattle.script_run.specs.Play.{State, ending, status_of, text_of};
ghost use Rattle.script_run.specs.Run.{IsEnded, Concludes, Makes, Plays};
ghost use Rattle.script_run.specs.Standing.{Stands};
ghost use Rattle.script_run.specs.Statuses.{done, no_command, read_failed, write_failed, no_memory};

use crate::command::{Command, read_command};
use crate::front_line::{LineKind, ReadFault};
use crate::limits::LINES_LIMIT;
use crate::line::take_line;
use crate::make::make;
use crate::player::Player;
use crate::reader::LineReader;
use crate::status::{DONE, NO_COMMAND, NO_MEMORY, PAST_LIMIT, READ_FAILED, Status, WRITE_FAILED};
use gr_ids::Memory;
use gr_io::{Sink, Source, put_all};
use std::alloc::Global;

/// Ends a script whose lines were all done: the report is written where it is asked for.
fn conclude<K: Sink>(
    alloc: Global,
    report: bool,
    player: &Player,
    lines: u64,
    sink: &mut K,
) -> Status
    ensures concluded { (s : State) → Stands player.now s → Concludes (ending report done lines s.play) (K.written sink.old) (K.written sink.new) result }
    ensures write { result ≡ write_failed → Rose (K.faults sink.old) (K.faults sink.new) ⊎ Rose (K.idle sink.old) (K.idle sink.new) }
    ensures known { (result ≡ done) ⊎ (result ≡ write_failed) ⊎ (result ≡ no_memory) }
{
    if !report {
        return Status::new(DONE);
    }
    let text = match player.report(alloc, lines) {
        Ok(text) => text,
        Err(_) => return Status::new(NO_MEMORY),
    };
    if put_all(sink, text.as_slice()).is_err() {
        return Status::new(WRITE_FAILED);
    }
    Status::new(DONE)
}

/// Plays a script to its end. The line after the last one allowed passes the limit, so the loop ends before its range does.
fn play<S: Source, K: Sink>(alloc: Global, report: bool, source: &mut S, sink: &mut K) -> Status
    ensures played { (script : List ℕ) → S.left source.old ≡ Some script
        → Plays report script (S.left source.new) (K.written sink.old) (K.written sink.new) result }
    ensures read { result ≡ read_failed → Rose (S.faults source.old) (S.faults source.new) }
    ensures write { result ≡ write_failed
        → Rose (K.faults sink.old) (K.faults sink.new) ⊎ Rose (K.idle sink.old) (K.idle sink.new) }
    ensures known { IsEnded result ⊎ (result ≡ read_failed) ⊎ (result ≡ write_failed) ⊎ (result ≡ no_memory) }
{
    let mut player = Player::new(alloc);
    let mut reader = LineReader::new(alloc);
    for number in 1..LINES_LIMIT + 2 {
        let found = match reader.find(source) {
            Ok(Some(found)) => found,
            Ok(None) => return conclude(alloc, report, &player, number - 1, sink),
            Err(ReadFault::Failed) => return Status::new(READ_FAILED),
            Err(ReadFault::Memory) => return Status::new(NO_MEMORY),
        };
        let line = &reader.held()[..found.len];
        let said = match take_line(alloc, &mut player, number, line) {
            Ok(said) => said,
            Err(_) => return Status::new(NO_MEMORY),
        };
        if put_all(sink, said.text.as_slice()).is_err() {
            return Status::new(WRITE_FAILED);
        }
        if said.status.code() != DONE {
            return said.status;
        }
        match found.kind {
            LineKind::Whole => reader.skip(found.taken),
            LineKind::Last | LineKind::Long => {
                return conclude(alloc, report, &player, number, sink);
            }
        }
    }
    Status::new(PAST_LIMIT)
}

/// All that the program does. `play` plays the script of a source, line by line, and writes the text of each line to a sink before it reads on; with
/// `--report` the report comes behind it. `make` plays a script that it makes, reads nothing and writes the summary. It holds no more than a line, a piece
/// and the group's world, and always returns.
pub fn run_script<S: Source, K: Sink>(
    alloc: Global,
    words: &[String],
    source: &mut S,
    sink: &mut K,
) -> Status
    // The status 2 comes exactly where the words are no command.
    ensures command { (result ≡ no_command) ↔ ¬ (IsCommand (texts_of words.now)) }
    // Nothing is read or written then.
    ensures untouched { result ≡ no_command → (source.new ≡ source.old) × (sink.new ≡ sink.old) }

    // What is read and written of a source that tells its script: the answers of one legal history of a group. After want of memory (6) what was written is a
    // beginning of the full text, and the bytes pulled and those left make up the script.
    ensures played { (script : List ℕ) (report : Bool) → S.left source.old ≡ Some script → command_of (texts_of words.now) ≡ Some (Play report)
        → Plays report script (S.left source.new) (K.written sink.old) (K.written sink.new) result }
    // What is written of a script that is made.
    ensures made { (n from : ℕ) → command_of (texts_of words.now) ≡ Some (Make n from)
        → (source.new ≡ source.old) × Makes n from (K.written sink.old) (K.written sink.new) result }

    // Each fault has its cause.
    ensures read { result ≡ read_failed → Rose (S.faults source.old) (S.faults source.new) }
    ensures write { result ≡ write_failed
        → Rose (K.faults sink.old) (K.faults sink.new) ⊎ Rose (K.idle sink.old) (K.idle sink.new) }

    // There is no other status.
    ensures known { IsEnded result ⊎ (result ≡ no_command) ⊎ (result ≡ read_failed) ⊎ (result ≡ write_failed) ⊎ (result ≡ no_memory) }

    // Where no count rises, the whole text is written, unless memory is refused.
    ensures complete { (script : List ℕ) (report : Bool) → S.left source.old ≡ Some script → command_of (texts_of words.now) ≡ Some (Play report)
        → ¬ (Rose (S.faults source.old) (S.faults source.new)) → ¬ (Rose (K.faults sink.old) (K.faults sink.new)) → ¬ (Rose (K.idle sink.old) (K.idle sink.new))
        → (result ≡ no_memory) ⊎ ((result ≡ status_of script) × (K.written sink.new ≡ append_known (K.written sink.old) (text_of report script))) }
    ensures complete_made { (n from : ℕ) → command_of (texts_of words.now) ≡ Some (Make n from)
        → ¬ (Rose (K.faults sink.old) (K.faults sink.new)) → ¬ (Rose (K.idle sink.old) (K.idle sink.new))
        → (result ≡ no_memory) ⊎ ((result ≡ made_status n from) × (K.written sink.new ≡ append_known (K.written sink.old) (made_text n from))) }
{
    match read_command(alloc, words) {
        Ok(None) => Status::new(NO_COMMAND),
        Ok(Some(Command::Play { report })) => play(alloc, report, source, sink),
        Ok(Some(Command::Make { steps, from })) => make(alloc, steps, from, sink),
        Err(Memory) => Status::new(NO_MEMORY),
    }
}
