// The words of a command.
ghost use Rattle.std.specs.Prelude.{◌≡◌, Bool, ℕ, List, IfOk, IfSome, OnErr, Some, codes, is_some, true};
ghost use Rattle.clap.specs.Words.{subcommand_rows_of};
ghost use Rattle.script_run.specs.Commands.{InRange, command_of, make_of as made_of, texts_of};
ghost use Rattle.script_run.specs.Parsing.{flag_in, flag_text, named, values_in};
ghost use Rattle.script_run.specs.declared.command.Command.TheVariants.{Play};

use crate::numeral::number_to;
use crate::parsing::parse_words;
use clap::ArgMatches;
use clap::error::ErrorKind;
use gr_ids::Memory;
use std::alloc::Global;

/// What the words ask for.
#[derive(Clone, Copy, Debug, PartialEq, Eq)]
pub enum Command {
    /// To play the script of the source; `report` asks for the report behind it.
    Play { report: bool },
    /// To make a script of so many steps, at most 20,000, from a number, to play it and to summarize it.
    Make { steps: u32, from: u64 },
}

/// The words behind `make`.
#[tactic(auto, unfolding(crate::specs::Commands::make_of))]
fn make_of(steps: &str, from: &str) -> Option<Command>
    ensures command { result ≡ made_of steps.now from.now }
    ensures range { IfSome result InRange }
{
    let steps = number_to(steps, 20_000)?;
    let from = number_to(from, u64::MAX)?;
    Some(Command::Make {
        steps: steps as u32,
        from,
    })
}

/// Whether the words are those of a command, word for word.
#[tactic(auto, unfolding(crate::specs::Commands::command_of))]
fn is_command(words: &[String]) -> bool
    ensures { result ≡ is_some (command_of (texts_of words.now)) }
{
    match words {
        [play] => play.as_str() == "play",
        [play, report] => play.as_str() == "play" && report.as_str() == "--report",
        [make, steps, from] => {
            make.as_str() == "make" && make_of(steps.as_str(), from.as_str()).is_some()
        }
        _ => false,
    }
}

/// The command that `clap` has met.
fn met_command(matches: &ArgMatches<'_>) -> Option<Command>
    ensures play { (b : Bool) → named (subcommand_rows_of matches.now) ≡ Some (codes "play")
        → flag_in (subcommand_rows_of matches.now) ≡ Some (Some (flag_text b)) → result ≡ Some (Play b) }
    ensures make { (n from : List ℕ) → named (subcommand_rows_of matches.now) ≡ Some (codes "make")
        → values_in (subcommand_rows_of matches.now) ≡ Some (Some n, Some from) → result ≡ made_of n from }
    ensures range { IfSome result InRange }
{
    if let Some(play) = matches.subcommand_matches("play") {
        return Some(Command::Play {
            report: play.get_flag("report"),
        });
    }
    let make = matches.subcommand_matches("make")?;
    make_of(make.get_str("steps")?, make.get_str("from")?)
}

/// The command that the words are, if they are one. They have to be those of a command word for word, which takes no memory to see: `clap` would take more,
/// as `play --`. It reads what such words say.
pub fn read_command(alloc: Global, words: &[String]) -> Result<Option<Command>, Memory>
    ensures command { IfOk result (λ c. c ≡ command_of (texts_of words.now)) }
    ensures range { IfOk result (λ c. IfSome c InRange) }
    ensures memory { OnErr result (is_some (command_of (texts_of words.now)) ≡ true) }
{
    if !is_command(words) {
        return Ok(None);
    }
    match parse_words(alloc, words) {
        Ok(matches) => Ok(met_command(&matches)),
        Err(error) => match error.kind() {
            ErrorKind::OutOfMemory => Err(Memory),
            _ => unreachable!(),
        },
    }
}
