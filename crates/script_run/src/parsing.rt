// The words, as `clap` reads them.
ghost use Rattle.std.specs.Prelude.{◌≡◌, IfErr, IfOk, false, true};
ghost use Rattle.clap.specs.declared.builder.command.Command.TheViews.{out-Command};
ghost use Rattle.clap.specs.Words.{app_of, kind_of, subcommand_of, subcommand_rows_of, takes};
ghost use Rattle.script_run.specs.Commands.{texts_of};
ghost use Rattle.script_run.specs.Parsing.{grsim as the_program, make_app, play_app};

use clap::error::ErrorKind;
use clap::{Arg, ArgAction, ArgMatches, Command, Error};
use std::alloc::{AllocError, Global};

/// `play`, with or without `--report`.
fn play_words<'a>(alloc: Global) -> Result<Command<'a>, AllocError>
    ensures shape { IfOk result (λ p. app_of p ≡ play_app) }
    ensures local { IfOk result (λ p. (out-Command p).has_globals ≡ false) }
{
    let report = Arg::new(alloc, "report")
        .long("report")
        .action(ArgAction::SetTrue);
    Command::new(alloc, "play").arg(report)
}

/// `make` and two words.
fn make_words<'a>(alloc: Global) -> Result<Command<'a>, AllocError>
    ensures shape { IfOk result (λ p. app_of p ≡ make_app) }
    ensures local { IfOk result (λ p. (out-Command p).has_globals ≡ false) }
{
    let steps = Arg::new(alloc, "steps").required(true);
    let from = Arg::new(alloc, "from").required(true);
    Command::new(alloc, "make").arg(steps)?.arg(from)
}

/// The words, which are those behind the program's name, as `clap` reads them.
pub fn parse_words<'a>(alloc: Global, words: &'a [String]) -> Result<ArgMatches<'a>, Error>
    ensures ok { IfOk result (λ m. subcommand_rows_of m ≡ subcommand_of the_program (texts_of words.entry.now)) }
    ensures err { IfErr result (λ e. takes the_program (texts_of words.entry.now) ≡ true → kind_of e ≡ ErrorKind.OutOfMemory) }
{
    let play = play_words(alloc)?;
    let make = make_words(alloc)?;
    let grsim = Command::new(alloc, "grsim")
        .no_binary_name(true)
        .subcommand(play)?
        .subcommand(make)?;
    grsim.try_get_matches_from(words)
}
