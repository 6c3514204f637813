//! Runs scripts of a group and writes what its members answer.
#![tactic(auto)]

mod command;
mod front_line;
mod limits;
mod line;
mod line_text;
mod made;
mod make;
mod numeral;
mod parsing;
mod placing;
mod player;
mod reader;
mod run;
mod scan;
mod status;
#[cfg(test)]
mod tests;

use gr_io::{StdSink, StdSource};
use std::process::ExitCode;
use std::{env, io};

fn main(rt: HostRuntime) -> io::Result<ExitCode> {
    let mut words = Vec::new(rt.alloc());
    for word in env::args(&rt)?.skip(1) {
        words.push(word)?;
    }
    let mut source = StdSource::new(rt.stdin());
    let mut sink = StdSink::new(rt.stdout());
    let status = run::run_script(rt.alloc(), &words, &mut source, &mut sink);
    Ok(ExitCode::from(status.code()))
}
