// A script that is made, and its summary.
ghost use Rattle.std.specs.Prelude.{◌≡◌, ◌⊎◌, ◌≤◌, IfOk};
ghost use Rattle.gr_io.specs.Causes.{Rose};
ghost use Rattle.script_run.specs.Making.{made_play, made_status, made_text};
ghost use Rattle.script_run.specs.Run.{Makes};
ghost use Rattle.script_run.specs.Standing.{IsLegalPlay};
ghost use Rattle.script_run.specs.Statuses.{done, past_limit, write_failed, no_memory};

use crate::line_text::{LineText, fault_says, says};
use crate::made::Maker;
use crate::status::{NO_MEMORY, Status, WRITE_FAILED};
use gr_ids::Memory;
use gr_io::{Sink, put_all};
use script_text::make_script;
use std::alloc::Global;

/// Plays the script of `n` steps from a number, and says its summary, or which limit of the wire a line passed.
fn say_made(alloc: Global, n: u32, from: u64) -> Result<LineText, Memory>
    requires { n ≤ 20000 }
    ensures { IfOk result (λ said. (said.status ≡ made_status n from) × (said.text ≡ made_text n from) × IsLegalPlay (made_play n from)) }
{
    let mut maker = Maker::new(alloc);
    for line in make_script(alloc, n, from)? {
        match maker.take(line.step) {
            Ok(()) => {}
            Err(fault) => return fault_says(alloc, line.number, fault),
        }
    }
    Ok(says(maker.summary(alloc, n as u64 + 2)?))
}

/// Makes a script of `n` steps from a number, plays it and writes its summary. It reads nothing.
pub fn make<K: Sink>(alloc: Global, n: u32, from: u64, sink: &mut K) -> Status
    requires { n ≤ 20000 }
    ensures made { Makes n from (K.written sink.old) (K.written sink.new) result }
    ensures write { result ≡ write_failed → Rose (K.faults sink.old) (K.faults sink.new) ⊎ Rose (K.idle sink.old) (K.idle sink.new) }
    ensures known { (result ≡ done) ⊎ (result ≡ past_limit) ⊎ (result ≡ write_failed) ⊎ (result ≡ no_memory) }
{
    let said = match say_made(alloc, n, from) {
        Ok(said) => said,
        Err(_) => return Status::new(NO_MEMORY),
    };
    if put_all(sink, said.text.as_slice()).is_err() {
        return Status::new(WRITE_FAILED);
    }
    said.status
}
