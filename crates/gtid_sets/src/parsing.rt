// The text of a set, read.
ghost use Rattle.std.specs.Prelude.{◌≡◌, suc, [], length, IfOk, IfErr, None, Ok};
ghost use Rattle.gtid_sets.specs.Canonical.{IsCanonical};
ghost use Rattle.gtid_sets.specs.Grammar.{source_behind, runs_in, set_of};
ghost use Rattle.gtid_sets.specs.Scans.{IsFaultOf, IsFaultIn};

use crate::faults::TextFault;
use crate::run::Run;
use crate::scanner::{Joint, Scanner};
use crate::union::put_run;
use std::alloc::Global;

// The source of the run behind this one, where the text names none.
fn source_behind(joint: Joint, source: [u8; 16]) -> Option<[u8; 16]>
    ensures { result ≡ source_behind joint source }
{
    match joint {
        Joint::Interval => Some(source),
        Joint::End | Joint::Source => None,
    }
}

// Reads the runs of a text that isn't empty.
fn read_runs(alloc: Global, scanner: &mut Scanner) -> Result<Vec<Run>, TextFault>
    ensures ok { IfOk result (λ runs. runs_in (suc (length scanner.old.left)) scanner.old.total None [] scanner.old.left ≡ Ok runs.items) }
    ensures canonical { IfOk result (λ runs. IsCanonical runs.items) }
    ensures err { IfErr result (λ e. IsFaultIn (runs_in (suc (length scanner.old.left)) scanner.old.total None [] scanner.old.left) e) }
{
    let mut runs = Vec::new(alloc);
    let mut before = None;
    'runs: loop {
        let run = scanner.take_run(before)?;
        put_run(alloc, &mut runs, run)?;
        scanner.skip_blanks();
        let joint = scanner.take_joint()?;
        if matches!(joint, Joint::End) {
            return Ok(runs);
        }
        before = source_behind(joint, run.source);
    }
}

/// Reads the runs of a set. Linear in the text where its runs ascend; a run that doesn't is linear in those before it.
pub(crate) fn read_set(alloc: Global, text: &[u8]) -> Result<Vec<Run>, TextFault>
    ensures ok { IfOk result (λ runs. set_of text.now ≡ Ok runs.items) }
    ensures canonical { IfOk result (λ runs. IsCanonical runs.items) }
    ensures err { IfErr result (λ e. IsFaultOf text.now e) }
{
    let mut scanner = Scanner::new(text);
    scanner.skip_blanks();
    if scanner.is_at_end() {
        return Ok(Vec::new(alloc));
    }
    read_runs(alloc, &mut scanner)
}
