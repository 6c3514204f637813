// The text of a set, written.
ghost use Rattle.std.specs.Prelude.{◌≡◌, ◌++◌, map, decimal, IfOk, OnOk};
ghost use Rattle.std.specs.List.{flat_map};
ghost use Rattle.gtid_sets.specs.Spelling.{interval_of, sources_of};
ghost use Rattle.gtid_sets.specs.Pieces.{source_with};
ghost use Rattle.gtid_sets.specs.Text.{span_text, interval_text, source_text, joined_text, set_text};

use crate::packing::len_of_source;
use crate::run::Run;
use gr_ids::{Memory, write_uuid};
use itoa::Buffer;
use std::alloc::Global;

// Puts a number in decimal digits.
fn put_decimal(to: &mut Vec<u8>, n: u64) -> Result<(), Memory>
    ensures { OnOk result (to.new.items ≡ to.old.items ++ decimal n) }
{
    let mut buffer = Buffer::new();
    to.extend_from_slice(buffer.format(n).as_bytes())?;
    Ok(())
}

// Puts the numbers of a run, as `n` or `n-m`.
fn put_span(to: &mut Vec<u8>, run: &Run) -> Result<(), Memory>
    ensures { OnOk result (to.new.items ≡ to.old.items ++ span_text (interval_of run.now)) }
{
    put_decimal(to, run.first)?;
    if run.first == run.last {
        return Ok(());
    }
    to.extend_from_slice(b"-")?;
    put_decimal(to, run.last)
}

// Puts a run behind its source.
fn put_interval(to: &mut Vec<u8>, run: &Run) -> Result<(), Memory>
    ensures { OnOk result (to.new.items ≡ to.old.items ++ interval_text (interval_of run.now)) }
{
    to.extend_from_slice(b":")?;
    put_span(to, run)
}

// Puts the runs of one source. Linear in them.
fn put_source(to: &mut Vec<u8>, source: [u8; 16], runs: &[Run]) -> Result<(), Memory>
    ensures { OnOk result (to.new.items ≡ to.old.items ++ source_text (source_with source runs.now)) }
{
    to.extend_from_slice(&write_uuid(source))?;
    for run in runs {
        put_interval(to, run)?;
    }
    Ok(())
}

// Puts a comma and the runs of one source.
fn put_joined(to: &mut Vec<u8>, source: [u8; 16], runs: &[Run]) -> Result<(), Memory>
    ensures { OnOk result (to.new.items ≡ to.old.items ++ joined_text (source_with source runs.now)) }
{
    to.extend_from_slice(b",")?;
    put_source(to, source, runs)
}

// Puts the sources behind the first one. Linear in their runs.
fn put_others(to: &mut Vec<u8>, runs: &[Run]) -> Result<(), Memory>
    ensures { OnOk result (to.new.items ≡ to.old.items ++ flat_map joined_text (sources_of runs.now)) }
{
    let mut at = 0;
    while at < runs.len() {
        let source = runs[at].source;
        let n = len_of_source(&runs[at..], source);
        put_joined(to, source, &runs[at..at + n])?;
        at += n;
    }
    Ok(())
}

/// The text of the runs. Linear in them.
pub(crate) fn text_of(alloc: Global, runs: &[Run]) -> Result<Vec<u8>, Memory>
    ensures { IfOk result (λ text. text.items ≡ set_text runs.now) }
{
    let mut text = Vec::new(alloc);
    if runs.is_empty() {
        return Ok(text);
    }
    let source = runs[0].source;
    let n = len_of_source(runs, source);
    put_source(&mut text, source, &runs[..n])?;
    put_others(&mut text, &runs[n..])?;
    Ok(text)
}
