// Runs cut from bytes.
ghost use Rattle.std.specs.Prelude.{◌≡◌, ◌≤◌, ◌-◌, drop, length, IfOk, IfErr, OnOk, MatchResult};
ghost use Rattle.byte_forms.specs.Cuts.{Takes, FaultsAt};
ghost use Rattle.byte_forms.specs.Reads.{Got, Fault};
ghost use Rattle.byte_forms.specs.Fields.{field};
ghost use Rattle.byte_forms.specs.Lists.{list_of};
ghost use Rattle.byte_forms.specs.Unreads.{Breaks};
ghost use Rattle.gtid_sets.specs.Canonical.{last_number};
ghost use Rattle.gtid_sets.specs.Spelling.{is_above as uuid_is_above, interval_of, begins_uuid, interval_from, next_interval_after, next_source_above, next_set};
ghost use Rattle.gtid_sets.specs.Pieces.{PutsIntervals, PutsSource};

use crate::run::Run;
use byte_forms::{Cutter, Misfit, Unread};
use std::alloc::Global;

// The greatest number of a GTID: 2^63-2.
const LAST_NUMBER: u64 = 9_223_372_036_854_775_806;

/// The UUID at the front, above the one before. Refused with the index of the first byte with which no such UUID
/// begins, or of the end. Constant time.
fn read_uuid_above(bytes: &[u8], before: Option<[u8; 16]>) -> Result<[u8; 16], u32>
    ensures { MatchResult result
        (λ u. (16 ≤ length bytes.now) × (field (begins_uuid before) 16 bytes.now ≡ Got u (drop 16 bytes.now)))
        (λ i. (i ≤ 16) × (i ≤ length bytes.now) × (field (begins_uuid before) 16 bytes.now ≡ Fault (length bytes.now - i))) }
{
    let mut greatest = [255u8; 16];
    for i in 0..16 {
        if i == bytes.len() {
            return Err(i as u32);
        }
        greatest[i] = bytes[i];
        if !is_above(&greatest, before) {
            return Err(i as u32);
        }
    }
    Ok(greatest)
}

/// Whether a UUID is above the one before.
fn is_above(uuid: &[u8; 16], before: Option<[u8; 16]>) -> bool
    ensures { result ≡ uuid_is_above before uuid.now }
{
    match before {
        Some(b) => b < *uuid,
        None => true,
    }
}

/// Takes a UUID above the one before.
fn take_uuid_above(from: &mut Cutter, before: Option<[u8; 16]>) -> Result<[u8; 16], Misfit>
    ensures ok { IfOk result (λ u. Takes (field (begins_uuid before) 16) from.old u from.new) }
    ensures misfit { IfErr result (λ e. FaultsAt (field (begins_uuid before) 16) from.old e.at) }
{
    match read_uuid_above(from.left(), before) {
        Ok(uuid) => {
            from.take_slice(16)?;
            Ok(uuid)
        }
        Err(i) => {
            let mut fault = from.fork();
            fault.take_slice(i)?;
            Err(Misfit { at: fault.at() })
        }
    }
}

/// Takes an interval that begins no lower than `low`, as a run of the source.
fn take_run(from: &mut Cutter, source: [u8; 16], low: u64) -> Result<Run, Misfit>
    ensures ok { IfOk result (λ run. Takes (interval_from low) from.old (interval_of run) from.new) }
    ensures source { IfOk result (λ run. run.source ≡ source) }
    ensures range { IfOk result (λ run. run.last ≤ last_number) }
    ensures misfit { IfErr result (λ e. FaultsAt (interval_from low) from.old e.at) }
{
    let first = from.take_u64_in(low, LAST_NUMBER)?;
    let last = from.take_u64_in(first, LAST_NUMBER)?;
    Ok(Run {
        source,
        first,
        last,
    })
}

/// Takes the intervals of a source, and puts its runs behind the others. Linear in the intervals.
fn take_intervals(runs: &mut Vec<Run>, from: &mut Cutter, source: [u8; 16]) -> Result<(), Unread>
    ensures ok { OnOk result (PutsIntervals source from.old runs.old.items runs.new.items from.new) }
    ensures err { IfErr result (λ e. Breaks (list_of 1 next_interval_after) from.old e) }
{
    let count = from.take_u32_in(1, u32::MAX)?;
    let mut low = 1;
    'intervals: for _i in 0..count {
        let run = take_run(from, source, low)?;
        low = run.last + 2;
        runs.push(run)?;
    }
    Ok(())
}

/// Takes a source above the UUID before, and puts its runs behind the others. Linear in them.
fn take_source(
    runs: &mut Vec<Run>,
    from: &mut Cutter,
    before: Option<[u8; 16]>,
) -> Result<[u8; 16], Unread>
    ensures ok { IfOk result (λ u. PutsSource before from.old runs.old.items u runs.new.items from.new) }
    ensures err { IfErr result (λ e. Breaks (next_source_above before) from.old e) }
{
    let uuid = take_uuid_above(from, before)?;
    take_intervals(runs, from, uuid)?;
    Ok(uuid)
}

/// Takes the runs of a set, and makes room only for those that it finds. Linear in the bytes.
pub(crate) fn take_set(alloc: Global, from: &mut Cutter) -> Result<Vec<Run>, Unread>
    ensures ok { IfOk result (λ runs. Takes next_set from.old runs.items from.new) }
    ensures err { IfErr result (λ e. Breaks next_set from.old e) }
{
    let count = from.take_u32_in(0, u32::MAX)?;
    let mut runs = Vec::new(alloc);
    let mut before = None;
    'sources: for _i in 0..count {
        before = Some(take_source(&mut runs, from, before)?);
    }
    Ok(runs)
}
