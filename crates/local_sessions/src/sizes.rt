// How many bytes a transaction's body has, as far as 64 bits go.
ghost use Rattle.std.specs.Prelude.{◌≡◌, ◌-◌, ◌^◌, Bool, if◌then◌else◌, length, min};
ghost use Rattle.gtid_sets.specs.Canonical.{IsCanonical};
ghost use Rattle.txn_forms.specs.Bodies.{body_bytes};
ghost use Rattle.txn_forms.specs.declared.body.Body.TheVariants.{Txn as Writes};
ghost use Rattle.local_sessions.specs.Sizes.{changes_size as changes_size_is, goes_on as goes_on_in, item_size as item_size_is, items_size as items_size_is, kind_size as kind_size_is, runs_size as runs_size_is};

use gtid_sets::{GtidSet, Run};
use key_items::{Change, ChangeKind, Item};

/// The number of bytes of a transaction's body, or the greatest `u64` where that is greater; the length of a row is counted as four
/// bytes however long the row is. Linear in the runs, items and changes.
pub(crate) fn body_size(snapshot: &GtidSet, items: &[Item], changes: &[Change]) -> u64
    ensures size { (after : Bool) → result ≡ min (length (body_bytes (Writes (record { after = after; snapshot = snapshot.now; items = items.now; changes = changes.now })))) (2 ^ 64 - 1) }
    ensures canonical { IsCanonical snapshot.now }
{
    let set = runs_size(snapshot.runs());
    let written = items_size(items).saturating_add(changes_size(changes));
    set.saturating_add(written).saturating_add(14)
}

fn runs_size(runs: &[Run]) -> u64
    ensures { result ≡ min (runs_size_is runs.now) (2 ^ 64 - 1) }
{
    let mut size = 0u64;
    let mut left = runs;
    while let Some((run, behind)) = left.split_first() {
        size = size.saturating_add(run_size(run, behind));
        left = behind;
    }
    size
}

fn run_size(run: &Run, behind: &[Run]) -> u64
    ensures { result ≡ (if goes_on_in run.now.source behind.now then 16 else 36) }
{
    match behind.first() {
        Some(next) if next.source == run.source => 16,
        _ => 36,
    }
}

fn items_size(items: &[Item]) -> u64
    ensures { result ≡ min (items_size_is items.now) (2 ^ 64 - 1) }
{
    let mut size = 0u64;
    for item in items {
        size = size.saturating_add(item_size(item));
    }
    size
}

fn item_size(item: &Item) -> u64
    ensures { result ≡ min (item_size_is item.now) (2 ^ 64 - 1) }
{
    let table = item.table.len() as u64;
    table
        .saturating_add(item.key.len() as u64)
        .saturating_add(2)
}

fn changes_size(changes: &[Change]) -> u64
    ensures { result ≡ min (changes_size_is changes.now) (2 ^ 64 - 1) }
{
    let mut size = 0u64;
    for change in changes {
        size = size
            .saturating_add(kind_size(&change.what))
            .saturating_add(5);
    }
    size
}

fn kind_size(what: &ChangeKind) -> u64
    ensures { result ≡ min (kind_size_is what.now) (2 ^ 64 - 1) }
{
    match what {
        ChangeKind::Insert(row) | ChangeKind::Update(row) => (row.len() as u64).saturating_add(4),
        ChangeKind::Delete => 0,
    }
}
