// Writers that are kept no more.
ghost use Rattle.std.specs.Prelude.{◌≡◌, ◌+◌, cond, if◌then◌else◌, MatchOption, None, Some, true};
ghost use Rattle.std.specs.BTreeMap.{btree_map_len, get, IsOrdered};
ghost use Rattle.std.specs.Ordering.{is_eq};
ghost use Rattle.gr_ids.specs.declared.names.Gtid.{Gtid as AnyGtid};
ghost use Rattle.gtid_sets.specs.Sets.{in_run};
ghost use Rattle.gtid_sets.specs.Canonical.{IsRun};
ghost use Rattle.key_items.specs.declared.item.Item.{Item as AnyItem};
ghost use Rattle.key_items.specs.Items.{has_item};
ghost use Rattle.certifier.specs.Inside.{IsIndexed, gtid_cmp, item_cmp};
ghost use Rattle.certifier.specs.Forgetting.{HasNone, IsInRun, Lacks, Takes, is_by, unless_by, unless_in};

use crate::writer::Writer;
use gr_ids::Gtid;
use gtid_sets::Run;
use key_items::Item;
use std::collections::BTreeMap;

/// Drops the items whose last writer is in the run. Logarithmic, and so for each item of the writers that are in it.
pub(crate) fn forget_run(
    writers: &mut BTreeMap<Item, Writer>,
    written: &mut BTreeMap<Gtid, Vec<Item>>,
    run: &Run,
)
    requires indexed { IsIndexed writers.old.entries written.old.entries }
    requires run { IsRun run.now }
    ensures dropped { (i : AnyItem) → get item_cmp writers.new i ≡ unless_in run.now (get item_cmp writers.old i) }
    ensures indexed { IsIndexed writers.new.entries written.new.entries }
{
    while let Some((gtid, items)) = take_writer(written, run) {
        drop_items(writers, &items, gtid);
    }
}

// Takes out a writer in the run, with the items that it wrote.
fn take_writer(written: &mut BTreeMap<Gtid, Vec<Item>>, run: &Run) -> Option<(Gtid, Vec<Item>)>
    requires { IsRun run.now }
    ensures { MatchOption result (HasNone written.old.entries written.new.entries run.now) (λ w. Takes written.old.entries written.new.entries run.now w.0 w.1) }
{
    let gtid = first_in_run(written, run)?;
    let items = written.remove(&gtid)?;
    Some((gtid, items))
}

// The first writer in the run.
fn first_in_run(written: &BTreeMap<Gtid, Vec<Item>>, run: &Run) -> Option<Gtid>
    requires { IsRun run.now }
    ensures { MatchOption result (Lacks written.now.entries run.now) (λ g. IsInRun written.now.entries run.now g) }
{
    let first = Gtid {
        source: run.source,
        number: run.first,
    };
    let last = Gtid {
        source: run.source,
        number: run.last,
    };
    let (gtid, _) = written.range(first..=last).next()?;
    Some(*gtid)
}

// Drops those of these items whose last writer is this one.
fn drop_items(writers: &mut BTreeMap<Item, Writer>, items: &[Item], gtid: Gtid)
    ensures dropped { (i : AnyItem) → get item_cmp writers.new i ≡ (if has_item items.now i then unless_by gtid (get item_cmp writers.old i) else get item_cmp writers.old i) }
    ensures ordered { IsOrdered item_cmp writers.old → IsOrdered item_cmp writers.new }
{
    for item in items {
        drop_item(writers, item, gtid);
    }
}

// Drops the item where its last writer is this one.
fn drop_item(writers: &mut BTreeMap<Item, Writer>, item: &Item, gtid: Gtid)
    ensures dropped { (i : AnyItem) → get item_cmp writers.new i ≡ (if is_eq (item_cmp item.now i) then unless_by gtid (get item_cmp writers.old i) else get item_cmp writers.old i) }
    ensures ordered { IsOrdered item_cmp writers.old → IsOrdered item_cmp writers.new }
{
    if is_last_writer(writers, item, gtid) {
        writers.remove(item);
    }
}

// Whether the item's last writer is this one.
fn is_last_writer(writers: &BTreeMap<Item, Writer>, item: &Item, gtid: Gtid) -> bool
    ensures { result ≡ is_by gtid (get item_cmp writers.now item.now) }
{
    match writers.get(item) {
        Some(writer) => writer.gtid == gtid,
        None => false,
    }
}
