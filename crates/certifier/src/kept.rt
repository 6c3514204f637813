// The items that are kept, with their last writers.
ghost use Rattle.std.specs.Prelude.{◌≡◌, [], filter, IfOk, map, not, OnErr, OnOk, option_map};
ghost use Rattle.std.specs.BTreeMap.{insert_entry};
ghost use Rattle.std.specs.Map.Iter.{ShowsInOrder, deref_pair};
ghost use Rattle.gtid_sets.specs.Sets.{has};
ghost use Rattle.key_items.specs.declared.item.Item.{Item as AnyItem};
ghost use Rattle.group_rules.specs.Certifier.{blocker as blocker_of, written_by};
ghost use Rattle.certifier.specs.declared.writer.Writer.{Writer as AnyWriter};
ghost use Rattle.certifier.specs.Blockers.{writer_of};
ghost use Rattle.certifier.specs.Certifying.{ItemsAscend};
ghost use Rattle.certifier.specs.Inside.{item_cmp, kept_in};

use crate::blocking::blocker;
use crate::copying::copied_items;
use crate::forgetting::forget_run;
use crate::noting::{note, note_items};
use crate::writer::Writer;
use crate::writing::write_items;
use gr_ids::{Gtid, Memory, Sequence};
use gtid_sets::GtidSet;
use key_items::{Item, KeptItem};
use std::alloc::Global;
use std::collections::BTreeMap;
use std::collections::btree_map::Iter;
use std::marker::Model;
use txn_forms::Txn;

/// Items with their last positive writers. For each writer it also knows the items that it wrote, so that what a set covers is found
/// without a look at the others. A writer that is the last one of none of its items any more stays until a set covers it.
#[derive(Debug, Drop)]
pub(crate) struct KeptItems {
    writers: BTreeMap<Item, Writer>,
    written: BTreeMap<Gtid, Vec<Item>>,
}

impl Model for KeptItems {
    ghost use Rattle.std.specs.Prelude.{List};
    ghost use Rattle.key_items.specs.declared.item.Item.{Item};
    ghost use Rattle.certifier.specs.declared.writer.Writer.{Writer};
    ghost use Rattle.certifier.specs.Inside.{IsIndexed};

    ghost Value = { List (Item × Writer) };

    ghost view = { λ k. k.writers.entries };

    ghost invariant = { λ k. IsIndexed k.writers.entries k.written.entries };
}

impl KeptItems {
    /// No item is kept; takes no memory.
    pub(crate) fn new(alloc: Global) -> KeptItems
        ensures { result ≡ [] }
    {
        KeptItems {
            writers: BTreeMap::new(alloc),
            written: BTreeMap::new(alloc),
        }
    }

    /// Items that ascend. Logarithmic in them, for each.
    pub(crate) fn of(alloc: Global, items: Sequence<KeptItem>) -> Result<KeptItems, Memory>
        requires { ItemsAscend items }
        ensures { IfOk result (λ kept. map kept_in kept ≡ items) }
    {
        let mut kept = KeptItems::new(alloc);
        for one in items.into_vec() {
            let writer = Writer {
                gtid: one.gtid,
                place: one.place,
            };
            kept.put(alloc, one.item, writer)?;
        }
        Ok(kept)
    }

    // Makes the transaction the last writer of the item. Logarithmic in the items.
    fn put(&mut self, alloc: Global, item: Item, writer: Writer) -> Result<(), Memory>
        ensures ok { OnOk result (self.new ≡ insert_entry item_cmp self.old item writer) }
        ensures err { OnErr result (self.new ≡ self.old) }
    {
        note(alloc, &mut self.written, writer.gtid, &item)?;
        self.writers.insert(item, writer)?;
        Ok(())
    }

    /// Of the last writers of the transaction's items that its snapshot lacks, the one at the greatest place. Logarithmic in the items
    /// kept, for each item of the transaction.
    pub(crate) fn blocker(&self, txn: &Txn) -> Option<Writer>
        ensures { result ≡ option_map writer_of (blocker_of (map kept_in self.now) txn.now) }
    {
        blocker(&self.writers, txn)
    }

    /// Makes the transaction the last writer of each of these items. Logarithmic in the items kept, for each of these.
    pub(crate) fn write(
        &mut self,
        alloc: Global,
        items: &[Item],
        writer: &Writer,
    ) -> Result<(), Memory>
        ensures ok { OnOk result (map kept_in self.new ≡ written_by writer.now.place writer.now.gtid items.now (map kept_in self.old)) }
        ensures err { OnErr result (self.new ≡ self.old) }
    {
        note_items(alloc, &mut self.written, writer.gtid, items)?;
        write_items(alloc, &mut self.writers, items, writer)
    }

    /// Drops the items whose last writer is in the set. Logarithmic in the items for each run of the set, and for each item of the writers
    /// that it covers, once; takes no memory.
    pub(crate) fn forget(&mut self, stable: &GtidSet)
        ensures { map kept_in self.new ≡ filter (λ k. not (has stable.now k.gtid)) (map kept_in self.old) }
    {
        let runs = stable.runs();
        for run in runs {
            forget_run(&mut self.writers, &mut self.written, run);
        }
    }

    /// A copy of the items with their last writers, ascending. Linear in them.
    pub(crate) fn copies(&self, alloc: Global) -> Result<Sequence<KeptItem>, Memory>
        ensures { IfOk result (λ kept. kept ≡ map kept_in self.now) }
    {
        copied_items(alloc, &self.writers)
    }

    /// The items with their last writers, ascending.
    pub(crate) fn iter(&self) -> Iter<'_, Item, Writer>
        ensures rest { result ≡ self.now }
        ensures runs { ShowsInOrder (deref_pair {K = AnyItem} {X = AnyWriter}) }
    {
        self.writers.iter()
    }
}
