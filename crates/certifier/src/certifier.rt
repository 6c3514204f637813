// The certifier.
ghost use Rattle.std.specs.Prelude.{◌≡◌, ◌<◌, ◌≤◌, ◌^◌, IfOk, map, OnErr, OnOk};
ghost use Rattle.std.specs.Map.Iter.{ShowsInOrder, deref_pair};
ghost use Rattle.key_items.specs.declared.item.Item.{Item as AnyItem};
ghost use Rattle.certifier.specs.declared.writer.Writer.{Writer as AnyWriter};
ghost use Rattle.gr_ids.specs.declared.memory.Memory.{Memory};
ghost use Rattle.gtid_sets.specs.Canonical.{IsNumber};
ghost use Rattle.group_rules.specs.Certifier.{next_gtid, numbers_of};
ghost use Rattle.certifier.specs.Certifying.{AreOfBlocks, HasNumber, ItemsAscend, effect_of, limits_of, nothing_certified, restored_as, verdict_on, with_txn, without_stable};
ghost use Rattle.certifier.specs.Inside.{kept_in};

use crate::copying::{copied_last, last_by_origin};
use crate::kept::KeptItems;
use crate::numbers::{number_after, opens_block};
use crate::verdict::Verdict;
use crate::writer::Writer;
use crate::writing::put_back;
use gr_ids::{Gtid, Inc, LastNumber, Memory, Pos, Sequence};
use gtid_sets::GtidSet;
use key_items::{Item, KeptItem};
use std::alloc::Global;
use std::collections::BTreeMap;
use std::collections::btree_map::Iter;
use std::marker::Model;
use txn_forms::Txn;

/// What certification keeps: the blocks of numbers taken, each origin's last number, and each item with its last positive writer, until
/// that one's GTID is in a stable set (MySQL 8.0 Reference Manual, Group Replication: conflict detection by write sets).
#[derive(Debug, Drop)]
pub struct Certifier {
    group: [u8; 16],
    block: u32,
    blocks: u64,
    last: BTreeMap<Inc, u64>,
    kept: KeptItems,
}

impl Model for Certifier {
    ghost use Rattle.certifier.specs.Certifying.{Certifying};
    ghost use Rattle.certifier.specs.Inside.{IsSound, certifying_in};

    ghost Value = { Certifying };

    ghost view = { λ c. certifying_in c.group c.block c.blocks c.last.entries c.kept };

    ghost invariant = { λ c. IsSound c.block c.blocks c.last.entries };
}

impl Certifier {
    /// Nothing is certified yet, in the group with this UUID; numbers are drawn in blocks of `block`, 1 to 1,000,000. Takes no memory.
    pub fn new(alloc: Global, group: [u8; 16], block: u32) -> Certifier
        requires least { 1 ≤ block }
        requires most { block ≤ 1000000 }
        ensures { result ≡ nothing_certified group block }
    {
        Certifier {
            group,
            block,
            blocks: 0,
            last: BTreeMap::new(alloc),
            kept: KeptItems::new(alloc),
        }
    }

    /// The certifier as a donor told of it. Linear in the items, and logarithmic for each.
    pub fn restore(
        alloc: Global,
        group: [u8; 16],
        block: u32,
        blocks: u64,
        last: Sequence<LastNumber>,
        items: Sequence<KeptItem>,
    ) -> Result<Certifier, Memory>
        requires least { 1 ≤ block }
        requires most { block ≤ 1000000 }
        requires of_blocks { AreOfBlocks block blocks last }
        requires ascending { ItemsAscend items }
        ensures { IfOk result (λ certifier. certifier ≡ restored_as group block blocks last items) }
    {
        Ok(Certifier {
            group,
            block,
            blocks,
            last: last_by_origin(alloc, last.as_slice())?,
            kept: KeptItems::of(alloc, items)?,
        })
    }

    /// The verdict on a transaction, which is taken at this place. Where it is positive, it is the last writer of its items from now on.
    /// Logarithmic in the items kept, for each item of the transaction.
    pub fn certify(
        &mut self,
        alloc: Global,
        origin: Inc,
        place: Pos,
        txn: &Txn,
    ) -> Result<Verdict, Memory>
        requires { self.old.certified.blocks < 2 ^ 42 }
        ensures verdict { IfOk result (λ v. effect_of v ≡ verdict_on self.old origin txn.now) }
        ensures number { IfOk result HasNumber }
        ensures ok { OnOk result (self.new ≡ with_txn place origin txn.now self.old) }
        ensures err { OnErr result (self.new ≡ self.old) }
    {
        if let Some(writer) = self.kept.blocker(txn) {
            return Ok(Verdict::Conflict(writer.gtid));
        }
        let gtid = self.next_gtid(origin);
        let before = self.last.insert(origin, gtid.number)?;
        let writer = Writer { gtid, place };
        if self
            .kept
            .write(alloc, txn.items.as_slice(), &writer)
            .is_err()
        {
            put_back(&mut self.last, &origin, before);
            return Err(Memory);
        }
        if opens_block(self.block, gtid.number) {
            self.blocks += 1;
        }
        Ok(Verdict::Positive(gtid))
    }

    // The GTID of the origin's next positive transaction.
    fn next_gtid(&self, origin: Inc) -> Gtid
        requires { self.now.certified.blocks < 2 ^ 42 }
        ensures gtid { result ≡ next_gtid (limits_of self.now) self.now.certified origin }
        ensures range { IsNumber result.number }
    {
        let last = self.last.get(&origin).copied();
        Gtid {
            source: self.group,
            number: number_after(self.block, self.blocks, last),
        }
    }

    /// Forgets the items whose last writer is in the set. Logarithmic in the items for each run of the set, and once for each item of the
    /// writers that it covers; takes no memory.
    pub fn forget(&mut self, stable: &GtidSet)
        ensures { self.new ≡ without_stable stable.now self.old }
    {
        self.kept.forget(stable);
    }

    /// How many blocks of numbers are taken.
    pub fn blocks(&self) -> u64
        ensures { result ≡ self.now.certified.blocks }
    {
        self.blocks
    }

    /// The items with their last writers, ascending.
    pub fn items(&self) -> Iter<'_, Item, Writer>
        ensures rest { map kept_in result ≡ self.now.certified.items }
        ensures runs { ShowsInOrder (deref_pair {K = AnyItem} {X = AnyWriter}) }
    {
        self.kept.iter()
    }

    /// The last number of each of these members that has one, in the order of these. Logarithmic in the origins, for each of these.
    pub fn copy_last(&self, alloc: Global, members: &[Inc]) -> Result<Sequence<LastNumber>, Memory>
        ensures { IfOk result (λ numbers. numbers ≡ numbers_of self.now.certified.last members.now) }
    {
        copied_last(alloc, &self.last, members)
    }

    /// A copy of the items with their last writers, ascending. Linear in them.
    pub fn copy_items(&self, alloc: Global) -> Result<Sequence<KeptItem>, Memory>
        ensures { IfOk result (λ items. items ≡ self.now.certified.items) }
    {
        self.kept.copies(alloc)
    }
}
