// The set of the items that a transaction writes.
ghost use Rattle.std.specs.Prelude.{◌≡◌, ◌≤◌, ◌<◌, not, false, IfOk, MatchOption, OnErr, OnOk, Some, [], length, slice_get};
ghost use Rattle.std.specs.Iterator.Adapters.{IterYieldsInOrder};
ghost use Rattle.std.specs.Slice.Iter.{iter_rest};
ghost use Rattle.gr_ids.specs.declared.memory.Memory.{Memory};
ghost use Rattle.key_items.specs.Items.{Ascend, has_item, share, with_item};

use crate::item::Item;
use gr_ids::{Memory, Sequence};
use std::alloc::Global;
use std::cmp::Ordering;
use std::marker::Model;
use std::slice::Iter;

/// The items that a transaction writes: distinct, ascending by table, then key, as bytes.
/// Two transactions that share one conflict where neither saw the other
/// (MySQL 8.0 Reference Manual, Group Replication: certification by write sets).
#[derive(Debug, Drop)]
pub struct WriteSet {
    items: Vec<Item>,
}

impl Model for WriteSet {
    ghost use Rattle.std.specs.Prelude.{List};
    ghost use Rattle.key_items.specs.declared.item.Item.{Item};

    ghost Value = { List Item };

    ghost view = { λ s. s.items.items };

    ghost use Rattle.key_items.specs.Items.{Ascend};

    ghost invariant = { λ s. Ascend s.items.items };
}

impl WriteSet {
    /// The empty set; takes no memory.
    pub fn new(alloc: Global) -> Self
        ensures { result ≡ [] }
    {
        WriteSet {
            items: Vec::new(alloc),
        }
    }

    /// The set of items that ascend already; takes no memory.
    pub fn from_ascending(items: Sequence<Item>) -> Self
        requires { Ascend items }
        ensures { result ≡ items }
    {
        WriteSet {
            items: items.into_vec(),
        }
    }

    /// Adds the item, and says whether it is new. Logarithmic in the items, and linear where it moves those behind it.
    pub fn add(&mut self, item: Item) -> Result<bool, Memory>
        ensures ok { OnOk result (self.new ≡ with_item self.old item) }
        ensures added { IfOk result (λ new. new ≡ not (has_item self.old item)) }
        ensures err { OnErr result (self.new ≡ self.old) }
    {
        match self.items.binary_search(&item) {
            Ok(_) => Ok(false),
            Err(at) => {
                self.items.insert(at, item)?;
                Ok(true)
            }
        }
    }

    /// Whether the item is in the set. Logarithmic in the items.
    pub fn contains(&self, item: &Item) -> bool
        ensures { result ≡ has_item self.now item.now }
    {
        self.items.binary_search(item).is_ok()
    }

    /// The index of the item, None exactly where it isn't in the set. Logarithmic in the items.
    pub fn position(&self, item: &Item) -> Option<usize>
        ensures at { MatchOption result (has_item self.now item.now ≡ false) (λ at. (at < length self.now) × (slice_get self.now at ≡ Some item.now)) }
        ensures ascend { Ascend self.now }
    {
        match self.items.binary_search(item) {
            Ok(at) => Some(at),
            Err(_) => None,
        }
    }

    /// Whether the two sets have an item in common. Linear in the items of both; takes no memory.
    pub fn shares(&self, other: &WriteSet) -> bool
        ensures { result ≡ share self.now other.now }
    {
        let (mut left, mut right) = (self.items.as_slice(), other.items.as_slice());
        while let Some((x, xs)) = left.split_first() {
            let Some((y, ys)) = right.split_first() else {
                return false;
            };
            match x.cmp(y) {
                Ordering::Less => left = xs,
                Ordering::Equal => return true,
                Ordering::Greater => right = ys,
            }
        }
        false
    }

    /// The item at an index, None exactly past the end. Takes constant time.
    pub fn at(&self, index: u32) -> Option<&Item>
        ensures { MatchOption result (length self.now ≤ index) (λ item. slice_get self.now index ≡ Some item.now) }
    {
        self.items.get(index as usize)
    }

    /// The items, ascending.
    pub fn as_slice(&self) -> &[Item]
        ensures items { result.now ≡ self.now }
        ensures ascend { Ascend self.now }
    {
        &self.items
    }

    /// The items, ascending.
    pub fn iter(&self) -> Iter<'_, Item>
        ensures rest { iter_rest result ≡ self.now }
        ensures runs { IterYieldsInOrder Item }
    {
        self.items.iter()
    }

    /// The number of items.
    pub fn len(&self) -> usize
        ensures { result ≡ length self.now }
    {
        self.items.len()
    }
}
