// What a donor gives.
ghost use Rattle.std.specs.Prelude.{◌≡◌, filter, IfErr, IfOk, IsSomeAnd, nat_lt, not, OnErr, OnOk, option_copied};
ghost use Rattle.std.specs.BTreeMap.{get};
ghost use Rattle.std.specs.Ordering.{nat_cmp};
ghost use Rattle.std.specs.List.{All, prefix_len};
ghost use Rattle.gr_ids.specs.declared.memory.Memory.{Memory};
ghost use Rattle.gtid_sets.specs.Sets.{has};
ghost use Rattle.donor_recovery.specs.declared.donor.GiveFault.TheVariants.{Memory as NoRoom};
ghost use Rattle.donor_recovery.specs.Donating.{HasNumber, IsGiveFault, at_place, give_from, give_made, gtids_given, is_by as is_by_place, marked, no_adds, with_given};

use crate::at_add::AtAdd;
use gr_ids::{Memory, Pos, Sequence};
use gtid_sets::GtidSet;
use paxos_forms::{Ask, Give, Given, TryCopy};
use std::alloc::Global;
use std::collections::BTreeMap;
use std::marker::Model;
use thiserror::Error;

/// What a member keeps for the joiners that may ask it: the data of each Add that it took, and the certified transactions
/// (MySQL 8.0 Reference Manual, Group Replication: Distributed Recovery).
#[derive(Debug, Drop)]
pub struct Donor {
    adds: BTreeMap<u64, AtAdd>,
    certified: Vec<Given>,
    // None of them is certified above this place.
    greatest: u64,
}

impl Model for Donor {
    ghost use Rattle.std.specs.Prelude.{map};
    ghost use Rattle.std.specs.List.{All};
    ghost use Rattle.donor_recovery.specs.Donating.{Donating, HasNumber, IsAtMost};
    ghost use Rattle.donor_recovery.specs.Inside.{add_in};

    ghost Value = { Donating };

    ghost view = { λ d. record { adds = map add_in d.adds.entries; certified = d.certified.items } };

    ghost invariant = { λ d. All HasNumber d.certified.items × IsAtMost d.greatest d.certified.items };
}

/// Why nothing is given.
#[derive(Clone, Copy, Debug, PartialEq, Eq, Error)]
pub enum GiveFault {
    /// No data of that place is kept.
    #[error("no data of an Add at this place is kept")]
    NotKept { place: Pos },
    /// Memory was refused.
    #[error("out of memory")]
    Memory,
}

impl From<Memory> for GiveFault {
    ghost from_gives = { λ _ e. e ≡ NoRoom };

    fn from(_: Memory) -> Self {
        GiveFault::Memory
    }
}

impl Donor {
    /// Nothing is kept yet; takes no memory.
    pub fn new(alloc: Global) -> Donor
        ensures { result ≡ no_adds }
    {
        Donor {
            adds: BTreeMap::new(alloc),
            certified: Vec::new(alloc),
            greatest: 0,
        }
    }

    /// An Add is taken with effect: what stands there is kept. Logarithmic in the Adds.
    pub fn mark(&mut self, at: AtAdd) -> Result<(), Memory>
        ensures ok { OnOk result (self.new ≡ marked at self.old) }
        ensures err { OnErr result (self.new ≡ self.old) }
    {
        self.adds.insert(key_of(at.place), at)?;
        Ok(())
    }

    /// A transaction is certified; they stand by ascending place. Where its place is the greatest so far, it takes constant time, seen over
    /// many, else it is linear in them.
    pub fn certified(&mut self, given: Given) -> Result<(), Memory>
        requires { HasNumber given }
        ensures ok { OnOk result (self.new ≡ record self.old { certified = with_given self.old.certified given }) }
        ensures err { OnErr result (self.new ≡ self.old) }
    {
        let place = key_of(given.place);
        if place < self.greatest {
            return insert_given(&mut self.certified, given);
        }
        self.certified.push(given)?;
        self.greatest = place;
        Ok(())
    }

    /// What a joiner is given: what stood at the place of its Add, and the certified transactions at or before it that its set lacks.
    /// Refused exactly where no data of that place is kept. Linear in what is certified and in what is given.
    pub fn give(&self, alloc: Global, ask: &Ask) -> Result<Give, GiveFault>
        ensures ok { IfOk result (λ give. IsSomeAnd (at_place self.now.adds ask.now.place) (λ at. give ≡ give_from at (filter (is_by_place ask.now.place) self.now.certified) ask.now.executed)) }
        ensures err { IfErr result (IsGiveFault self.now ask.now) }
    {
        let Some(at) = kept_at(&self.adds, ask.place) else {
            return Err(GiveFault::NotKept { place: ask.place });
        };
        let at = at.try_copy(alloc)?;
        let certified = certified_by(alloc, &self.certified, ask.place)?;
        let txns = lacking(alloc, &self.certified, ask.place, &ask.executed)?;
        Ok(give_with(ask.place, at, certified, txns))
    }
}

// Puts the transaction behind those that aren't above its place.
fn insert_given(certified: &mut Vec<Given>, given: Given) -> Result<(), Memory>
    ensures ok { OnOk result (certified.new.items ≡ with_given certified.old.items given) }
    ensures err { OnErr result (certified.new.items ≡ certified.old.items) }
{
    let at = place_behind(certified, given.place);
    certified.insert(at, given)?;
    Ok(())
}

// How many stand before the first one above the place.
fn place_behind(certified: &[Given], place: Pos) -> usize
    ensures { result ≡ prefix_len (λ g. not (nat_lt place g.place)) certified.now }
{
    for (k, given) in certified.iter().enumerate() {
        if place < given.place {
            return k;
        }
    }
    certified.len()
}

// What stood at the place, with what is certified and what is lacking.
fn give_with(place: Pos, at: AtAdd, certified: GtidSet, txns: Sequence<Given>) -> Give
    ensures { result ≡ give_made place at certified txns }
{
    Give {
        place,
        blocks: at.blocks,
        last: at.last,
        items: at.items,
        told: at.told,
        certified,
        txns,
        parts: at.parts,
    }
}

// The data of the Add at the place.
fn kept_at<'a>(adds: &'a BTreeMap<u64, AtAdd>, place: Pos) -> Option<&'a AtAdd>
    ensures { option_copied result ≡ get nat_cmp adds.now place }
{
    adds.get(&place.0)
}

// The key of a place in a map.
fn key_of(place: Pos) -> u64
    ensures { result ≡ place }
{
    place.0
}

// The GTIDs of the transactions certified at or before the place.
fn certified_by(alloc: Global, certified: &[Given], place: Pos) -> Result<GtidSet, Memory>
    requires { All HasNumber certified.now }
    ensures { IfOk result (λ set. set ≡ gtids_given (filter (is_by_place place) certified.now)) }
{
    let mut set = GtidSet::new(alloc);
    let mut at = certified.len();
    while at > 0 {
        at -= 1;
        let given = &certified[at];
        if is_by(given, place) {
            set.add(given.gtid)?;
        }
    }
    Ok(set)
}

// Copies of the transactions certified at or before the place that the set lacks.
fn lacking(
    alloc: Global,
    certified: &[Given],
    place: Pos,
    executed: &GtidSet,
) -> Result<Sequence<Given>, Memory>
    ensures { IfOk result (λ txns. txns ≡ filter (λ g. not (has executed.now g.gtid)) (filter (is_by_place place) certified.now)) }
{
    let mut txns = Vec::new(alloc);
    for given in certified {
        if is_by(given, place) && !executed.contains(given.gtid) {
            txns.push(given.try_copy(alloc)?)?;
        }
    }
    Ok(Sequence::from_vec(txns))
}

// Whether the transaction is certified at or before the place.
fn is_by(given: &Given, place: Pos) -> bool
    ensures { result ≡ is_by_place place given.now }
{
    given.place.0 <= place.0
}
