// The last set that each incarnation told.
ghost use Rattle.std.specs.Prelude.{◌≡◌, [], ◌∷◌, ◌++◌, fold, IfOk, map, OnErr, OnOk};
ghost use Rattle.gr_ids.specs.declared.memory.Memory.{Memory};
ghost use Rattle.gtid_sets.specs.Sets.{has};
ghost use Rattle.group_rules.specs.Told.{set_or_empty, sets_of, stable_of, told_of, with_told};
ghost use Rattle.stable_set.specs.Entries.{ToldAscend, told_in};

use gr_ids::{Gtid, Inc, Memory, Sequence};
use gtid_sets::{GtidSet, ToldSet};
use std::alloc::Global;
use std::collections::BTreeMap;
use std::marker::Model;

/// For each incarnation that told its executed set, the last set that it told. Contracts see it as a list, ascending by incarnation.
#[derive(Debug, Drop)]
pub struct Told {
    sets: BTreeMap<Inc, GtidSet>,
}

impl Model for Told {
    ghost use Rattle.std.specs.Prelude.{List, map};
    ghost use Rattle.gtid_sets.specs.declared.told.ToldSet.{ToldSet};
    ghost use Rattle.stable_set.specs.Entries.{told_in};

    ghost Value = { List ToldSet };

    ghost view = { λ t. map told_in t.sets.entries };
}

impl Told {
    /// None has told a set; takes no memory.
    pub fn new(alloc: Global) -> Told
        ensures { result ≡ [] }
    {
        Told {
            sets: BTreeMap::new(alloc),
        }
    }

    /// The sets as a donor told of them, ascending by incarnation. Logarithmic in them, for each.
    pub fn restore(alloc: Global, sets: Sequence<ToldSet>) -> Result<Told, Memory>
        requires { ToldAscend sets }
        ensures { IfOk result (λ told. told ≡ sets) }
    {
        Ok(Told {
            sets: by_incarnation(alloc, sets.into_vec())?,
        })
    }

    /// The incarnation has told this set, which takes the place of the one that it told before. Logarithmic in the incarnations.
    pub fn told(&mut self, inc: Inc, set: GtidSet) -> Result<(), Memory>
        ensures ok { OnOk result (self.new ≡ with_told self.old (told_in (inc, set))) }
        ensures err { OnErr result (self.new ≡ self.old) }
    {
        self.sets.insert(inc, set)?;
        Ok(())
    }

    /// Whether the last set that the incarnation told has the GTID; it hasn't where none was told. Logarithmic in the incarnations and in
    /// the runs of that set; takes no memory.
    pub fn has(&self, inc: Inc, gtid: Gtid) -> bool
        ensures { result ≡ has (set_or_empty (told_of self.now inc)) gtid }
    {
        match self.sets.get(&inc) {
            Some(set) => set.contains(gtid),
            None => false,
        }
    }

    /// The stable set: what the last told sets of the ONLINE members have in common, one that told none counting as empty. It is empty
    /// where no member is ONLINE. The certification data of its transactions is kept no more (MySQL 8.0 Reference Manual, Group
    /// Replication: `COUNT_TRANSACTIONS_ROWS_VALIDATING`). Linear in the runs of these members' sets.
    pub fn stable(&self, alloc: Global, online: &[Inc]) -> Result<GtidSet, Memory>
        ensures { IfOk result (λ set. set ≡ stable_of self.now online.now) }
    {
        common(alloc, &self.sets, online)
    }

    /// The last set of each of these members that told one, in the order of these. Linear in the runs of their sets.
    pub fn sets(&self, alloc: Global, online: &[Inc]) -> Result<Sequence<ToldSet>, Memory>
        ensures { IfOk result (λ sets. sets ≡ sets_of self.now online.now) }
    {
        let mut sets = Vec::new(alloc);
        for inc in online {
            push_told(alloc, &mut sets, &self.sets, *inc)?;
        }
        Ok(Sequence::from_vec(sets))
    }
}

// The sets in a map; where an incarnation comes twice, the later set.
fn by_incarnation(alloc: Global, sets: Vec<ToldSet>) -> Result<BTreeMap<Inc, GtidSet>, Memory>
    ensures { IfOk result (λ told. map told_in told.entries ≡ fold with_told [] sets.items) }
{
    let mut told = BTreeMap::new(alloc);
    for set in sets {
        told.insert(set.inc, set.set)?;
    }
    Ok(told)
}

// What all of these have told.
fn common(alloc: Global, told: &BTreeMap<Inc, GtidSet>, online: &[Inc]) -> Result<GtidSet, Memory>
    ensures { IfOk result (λ set. set ≡ stable_of (map told_in told.now.entries) online.now) }
{
    match online {
        [] => Ok(GtidSet::new(alloc)),
        [only] => last_told(alloc, told, *only),
        [first, others @ ..] => {
            let rest = common(alloc, told, others)?;
            let set = last_told(alloc, told, *first)?;
            set.intersect(alloc, &rest)
        }
    }
}

// The last set that it told, and the empty one where it told none.
fn last_told(alloc: Global, told: &BTreeMap<Inc, GtidSet>, inc: Inc) -> Result<GtidSet, Memory>
    ensures { IfOk result (λ set. set ≡ set_or_empty (told_of (map told_in told.now.entries) inc)) }
{
    match told.get(&inc) {
        Some(set) => set.try_copy(alloc),
        None => Ok(GtidSet::new(alloc)),
    }
}

// Puts the last set that it told behind the others.
fn push_told(
    alloc: Global,
    to: &mut Vec<ToldSet>,
    told: &BTreeMap<Inc, GtidSet>,
    inc: Inc,
) -> Result<(), Memory>
    ensures { OnOk result (to.new.items ≡ to.old.items ++ sets_of (map told_in told.now.entries) (inc ∷ [])) }
{
    if let Some(set) = told.get(&inc) {
        to.push(ToldSet {
            inc,
            set: set.try_copy(alloc)?,
        })?;
    }
    Ok(())
}
