// The index of the letters that may still be delivered.
ghost use Rattle.std.specs.Prelude.{◌≡◌, ◌≤◌, ◌<◌, ◌+◌, ◌^◌, ◌++◌, ◌∷◌, [], None, Some, true, length, List, IfOk, OnErr, OnOk};
ghost use Rattle.std.specs.List.{slice_get};
ghost use Rattle.group_rules.specs.Script.{Letter as Sent};
ghost use Rattle.world_wire.specs.Lanes.{IsIndex, LaneOf, is_between, next_in, next_of_lane};
ghost use Rattle.world_wire.specs.Nexts.{lower as lower_of};

use crate::lane::Lane;
use crate::letter::Letter;
use gr_ids::{Inc, Memory};
use std::alloc::Global;
use std::marker::Model;

/// For each pair of a server and an incarnation the letters that may still be delivered.
#[derive(Debug, Drop)]
pub(crate) struct Lanes {
    lanes: Vec<Lane>,
}

impl Model for Lanes {
    ghost use Rattle.std.specs.Prelude.{List};
    ghost use Rattle.world_wire.specs.Lanes.{LaneOf};

    ghost Value = { List LaneOf };

    ghost view = { λ l. l.lanes.items };
}

impl Lanes {
    /// Takes no memory.
    pub(crate) fn new(alloc: Global) -> Lanes
        ensures { result ≡ [] }
    {
        Lanes {
            lanes: Vec::new(alloc),
        }
    }

    /// The next letter that is sent comes in. Linear in the pairs. Where memory is refused no letter is missing.
    pub(crate) fn put(&mut self, alloc: Global, letter: &Letter, index: usize) -> Result<(), Memory>
        ensures ok { OnOk result ((xs : List Sent) → length xs ≡ index → IsIndex self.old xs → IsIndex self.new (xs ++ letter.now ∷ [])) }
        ensures err { OnErr result ((xs : List Sent) → length xs ≤ index → IsIndex self.old xs → IsIndex self.new xs) }
    {
        let at = self.lane_of(alloc, letter.to(), letter.from())?;
        self.lanes[at].put(index)
    }

    /// These letters are sent, the first one with this index. Where memory is refused no letter is missing.
    pub(crate) fn put_all(
        &mut self,
        alloc: Global,
        letters: &[Letter],
        first: usize,
    ) -> Result<(), Memory>
        requires { first + length letters.now < 2 ^ 64 }
        ensures ok { OnOk result ((xs : List Sent) → length xs ≡ first → IsIndex self.old xs → IsIndex self.new (xs ++ letters.now)) }
        ensures err { OnErr result ((xs : List Sent) → length xs ≡ first → IsIndex self.old xs → IsIndex self.new xs) }
    {
        for (at, letter) in letters.iter().enumerate() {
            self.put(alloc, letter, first + at)?;
        }
        Ok(())
    }

    // The index of the pair's lane, which is there afterwards.
    fn lane_of(&mut self, alloc: Global, to: Inc, from: u8) -> Result<usize, Memory>
        ensures at { IfOk result (λ at. (l : LaneOf) × (slice_get self.new at ≡ Some l) × (is_between to from l ≡ true)) }
        ensures same { (xs : List Sent) → IsIndex self.old xs → IsIndex self.new xs }
    {
        let at = index_of(&self.lanes, to, from);
        if at < self.lanes.len() {
            return Ok(at);
        }
        self.lanes.push(Lane::new(alloc, to, from))?;
        Ok(at)
    }

    /// In the lane of this pair the letters in front that are delivered or lost go.
    pub(crate) fn drop_closed(&mut self, letters: &[Letter], to: Inc, from: u8)
        ensures { IsIndex self.old letters.now → IsIndex self.new letters.now }
    {
        let at = index_of(&self.lanes, to, from);
        if at < self.lanes.len() {
            self.lanes[at].drop_closed(letters);
            self.drop_empty(at);
        }
    }

    // The lane with this index goes, where it is empty.
    fn drop_empty(&mut self, at: usize)
        ensures { (xs : List Sent) → IsIndex self.old xs → IsIndex self.new xs }
    {
        if at < self.lanes.len() && self.lanes[at].is_empty() {
            self.lanes.remove(at);
        }
    }

    /// The least letter that is next. It looks at each lane that is served, and there at the letters in front.
    pub(crate) fn first_next(
        &self,
        letters: &[Letter],
        among: &[u8],
        running: &[Inc],
    ) -> Option<usize>
        ensures { result ≡ next_in among.now running.now letters.now None self.now }
    {
        let mut least = None;
        for lane in &self.lanes {
            least = lower(least, next_of(lane, letters, among, running));
        }
        least
    }
}

fn index_of(lanes: &[Lane], to: Inc, from: u8) -> usize
    ensures within { result ≤ length lanes.now }
    ensures at { (l : LaneOf) → slice_get lanes.now result ≡ Some l → is_between to from l ≡ true }
{
    for (at, lane) in lanes.iter().enumerate() {
        if lane.is_between(to, from) {
            return at;
        }
    }
    lanes.len()
}

fn next_of(lane: &Lane, letters: &[Letter], among: &[u8], running: &[Inc]) -> Option<usize>
    ensures { result ≡ next_of_lane among.now running.now letters.now lane.now }
{
    if !lane.is_served(among, running) {
        return None;
    }
    lane.first_next(letters, among, running)
}

fn lower(one: Option<usize>, other: Option<usize>) -> Option<usize>
    ensures { result ≡ lower_of one other }
{
    match (one, other) {
        (None, other) => other,
        (Some(one), None) => Some(one),
        (Some(one), Some(other)) => Some(if other < one { other } else { one }),
    }
}
