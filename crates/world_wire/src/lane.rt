// The letters of one pair that may still be delivered.
ghost use Rattle.std.specs.Prelude.{◌≡◌, ◌↔◌, [], IsTrue, not, true, nat_lt, OnErr, OnOk};
ghost use Rattle.std.specs.List.{find, list_all, slice_get};
ghost use Rattle.world_wire.specs.Lanes.{cut_at, dropped_in, is_between as is_lane_between, opens, put_at, rises};
ghost use Rattle.world_wire.specs.Nexts.{is_next_at, serves as serves_between};

use crate::letter::{Letter, serves};
use gr_ids::{Inc, Memory};
use std::alloc::Global;
use std::collections::VecDeque;
use std::marker::Model;

/// The letters from a server to an incarnation that may still be delivered, by their indexes, ascending.
#[derive(Debug, Drop)]
pub(crate) struct Lane {
    to: Inc,
    from: u8,
    indexes: VecDeque<usize>,
}

impl Model for Lane {
    ghost use Rattle.world_wire.specs.Lanes.{LaneOf};

    ghost Value = { LaneOf };

    ghost view = { λ l. record { to = l.to; from = l.from; indexes = l.indexes.items } };
}

impl Lane {
    pub(crate) fn new(alloc: Global, to: Inc, from: u8) -> Lane
        ensures { result ≡ record { to = to; from = from; indexes = [] } }
    {
        Lane {
            to,
            from,
            indexes: VecDeque::new(alloc),
        }
    }

    pub(crate) fn is_between(&self, to: Inc, from: u8) -> bool
        ensures { result ≡ is_lane_between to from self.now }
    {
        self.to == to && self.from == from
    }

    pub(crate) fn is_served(&self, among: &[u8], running: &[Inc]) -> bool
        ensures { result ≡ serves_between among.now running.now self.now.from self.now.to }
    {
        serves(among, running, self.from, self.to)
    }

    pub(crate) fn is_empty(&self) -> bool
        ensures { IsTrue result ↔ (self.now.indexes ≡ []) }
    {
        self.indexes.is_empty()
    }

    /// The letter comes behind the others. What is left of letters with its index or a higher one, which weren't sent, goes.
    pub(crate) fn put(&mut self, index: usize) -> Result<(), Memory>
        ensures ok { OnOk result (rises self.old.indexes ≡ true → self.new ≡ put_at index self.old) }
        ensures err { OnErr result (rises self.old.indexes ≡ true → self.new ≡ cut_at index self.old) }
    {
        self.cut(index);
        self.indexes.push_back(index)?;
        Ok(())
    }

    fn cut(&mut self, index: usize)
        ensures { rises self.old.indexes ≡ true → self.new ≡ cut_at index self.old }
    {
        if self.reaches(index) {
            self.indexes.retain(|one| *one < index);
        }
    }

    fn reaches(&self, index: usize) -> bool
        ensures { rises self.now.indexes ≡ true → result ≡ not (list_all (λ j. nat_lt j index) self.now.indexes) }
    {
        match self.indexes.back() {
            Some(last) => *last >= index,
            None => false,
        }
    }

    /// Those in front that are delivered or lost go.
    pub(crate) fn drop_closed(&mut self, letters: &[Letter])
        ensures { self.new ≡ dropped_in letters.now self.old }
    {
        while let Some(index) = self.indexes.front() {
            if is_open_at(letters, *index) {
                return;
            }
            self.indexes.pop_front();
        }
    }

    /// The least one that is next.
    pub(crate) fn first_next(
        &self,
        letters: &[Letter],
        among: &[u8],
        running: &[Inc],
    ) -> Option<usize>
        ensures { result ≡ find (is_next_at among.now running.now letters.now) self.now.indexes }
    {
        for at in 0..self.indexes.len() {
            let index = self.indexes[at];
            if is_letter_next(letters, index, among, running) {
                return Some(index);
            }
        }
        None
    }
}

fn is_open_at(letters: &[Letter], index: usize) -> bool
    ensures { result ≡ opens (slice_get letters.now index) }
{
    match letters.get(index) {
        Some(letter) => letter.is_open(),
        None => false,
    }
}

fn is_letter_next(letters: &[Letter], index: usize, among: &[u8], running: &[Inc]) -> bool
    ensures { result ≡ is_next_at among.now running.now letters.now index }
{
    match letters.get(index) {
        Some(letter) => letter.is_next(among, running),
        None => false,
    }
}
