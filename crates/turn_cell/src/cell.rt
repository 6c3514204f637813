// The cell and its calls.
ghost use Rattle.std.specs.Prelude.{◌≡◌, ℕ, ◌+◌, ◌^◌, ◌<◌, ◌≤◌, ◌⊎◌, List, [], ◌∷◌, ◌++◌, length, IfOk, Option, None};
ghost use mathlib.Core.List.{IsPrefix};
ghost use Rattle.turn_cell.specs.declared.view.Stage.TheVariants.{Idle, Waiting, Acting};
ghost use Rattle.turn_cell.specs.Turning.{AllBelow, waiting, acting, idle};

use crate::behaviour::Behaviour;
use crate::plays::{Draw, Look, Meet, Pair, PassOn, Twin, Watch};
use crate::view::View;
use atomic_table::{Seat, Table, TableRule};
use gr_ids::Memory;
use std::alloc::Global;
use std::marker::PhantomData;
use std::sync::Wait;
use std::thread;

// The word that counts the tickets drawn, and the word of the number served.
const TICKET: usize = 0;

const SERVING: usize = 1;

// No ticket is drawn from this number on, and no turn is handed out from that one on, so no count wraps.
const MOST_TICKETS: u64 = 1 << 62;

const MOST_TURNS: u64 = 1 << 50;

/// The rule of the turn, which holds between any two atomic steps (`specs/Turning.antt`).
pub struct Turns<B> {
    of: PhantomData<B>,
}

impl<B: Behaviour> TableRule<Option<B>, View<B::Act, B::Reply>, ()> for Turns<B> {
    ghost use Rattle.turn_cell.specs.Turning.{Turning, idle};
    ghost use Rattle.std.specs.Prelude.{[]};

    ghost holds = { λ _. Turning B.stands };

    ghost first = { λ _. idle [] [] };
}

/// A lock over an object, whose turns extend one history.
#[derive(Drop)]
pub struct TurnCell<B: Behaviour> {
    table: Table<Option<B>, View<B::Act, B::Reply>, (), Turns<B>, Global>,
    ghost counts: { (table.shared.table_id.words ≡ 2) × (table.shared.table_id.slots ≡ 1) },
}

/// What a caller knows of the history: a beginning of it, and which positions in it are its own turns. It takes no memory.
/// It may be dropped, as closures that carry it to threads have to be.
#[derive(Drop)]
pub struct Pass<B: Behaviour> {
    seat: Seat<Option<B>, View<B::Act, B::Reply>>,
    ghost idle: { (seat.me.0.stage ≡ Idle) × (seat.me.1 ≡ []) },
    ghost own: { AllBelow (length seat.me.0.seen) seat.me.0.mine },
}

/// The seat of a caller that has the turn, with the slot, which is empty.
#[derive(Drop)]
pub struct Place<B: Behaviour> {
    seat: Seat<Option<B>, View<B::Act, B::Reply>>,
    ghost acting: { (seat.me.0.stage ≡ Acting) × (seat.me.1 ≡ (0, None) ∷ []) × (length seat.me.0.seen < 2 ^ 50) },
    ghost own: { AllBelow (length seat.me.0.seen) seat.me.0.mine },
}

/// The turn of a caller. It can't be dropped: end it by `leave`.
pub struct Turn<B: Behaviour> {
    place: Place<B>,
    pub(crate) state: B,
}

impl<B: Behaviour> TurnCell<B> {
    /// A cell over a state that stands for the empty history, and a pass that has seen nothing.
    pub fn new(alloc: Global, state: B) -> Result<(TurnCell<B>, Pass<B>), Memory>
    where
        B: Drop,
        requires { B.stands state [] }
        ensures { IfOk result (λ r. (r.1.seat.table_id ≡ r.0.table.shared.table_id) × (r.1.seat.me.0.seen ≡ []) × (r.1.seat.me.0.mine ≡ [])) }
    {
        let mut slots = Vec::new(alloc);
        slots.push(Some(state))?;
        match Table::new(alloc, &[0, 0], slots, &()) {
            Ok((table, seat)) => Ok((TurnCell { table }, Pass { seat })),
            Err(_) => Err(Memory),
        }
    }

    // Draws the next ticket. The first number is a guess; an exchange that fails tells the number.
    fn draw<R: Wait>(&self, rt: &R, seat: &mut Seat<Option<B>, View<B::Act, B::Reply>>) -> u64
        requires own { seat.old.table_id ≡ self.now.table.shared.table_id }
        requires idle { (seat.old.me.0.stage ≡ Idle) × (seat.old.me.1 ≡ []) }
        ensures same { (seat.new.table_id ≡ seat.old.table_id) × (seat.new.id ≡ seat.old.id) }
        ensures drawn { seat.new.me ≡ (waiting result seat.old.me.0.seen seat.old.me.0.mine, []) }
    {
        let mut next = 0;
        for _ in rt.forever() {
            if next < MOST_TICKETS {
                let shared = &self.table.shared;
                let found = shared.compare_exchange::<Draw>(seat, TICKET, next, next + 1);
                if found == next {
                    return next;
                }
                next = found;
            } else {
                thread::yield_now();
            }
        }
        unreachable!()
    }

    // Waits until the ticket is served, and takes the state.
    fn reach<R: Wait>(
        &self,
        rt: &R,
        seat: &mut Seat<Option<B>, View<B::Act, B::Reply>>,
        ticket: u64,
    ) -> B
        requires own { seat.old.table_id ≡ self.now.table.shared.table_id }
        requires waits { seat.old.me ≡ (waiting ticket seat.old.me.0.seen seat.old.me.0.mine, []) }
        ensures same { (seat.new.table_id ≡ seat.old.table_id) × (seat.new.id ≡ seat.old.id) × (seat.new.me.0.mine ≡ seat.old.me.0.mine) }
        ensures acts { (seat.new.me.0.stage ≡ Acting) × (seat.new.me.1 ≡ (0, None) ∷ []) × (length seat.new.me.0.seen < 2 ^ 50) }
        ensures seen { IsPrefix seat.old.me.0.seen seat.new.me.0.seen }
        ensures stands { B.stands result seat.new.me.0.seen }
    {
        for _ in rt.forever() {
            if ticket < MOST_TURNS {
                let serving = self.table.shared.load::<Look>(seat, SERVING);
                if serving == ticket {
                    return self.table.shared.exchange(seat, 0, None).unwrap();
                }
            }
            thread::yield_now();
        }
        unreachable!()
    }

    /// Waits for a turn. The history then begins with all that the pass had seen.
    pub fn enter<R: Wait>(&self, rt: &R, pass: Pass<B>) -> Turn<B>
        requires { pass.seat.table_id ≡ self.now.table.shared.table_id }
        ensures same { (result.place.seat.table_id ≡ pass.seat.table_id) × (result.place.seat.me.0.mine ≡ pass.seat.me.0.mine) }
        ensures seen { IsPrefix pass.seat.me.0.seen result.place.seat.me.0.seen }
        ensures stands { B.stands result.state result.place.seat.me.0.seen }
    {
        let Pass { mut seat } = pass;
        let ticket = self.draw(rt, &mut seat);
        let state = self.reach(rt, &mut seat, ticket);
        Turn {
            place: Place { seat },
            state,
        }
    }

    /// Ends a turn whose state stands for the history and one more entry. Waits for nobody and takes no memory.
    pub fn leave(&self, turn: Turn<B>) -> Pass<B>
        requires own { turn.place.seat.table_id ≡ self.now.table.shared.table_id }
        requires entry { (e : B.Act × B.Reply) × B.stands turn.state (turn.place.seat.me.0.seen ++ e ∷ []) }
        ensures same { result.seat.table_id ≡ turn.place.seat.table_id }
        ensures entry { (e : B.Act × B.Reply) × B.stands turn.state (turn.place.seat.me.0.seen ++ e ∷ []) × (result.seat.me.0.seen ≡ turn.place.seat.me.0.seen ++ e ∷ []) }
        ensures mine { result.seat.me.0.mine ≡ turn.place.seat.me.0.mine ++ length turn.place.seat.me.0.seen ∷ [] }
    {
        let Turn { place, state } = turn;
        let Place { mut seat } = place;
        match self.table.shared.exchange(&mut seat, 0, Some(state)) {
            None => {}
            Some(_) => unreachable!(),
        }
        self.table.shared.fetch_add::<PassOn>(&mut seat, SERVING, 1);
        Pass { seat }
    }

    /// The length of the history, which the pass has then seen. Waits for nobody and takes no memory: one atomic load.
    pub fn front(&self, pass: &mut Pass<B>) -> u64
        requires { pass.old.seat.table_id ≡ self.now.table.shared.table_id }
        ensures same { (pass.new.seat.table_id ≡ pass.old.seat.table_id) × (pass.new.seat.me.0.mine ≡ pass.old.seat.me.0.mine) }
        ensures seen { IsPrefix pass.old.seat.me.0.seen pass.new.seat.me.0.seen × (result ≡ length pass.new.seat.me.0.seen) }
    {
        self.table.shared.load::<Watch>(&mut pass.seat, SERVING)
    }

    /// Waits for its turn, and hands the state out. Join all passes first, so that its history begins with what each had seen.
    pub fn close<R: Wait>(self, rt: &R, pass: Pass<B>) -> B
    where
        B: Drop,
        requires { pass.seat.table_id ≡ self.table.shared.table_id }
        ensures { (h : List (B.Act × B.Reply)) × IsPrefix pass.seat.me.0.seen h × B.stands result h }
    {
        let Turn { place: _, state } = self.enter(rt, pass);
        state
    }
}

impl<B: Behaviour> Pass<B> {
    /// A second pass, which has seen as much and has no turn of its own. Waits for nobody and takes no memory.
    pub fn split(self, cell: &TurnCell<B>) -> (Pass<B>, Pass<B>)
        requires { self.seat.table_id ≡ cell.now.table.shared.table_id }
        ensures first { (result.0.seat.table_id ≡ self.seat.table_id) × (result.0.seat.me.0.seen ≡ self.seat.me.0.seen) × (result.0.seat.me.0.mine ≡ self.seat.me.0.mine) }
        ensures second { (result.1.seat.table_id ≡ self.seat.table_id) × (result.1.seat.me.0.seen ≡ self.seat.me.0.seen) × (result.1.seat.me.0.mine ≡ []) }
    {
        let Pass { mut seat } = self;
        let other = cell.table.shared.split_seat::<Twin>(&mut seat);
        (Pass { seat }, Pass { seat: other })
    }

    /// One pass of two: it has seen the longer of what they had, which both begin, and has the turns of both.
    /// Waits for nobody and takes no memory.
    pub fn join(self, other: Pass<B>, cell: &TurnCell<B>) -> Pass<B>
        requires { (self.seat.table_id ≡ cell.now.table.shared.table_id) × (other.seat.table_id ≡ cell.now.table.shared.table_id) }
        ensures same { result.seat.table_id ≡ self.seat.table_id }
        ensures longer { (result.seat.me.0.seen ≡ self.seat.me.0.seen) ⊎ (result.seat.me.0.seen ≡ other.seat.me.0.seen) }
        ensures seen { IsPrefix self.seat.me.0.seen result.seat.me.0.seen × IsPrefix other.seat.me.0.seen result.seat.me.0.seen }
        ensures mine { result.seat.me.0.mine ≡ self.seat.me.0.mine ++ other.seat.me.0.mine }
    {
        let Pass { mut seat } = self;
        let Pass { seat: second } = other;
        cell.table.shared.join_seat::<Pair>(&mut seat, second);
        cell.table.shared.load::<Meet>(&mut seat, SERVING);
        Pass { seat }
    }
}
