// The kinds of atomic step, and what each tells its caller.
use crate::behaviour::Behaviour;
use crate::view::View;
use atomic_table::{Join, Play, Split};

/// A ticket is drawn where the number found is the one expected.
pub struct Draw;

impl<B, A, R> Play<Option<B>, View<A, R>> for Draw {
    ghost use Rattle.turn_cell.specs.Turning.{drew};

    ghost then = { drew };
}

/// A seat in no call looks at the number served: so long is the history that it has then seen.
pub struct Watch;

impl<B, A, R> Play<Option<B>, View<A, R>> for Watch {
    ghost use Rattle.turn_cell.specs.Turning.{watched};

    ghost then = { watched };
}

/// A waiting seat looks at the number served. Where it is its ticket, it has the turn and takes the slot.
pub struct Look;

impl<B: Behaviour> Play<Option<B>, View<B::Act, B::Reply>> for Look {
    ghost use Rattle.turn_cell.specs.Turning.{looked};

    ghost then = { looked B.stands };
}

/// The turn ends: the history has one entry more, and the slot is at home again.
pub struct PassOn;

impl<B: Behaviour> Play<Option<B>, View<B::Act, B::Reply>> for PassOn {
    ghost use Rattle.turn_cell.specs.Turning.{passed};

    ghost then = { passed B.stands };
}

/// A seat that was just joined looks at the number served: both histories that were seen begin the longer.
pub struct Meet;

impl<B, A, R> Play<Option<B>, View<A, R>> for Meet {
    ghost use Rattle.turn_cell.specs.Turning.{met};

    ghost then = { met };
}

/// A seat is split: the second has seen as much and has no turn of its own.
pub struct Twin;

impl<A, R> Split<View<A, R>> for Twin {
    ghost use Rattle.turn_cell.specs.Turning.{newcomer};

    ghost left = { λ v. v };

    ghost right = { newcomer };
}

/// Two seats are joined.
pub struct Pair;

impl<A, R> Join<View<A, R>> for Pair {
    ghost use Rattle.turn_cell.specs.Turning.{meeting, spent};

    ghost both = { meeting };

    ghost spent = { spent };
}
