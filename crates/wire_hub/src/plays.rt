// The kinds of step of a mailbox, and what each tells its caller.
use crate::letter::Letter;
use crate::view::View;
use crossbeam_queue::protocol::{Join, Lesson, Outcome, Protocol, Split};
use gr_ids::Inc;
use std::marker::{Brand, PhantomData};

/// The rule of a mailbox (`specs/Posts.antt`).
pub struct Posts;

impl Protocol<Letter, View> for Posts {
    ghost use Rattle.std.specs.Prelude.{[]};
    ghost use Rattle.wire_hub.specs.Posts.{Posted, taker, no_one};

    ghost holds = { Posted };

    ghost first = { taker no_one [] [] [] };
}

/// A name that a call picks.
pub trait Named {
    ghost use Rattle.gr_ids.specs.declared.names.Inc.{Inc};

    ghost name: { Inc };
}

impl Named for Brand {
    ghost name = { record { server = 0; start = 0 } };
}

/// A letter is put.
pub struct Sent;

impl Outcome<Letter, View> for Sent {
    ghost use Rattle.wire_hub.specs.Posts.{sent};

    ghost then = { sent };
}

/// A letter is taken, or the mailbox is empty.
pub struct Taken;

impl Outcome<Letter, View> for Taken {
    ghost use Rattle.wire_hub.specs.Posts.{taken};

    ghost then = { taken };
}

impl Lesson<Letter, View> for Taken {
    ghost use Rattle.wire_hub.specs.Posts.{emptied};

    ghost fact = { emptied };
}

/// A sender learns that what it was told of its own letters begins what it has sent.
pub struct Owned;

impl Lesson<Letter, View> for Owned {
    ghost use Rattle.wire_hub.specs.Posts.{owned};

    ghost fact = { owned };
}

/// A new mailbox gets its owner.
pub struct Owning<J> {
    of: PhantomData<J>,
}

impl<J: Named> Split<View> for Owning<J> {
    ghost use Rattle.std.specs.Prelude.{[]};
    ghost use Rattle.wire_hub.specs.Posts.{owning, note};

    ghost left = { owning J.name };

    ghost right = { λ v. note [] };
}

/// The taker makes the pass of a sender.
pub struct Making<J> {
    of: PhantomData<J>,
}

impl<J: Named> Split<View> for Making<J> {
    ghost use Rattle.wire_hub.specs.Posts.{making, newcomer};

    ghost left = { making J.name };

    ghost right = { newcomer J.name };
}

/// The taker writes down what it took of one sender.
pub struct ToldOf<J> {
    of: PhantomData<J>,
}

impl<J: Named> Split<View> for ToldOf<J> {
    ghost use Rattle.wire_hub.specs.Posts.{told_of};

    ghost left = { λ v. v };

    ghost right = { told_of J.name };
}

/// A sender writes down what it sent.
pub struct ToldOwn;

impl Split<View> for ToldOwn {
    ghost use Rattle.wire_hub.specs.Posts.{told_own};

    ghost left = { λ v. v };

    ghost right = { told_own };
}

/// A pass hears what was written down.
pub struct Hears;

impl Join<View> for Hears {
    ghost use Rattle.std.specs.Prelude.{[]};
    ghost use Rattle.wire_hub.specs.Posts.{hears, note};

    ghost both = { hears };

    ghost spent = { note [] };
}
