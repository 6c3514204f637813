// One mailbox: each call is one step of its queue, or two.
ghost use Rattle.std.specs.Prelude.{◌≡◌, ◌<◌, true, false, [], IfOk, MatchResult, MatchOption};
ghost use mathlib.Core.List.{IsPrefix};
ghost use Rattle.gr_ids.specs.Names.{has_inc};
ghost use Rattle.crossbeam_queue.specs.SegTies.{IsSegPassOf};
ghost use Rattle.wire_hub.specs.declared.view.Role.TheVariants.{Taker};
ghost use Rattle.wire_hub.specs.Letters.{of, last_index};
ghost use Rattle.wire_hub.specs.Posts.{taker, with_letter, owning, making, newcomer, told_of, told_own, hears, TrueOf};

use crate::letter::Letter;
use crate::passes::{Line, Mailbox, Port, Seat, TakePass};
use crate::plays::{Hears, Making, Named, Owned, Owning, Sent, Taken, ToldOf, ToldOwn};
use gr_ids::{Inc, Memory};
use std::alloc::Global;
use std::marker::Brand;
use std::sync::Wait;

// The new queue gets its owner.
fn name_owner<J: Named>(line: &Line, seat: &mut Seat, owner: Inc)
    requires name { J.name ≡ owner }
    requires new { IsSegPassOf line.now seat.old × (seat.old.me.view.client.role ≡ Taker) × (seat.old.me.view.client.senders ≡ []) }
    ensures { IsSegPassOf line.now seat.new × (seat.new.me.view.client ≡ owning owner seat.old.me.view.client) }
{
    line.another::<Owning<J>>(seat);
}

// The taker makes the pass of a sender.
fn name_sender<J: Named>(line: &Line, seat: &mut Seat, name: Inc) -> Seat
    requires name { J.name ≡ name }
    requires room { IsSegPassOf line.now seat.old × (seat.old.me.view.client.role ≡ Taker) × (has_inc seat.old.me.view.client.senders name ≡ false) }
    ensures taker { IsSegPassOf line.now seat.new × (seat.new.me.view.client ≡ making name seat.old.me.view.client) }
    ensures sender { IsSegPassOf line.now result × (result.me.view.client ≡ newcomer name seat.old.me.view.client) }
{
    line.another::<Making<J>>(seat)
}

// The taker writes down what it took of one sender.
fn name_told<J: Named>(line: &Line, seat: &mut Seat, name: Inc) -> Seat
    requires name { J.name ≡ name }
    requires taker { IsSegPassOf line.now seat.old × (seat.old.me.view.client.role ≡ Taker) }
    ensures taker { IsSegPassOf line.now seat.new × (seat.new.me.view.client ≡ seat.old.me.view.client) }
    ensures note { IsSegPassOf line.now result × (result.me.view.client ≡ told_of name seat.old.me.view.client) }
{
    line.another::<ToldOf<J>>(seat)
}

impl Mailbox {
    // An empty mailbox, and the pass of its owner, who is the member at `at`.
    pub(crate) fn open(alloc: Global, owner: Inc, at: usize) -> Result<(Mailbox, TakePass), Memory>
        ensures { IfOk result (λ r. IsSegPassOf r.0.line r.1.seat × (r.1.at ≡ at) × (r.1.seat.me.view.client ≡ taker owner [] [] [])) }
    {
        let (line, mut seat) = Line::with_rule(alloc)?;
        name_owner::<Brand>(&line, &mut seat, owner);
        Ok((Mailbox { line }, TakePass { at, seat }))
    }

    // The pass of a sender that wasn't made yet.
    pub(crate) fn port(&self, take: &mut TakePass, name: Inc) -> Port
        requires { IsSegPassOf self.now.line take.old.seat × (has_inc take.old.seat.me.view.client.senders name ≡ false) }
        ensures taker { IsSegPassOf self.now.line take.new.seat × (take.new.at ≡ take.old.at) × (take.new.seat.me.view.client ≡ making name take.old.seat.me.view.client) }
        ensures sender { IsSegPassOf self.now.line result.seat × (result.seat.me.view.client ≡ newcomer name take.old.seat.me.view.client) }
    {
        let seat = name_sender::<Brand>(&self.line, &mut take.seat, name);
        Port { seat }
    }

    // Puts a letter behind all others.
    pub(crate) fn put<R: Wait>(&self, rt: &R, port: &mut Port, letter: Letter) -> Result<(), Letter>
        requires own { IsSegPassOf self.now.line port.old.seat }
        requires names { (letter.from ≡ port.old.seat.me.view.client.name) × (letter.to ≡ port.old.seat.me.view.client.owner) }
        requires index { last_index 0 port.old.seat.me.view.client.letters < letter.index }
        ensures same { IsSegPassOf self.now.line port.new.seat }
        ensures put { MatchResult result (λ _. port.new.seat.me.view.client ≡ with_letter port.old.seat.me.view.client letter) (λ back. (back ≡ letter) × (port.new.seat.me.view.client ≡ port.old.seat.me.view.client)) }
    {
        self.line.push_as::<Sent, R>(rt, &mut port.seat, letter)
    }

    // Takes the first letter. None only where the mailbox was empty at a moment of this call.
    pub(crate) fn take<R: Wait>(&self, rt: &R, take: &mut TakePass) -> Option<Letter>
        requires { IsSegPassOf self.now.line take.old.seat }
        ensures same { IsSegPassOf self.now.line take.new.seat × (take.new.at ≡ take.old.at) }
        ensures taken { MatchOption result ((take.new.seat.me.view.client ≡ take.old.seat.me.view.client) × TrueOf take.old.seat.me.view.client.letters take.old.seat.me.view.client.told) (λ x. (take.new.seat.me.view.client ≡ with_letter take.old.seat.me.view.client x) × (x.to ≡ take.old.seat.me.view.client.owner) × (has_inc take.old.seat.me.view.client.senders x.from ≡ true)) }
    {
        self.line.pop_as::<Taken, R>(rt, &mut take.seat)
    }

    // The taker is told of all that the sender has sent here.
    pub(crate) fn tell(&self, port: &mut Port, take: &mut TakePass)
        requires { IsSegPassOf self.now.line port.old.seat × IsSegPassOf self.now.line take.old.seat }
        ensures sender { IsSegPassOf self.now.line port.new.seat × (port.new.seat.me.view.client ≡ port.old.seat.me.view.client) }
        ensures taker { IsSegPassOf self.now.line take.new.seat × (take.new.at ≡ take.old.at) × (take.new.seat.me.view.client ≡ hears take.old.seat.me.view.client (told_own port.old.seat.me.view.client)) }
    {
        let note = self.line.another::<ToldOwn>(&mut port.seat);
        self.line.absorb::<Hears>(&mut take.seat, note);
    }

    // The sender is told of what was taken of its letters, and compares: it begins what it has sent here.
    pub(crate) fn compare<R: Wait>(&self, rt: &R, port: &mut Port, take: &mut TakePass, name: Inc)
        requires own { IsSegPassOf self.now.line port.old.seat × IsSegPassOf self.now.line take.old.seat }
        requires name { port.old.seat.me.view.client.name ≡ name }
        ensures sender { IsSegPassOf self.now.line port.new.seat × (port.new.seat.me.view.client ≡ hears port.old.seat.me.view.client (told_of name take.old.seat.me.view.client)) }
        ensures taker { IsSegPassOf self.now.line take.new.seat × (take.new.at ≡ take.old.at) × (take.new.seat.me.view.client ≡ take.old.seat.me.view.client) }
        ensures begins { IsPrefix (of name take.old.seat.me.view.client.letters) port.old.seat.me.view.client.letters }
    {
        let note = name_told::<Brand>(&self.line, &mut take.seat, name);
        self.line.absorb::<Hears>(&mut port.seat, note);
        self.line.len_as::<Owned, R>(rt, &mut port.seat);
    }
}
