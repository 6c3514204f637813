// The mailboxes of a group.
ghost use Rattle.std.specs.Prelude.{◌≡◌, ◌<◌, ℕ, true, [], ◌∷◌, ◌++◌, Some, OnOk, IfErr, MatchOption, slice_get, slice_set, slice_index_or};
ghost use Rattle.gr_ids.specs.Names.{has_inc};
ghost use Rattle.wire_hub.specs.Posts.{TrueOf};
ghost use Rattle.wire_hub.specs.Passes.{IsSendPassOf, IsTakePassOf, sent_to, sent_at, got, told};

use crate::letter::Letter;
use crate::passes::{Hub, SendPass, TakePass};
use gr_ids::Inc;
use std::sync::Wait;

impl Hub {
    /// The members, in order.
    pub fn members(&self) -> &[Inc]
        ensures { result.now ≡ self.now.members.items }
    {
        &self.members
    }

    // The place of a member.
    fn place_of(&self, to: Inc) -> usize
        requires { has_inc self.now.members.items to ≡ true }
        ensures { slice_get self.now.members.items result ≡ Some to }
    {
        for (place, member) in self.members.iter().enumerate() {
            if *member == to {
                return place;
            }
        }
        unreachable!()
    }

    /// Puts the letter into the mailbox of `letter.to`, behind all others there. It comes back where memory is refused (or, which no
    /// run reaches, after nearly 2^62 letters to one mailbox); then nothing was sent. Linear in the members.
    pub fn send<R: Wait>(&self, rt: &R, pass: &mut SendPass, letter: Letter) -> Result<(), Letter>
        requires own { IsSendPassOf self.now pass.old }
        requires from { letter.from ≡ pass.old.name }
        requires to { has_inc self.now.members.items letter.to ≡ true }
        requires index { pass.old.last < letter.index }
        ensures same { IsSendPassOf self.now pass.new × (pass.new.name ≡ pass.old.name) }
        ensures sent { OnOk result ((k : ℕ) × (slice_get self.now.members.items k ≡ Some letter.to) × (sent_to pass.new ≡ slice_set (sent_to pass.old) k (sent_at pass.old k ++ letter ∷ []))) }
        ensures last { OnOk result (pass.new.last ≡ letter.index) }
        ensures back { IfErr result (λ x. (x ≡ letter) × (sent_to pass.new ≡ sent_to pass.old) × (pass.new.last ≡ pass.old.last)) }
    {
        let place = self.place_of(letter.to);
        let index = letter.index;
        match self.boxes[place].put(rt, &mut pass.ports[place], letter) {
            Ok(()) => {
                pass.last = index;
                Ok(())
            }
            Err(back) => Err(back),
        }
    }

    /// Takes the first letter of the mailbox. It is addressed to the member, and a member sent it. None only where the mailbox was
    /// empty at a moment of this call, so that all that the pass was told of was taken.
    pub fn take<R: Wait>(&self, rt: &R, pass: &mut TakePass) -> Option<Letter>
        requires { IsTakePassOf self.now pass.old }
        ensures same { IsTakePassOf self.now pass.new × (pass.new.at ≡ pass.old.at) × (told pass.new ≡ told pass.old) }
        ensures taken { MatchOption result ((got pass.new ≡ got pass.old) × TrueOf (got pass.old) (told pass.old)) (λ x. (got pass.new ≡ got pass.old ++ x ∷ []) × (slice_get self.now.members.items pass.old.at ≡ Some x.to) × (has_inc self.now.members.items x.from ≡ true)) }
    {
        self.boxes[pass.at].take(rt, pass)
    }

    /// Tells the taker of all that the sender has sent to it: a `take` that then answers None has taken all of it.
    /// Waits for nobody and takes no memory.
    pub fn tell(&self, send: &mut SendPass, take: &mut TakePass)
        requires own { IsSendPassOf self.now send.old × IsTakePassOf self.now take.old }
        ensures sender { IsSendPassOf self.now send.new × (send.new.name ≡ send.old.name) × (send.new.last ≡ send.old.last) × (sent_to send.new ≡ sent_to send.old) }
        ensures taker { IsTakePassOf self.now take.new × (take.new.at ≡ take.old.at) × (got take.new ≡ got take.old) }
        ensures told { told take.new ≡ told take.old ++ record { name = send.old.name; letters = sent_at send.old take.old.at } ∷ [] }
    {
        let place = take.at;
        self.boxes[place].tell(&mut send.ports[place], take);
    }
}
