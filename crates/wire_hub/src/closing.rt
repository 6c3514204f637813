// A hub is closed: what each member took is compared with what the others sent.
ghost use Rattle.std.specs.Prelude.{◌≡◌, map};
ghost use Rattle.std.specs.List.{All};
ghost use Rattle.wire_hub.specs.Passes.{IsSendPassOf, IsTakePassOf, AreSent, what_of, sent_to, got};

use crate::passes::{Hub, SendPass, TakePass};
use std::sync::Wait;

impl Hub {
    // What was taken of this sender begins what it has sent there.
    fn compare<R: Wait>(&self, rt: &R, send: &mut SendPass, take: &mut TakePass)
        requires own { IsSendPassOf self.now send.old × IsTakePassOf self.now take.old }
        ensures sender { IsSendPassOf self.now send.new × (send.new.name ≡ send.old.name) × (sent_to send.new ≡ sent_to send.old) }
        ensures taker { IsTakePassOf self.now take.new × (take.new.at ≡ take.old.at) × (got take.new ≡ got take.old) }
        ensures begins { AreSent take.old send.old }
    {
        let place = take.at;
        let name = send.name;
        self.boxes[place].compare(rt, &mut send.ports[place], take, name);
    }

    // What was taken of all senders.
    fn compare_all<R: Wait>(&self, rt: &R, sends: &mut Vec<SendPass>, take: &mut TakePass)
        requires own { All (IsSendPassOf self.now) sends.old.items × IsTakePassOf self.now take.old }
        ensures senders { All (IsSendPassOf self.now) sends.new.items × (map what_of sends.new.items ≡ map what_of sends.old.items) }
        ensures begins { All (AreSent take.old) sends.old.items }
    {
        for place in 0..sends.len() {
            self.compare(rt, &mut sends[place], take);
        }
    }

    /// Ends the hub, and tells of all its passes together that each letter taken is one that its sender's pass sent: of each sender,
    /// what was taken begins what was sent. Takes no memory. Quadratic in the members.
    pub fn close<R: Wait>(self, rt: &R, sends: Vec<SendPass>, takes: Vec<TakePass>)
        requires sends { All (IsSendPassOf self) sends.items }
        requires takes { All (IsTakePassOf self) takes.items }
        ensures { All (λ take. All (AreSent take) sends.items) takes.items }
    {
        let mut sends = sends;
        let mut takes = takes;
        for place in 0..takes.len() {
            self.compare_all(rt, &mut sends, &mut takes[place]);
        }
    }
}
