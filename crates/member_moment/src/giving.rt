// What is sent to those that join: a Give to one that asks, a Welcome to one whose Add was just taken.
ghost use Rattle.std.specs.Prelude.{◌≡◌, ◌≤◌, ◌&&◌, IfOk, IfSome, OnOk, length, nat_le, true};
ghost use Rattle.std.specs.List.{list_all};
ghost use Rattle.gr_ids.specs.declared.memory.Memory.{Memory};
ghost use Rattle.name_forms.specs.Incs.{IsInc};
ghost use Rattle.slot_values.specs.Spelling.{last_u32};
ghost use Rattle.group_rules.specs.Events.{Life};
ghost use Rattle.group_rules.specs.Life.{entry_at, is_up as is_up_by, state as state_of, taken};
ghost use Rattle.group_rules.specs.Member.{Member};
ghost use Rattle.group_rules.specs.Recovery.{hear_ask as hears_ask};
ghost use Rattle.group_rules.specs.Welcomes.{greet as greets};
ghost use Rattle.member_messages.specs.Greeting.{is_in_seats};
ghost use Rattle.member_parts.specs.Giving.{given_to};
ghost use Rattle.member_moment.specs.Doing.{Does, DoesIf};
ghost use Rattle.member_moment.specs.Giving.{IsGreeting, IsShort};
ghost use Rattle.member_moment.specs.Standing.{Stands};

use crate::moment::Moment;
use crate::watching::has_seat;
use donor_recovery::GiveFault;
use gr_ids::{Inc, Memory};
use member_messages::welcome;
use node_rules::Seat;
use paxos_forms::{Ask, Give, Welcome, Wire};

// What the count of a list can say: 2^32 - 1.
const MOST_ITEMS: usize = 4_294_967_295;

impl Moment {
    /// A joiner asks. It is given what stood at the place of its Add, if that was taken here. Linear in what is certified and in what is given.
    pub fn hear_ask(&mut self, from: Inc, ask: &Ask) -> Result<(), Memory>
        requires { IsInc from }
        ensures { OnOk result (Does (hears_ask from ask.now.place ask.now.executed) self.old self.new) }
    {
        match self.give(ask)? {
            Some(give) => self.send(from, Wire::Give(give)),
            None => Ok(()),
        }
    }

    // None exactly where no Add with effect was taken at the place that is asked for.
    fn give(&self, ask: &Ask) -> Result<Option<Give>, Memory>
        ensures given { IfOk result (λ given. (base : Life) (a : Member) → Stands base a self.now
            → given_to a.setup a.life ask.now.executed (entry_at a.life ask.now.place) ≡ given) }
        ensures short { IfOk result (λ given. IfSome given IsShort) }
    {
        let give = match self.parts.give(self.alloc, ask) {
            Ok(give) => give,
            Err(GiveFault::NotKept { place: _ }) => return Ok(None),
            Err(GiveFault::Memory) => return Err(Memory),
        };
        if !is_short(&give) {
            return Err(Memory);
        }
        Ok(Some(give))
    }

    /// An incarnation was just added: if this member is ONLINE and isn't that one, it sends it a Welcome. Linear in the configurations, and
    /// in the members times the seats.
    pub fn greet(&mut self, inc: Inc) -> Result<(), Memory>
        ensures { OnOk result (DoesIf (λ a. IsInc inc × (1 ≤ taken a.life)) (greets inc) self.old self.new) }
    {
        if !self.is_up() {
            return Ok(());
        }
        if inc == self.me.inc {
            return Ok(());
        }
        match self.welcome()? {
            Some(welcome) => self.send(inc, Wire::Welcome(welcome)),
            None => Ok(()),
        }
    }

    // None where it doesn't know the log.
    fn welcome(&self) -> Result<Option<Welcome>, Memory>
        ensures { IfOk result (λ w. (base : Life) (a : Member) → Stands base a self.now → is_up_by (state_of a.life) ≡ true → 1 ≤ taken a.life
            → IsGreeting w a) }
    {
        if !self.node.has_log() {
            return Ok(None);
        }
        let turns = self.node.turns();
        let view = self.parts.list().view();
        if !are_seated(view.seats(), turns.members()) {
            return Err(Memory);
        }
        let welcome = welcome(self.alloc, turns, self.node.promise(), view)?;
        if welcome.ever.as_slice().len() > MOST_ITEMS {
            return Err(Memory);
        }
        Ok(Some(welcome))
    }
}

// Whether its lists aren't too long to be counted.
fn is_short(give: &Give) -> bool
    ensures { result ≡ (nat_le (length give.now.items) last_u32 && nat_le (length give.now.txns) last_u32) }
{
    give.items.as_slice().len() <= MOST_ITEMS && give.txns.as_slice().len() <= MOST_ITEMS
}

// Whether each of these has a seat.
fn are_seated(seats: &[Seat], incs: &[Inc]) -> bool
    ensures { result ≡ list_all (is_in_seats seats.now) incs.now }
{
    incs.iter().all(|inc| has_seat(seats, *inc))
}
