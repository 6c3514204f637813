// Own values.
ghost use Rattle.std.specs.Prelude.{◌≡◌, None, OnOk, Option, Some, false};
ghost use Rattle.gr_ids.specs.declared.memory.Memory.{Memory};
ghost use Rattle.slot_values.specs.Spelling.{IsWhat};
ghost use Rattle.slot_values.specs.declared.value.What.TheVariants.{Body as Says};
ghost use Rattle.txn_forms.specs.Bodies.{IsBody, body_bytes};
ghost use Rattle.txn_forms.specs.declared.body.Body.{Body as AnyBody};
ghost use Rattle.group_rules.specs.Life.{is_arrival};
ghost use Rattle.group_rules.specs.Events.{Life};
ghost use Rattle.group_rules.specs.Member.{Member, own as own_of, own_body as own_body_of};
ghost use Rattle.member_parts.specs.Committing.{HasNumber, prepared_in};
ghost use Rattle.member_truth.specs.Ranged.{IsSpelt};
ghost use Rattle.member_moment.specs.Doing.{Does};
ghost use Rattle.member_moment.specs.Owning.{IsHeldAs};
ghost use Rattle.member_moment.specs.Standing.{RestFor};

use crate::moment::Moment;
use gr_ids::{Blob, Gtid, Memory, ValueId};
use node_rules::PaxosEvent;
use slot_values::{Value, What};
use txn_forms::{Body, encode};

// What the count of a value's bytes can say: 2^32 - 1.
const MOST_BYTES: usize = 4_294_967_295;

impl Moment {
    /// An Add or a Remove is made, which holds no body.
    pub fn own_change(&mut self, what: What) -> Result<(), Memory>
        requires { IsWhat 1 what }
        ensures { OnOk result (Does (own_of what None) self.old self.new) }
    {
        self.own(what, None, false)
    }

    /// A body is sent as a value. Linear in its bytes.
    pub fn own_body(&mut self, body: &Body) -> Result<(), Memory>
        requires { IsBody body.now }
        ensures { OnOk result (Does (own_body_of body.now) self.old self.new) }
    {
        let bytes = encode(self.alloc, body)?;
        if bytes.len() > MOST_BYTES {
            return Err(Memory);
        }
        self.own(What::Body(bytes), prepared(body), arrives(body))
    }

    /// Bytes are sent as a value, whose place is to hold this body, which is no Prepared entry and no Online entry.
    pub fn own_bytes(&mut self, bytes: Blob) -> Result<(), Memory>
        requires { IsWhat 1 (Says bytes) }
        ensures { OnOk result ((holds : AnyBody) → IsSpelt (Some holds) → IsHeldAs None false (Some holds) → Does (own_of (Says bytes) (Some holds)) self.old self.new) }
    {
        self.own(What::Body(bytes), None, false)
    }

    // The next own value: it may be a Prepared entry of this GTID, or the Online entry.
    pub(crate) fn own(
        &mut self,
        what: What,
        prepared: Option<Gtid>,
        arrives: bool,
    ) -> Result<(), Memory>
        requires { IsWhat 1 what }
        ensures rest { OnOk result ((base : Life) (a : Member) (holds : Option AnyBody) → IsSpelt holds → IsHeldAs prepared arrives holds → RestFor base a self.old
            → RestFor base (own_of what holds a) self.new) }
        ensures others { OnOk result (self.new ≡ record self.old { node = self.new.node; parts = self.new.parts; own = self.new.own; sent = self.new.sent }) }
        ensures does { OnOk result ((holds : Option AnyBody) → IsSpelt holds → IsHeldAs prepared arrives holds → Does (own_of what holds) self.old self.new) }
    {
        let number = self.own.make(arrives)?;
        self.parts.made(prepared)?;
        let id = ValueId {
            origin: self.me.inc,
            number,
        };
        let event = PaxosEvent::Own(Value { id, what });
        self.at_node(&event)
    }
}

fn prepared(body: &Body) -> Option<Gtid>
    ensures { result ≡ prepared_in (Some body.now) }
{
    match body {
        Body::Prepared(gtid) => Some(*gtid),
        _ => None,
    }
}

fn arrives(body: &Body) -> bool
    ensures { result ≡ is_arrival (Some body.now) }
{
    match body {
        Body::Online(_) => true,
        _ => false,
    }
}
