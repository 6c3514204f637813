// Workers' results, commits, own values, and a fall.
ghost use Rattle.std.specs.Prelude.{◌≡◌, ◌≤◌, ◌∷◌, None, Option, Some, IfErr, IfOk, MatchOption, OnErr, OnOk, false};
ghost use Rattle.gr_ids.specs.declared.levels.MemberState.TheVariants.{Error};
ghost use Rattle.gr_ids.specs.declared.memory.Memory.{Memory};
ghost use Rattle.gr_ids.specs.declared.names.Inc.{Inc as Member};
ghost use Rattle.gr_ids.specs.Names.{inc_eq};
ghost use Rattle.gtid_sets.specs.Canonical.{IsNumber, IsUuid};
ghost use Rattle.gtid_sets.specs.Sets.{with_gtid};
ghost use Rattle.slot_values.specs.declared.value.Value.{Value as AnyValue};
ghost use Rattle.txn_forms.specs.declared.body.Body.{Body as AnyBody};
ghost use Rattle.group_rules.specs.declared.marks.Cause.{Cause};
ghost use Rattle.group_rules.specs.Events.{Cert, Committed, Done as IsDone, Is, Life, Made, Setup};
ghost use Rattle.group_rules.specs.Life.{last_made};
ghost use Rattle.group_rules.specs.Member.{Member as AnyMember};
ghost use Rattle.group_rules.specs.Steps.{work};
ghost use Rattle.apply_queue.specs.Following.{waiting_at, with_result};
ghost use Rattle.apply_queue.specs.Queues.{first_waiting, handed_out, refusal};
ghost use Rattle.member_parts.specs.Committing.{HasNumber, IsAccepted, IsWritten, MayGo, prepared_in};
ghost use Rattle.member_parts.specs.Standing.{StandsFor};

use crate::certified::uuid_fits;
use crate::own::OwnCertified;
use crate::parts::MemberParts;
use crate::remotes::Remotes;
use apply_queue::{QueueFault, Work, WorkDone};
use gr_ids::{Gtid, Inc, Memory};
use gtid_sets::GtidSet;
use member_backlog::Uncommitted;
use std::alloc::Global;

// The greatest number of a GTID, 2^63 - 2.
const LAST_NUMBER: u64 = 9_223_372_036_854_775_806;

impl MemberParts {
    /// Hands out a copy of the least queued place that waits for a worker; None where there is none. Linear in the bytes, and in the
    /// places that were done before they were handed out; nothing changes where memory is refused.
    pub fn next_work(&mut self) -> Result<Option<Work>, Memory>
        ensures handed { IfOk result (λ o. MatchOption o ((first_waiting self.old.remotes.queue ≡ None) × (self.new ≡ self.old))
            (λ w. (first_waiting self.old.remotes.queue ≡ Some (waiting_at w.place w.gtid w.body)) × (self.new ≡ record self.old { remotes = record self.old.remotes { queue = handed_out self.old.remotes.queue } }))) }
        ensures stands { OnOk result ((s : Setup) (me : Member) (l : Life) → StandsFor s me l self.old → StandsFor s me l self.new) }
        ensures err { OnErr result (self.new ≡ self.old) }
    {
        self.remotes.next_work()
    }

    /// The GTID of the place for which a worker's result is, if `done` takes it; why it refuses it if not. Linear in the places before it;
    /// takes no memory.
    pub fn accepts(&self, done: &WorkDone) -> Result<Gtid, QueueFault>
        ensures accepted { IfOk result (λ g. (a : AnyMember) → StandsFor a.setup a.me.inc a.life self.now → IsAccepted a.me.inc a.life done.now g) }
        ensures sure { OnOk result (refusal self.now.remotes.queue done.now.place done.now.body ≡ None) }
        ensures refused { IfErr result (λ e. (a : AnyMember) → StandsFor a.setup a.me.inc a.life self.now → work done.now.place (Some done.now.body) a ≡ with_result done.now.place (Some e) a) }
    {
        self.remotes.accepts(done)
    }

    /// A worker's result makes its place done. Refused, as the rules say, where the place isn't queued with these bytes, and where it is
    /// done already, and so only where `accepts` refuses it. Linear in the places before it; takes no memory.
    pub fn done(&mut self, done: WorkDone) -> Result<(), QueueFault>
        ensures ok { OnOk result ((s : Setup) (me : Member) (l : Life) → StandsFor s me l self.old → StandsFor s me (IsDone done.place ∷ l) self.new) }
        ensures taken { OnOk result ((a : AnyMember) → StandsFor a.setup a.me.inc a.life self.old → work done.place (Some done.body) a ≡ with_result done.place None a) }
        ensures refused { IfErr result (λ e. (a : AnyMember) → StandsFor a.setup a.me.inc a.life self.old → work done.place (Some done.body) a ≡ with_result done.place (Some e) a) }
        ensures sure { OnErr result (refusal self.old.remotes.queue done.place done.body ≡ None → ⊥) }
        ensures err { OnErr result (self.new ≡ self.old) }
    {
        self.remotes.done(done)
    }

    /// A transaction that waits is committed; what it writes is handed out. It may be committed: it is an own one, or it is the first of the
    /// queue and done. Linear in those that wait; takes no memory.
    pub fn commit(&mut self, me: Inc, one: &Uncommitted) -> Option<WorkDone>
        ensures written { (s : Setup) (l : Life) (c : Cert) → MayGo s me l c one.now → StandsFor s me l self.old → IsWritten c result }
        ensures stands { (s : Setup) (l : Life) (c : Cert) → MayGo s me l c one.now → StandsFor s me l self.old
            → StandsFor s me (Committed c.gtid ∷ l) self.new }
    {
        self.backlog.commit(one.gtid);
        if is_mine(one, me) {
            self.own.take_out(one.gtid)
        } else {
            self.remotes.commits()
        }
    }

    /// An own value is made, a Prepared entry of this GTID or another one. Logarithmic in what was sent.
    pub fn made(&mut self, prepared: Option<Gtid>) -> Result<(), Memory>
        ensures { OnOk result ((s : Setup) (me : Member) (l : Life) (v : AnyValue) (x : Option AnyBody) → prepared ≡ prepared_in x → HasNumber prepared
            → last_made l ≤ v.id.number → StandsFor s me l self.old → StandsFor s me (Made v x ∷ l) self.new) }
    {
        match prepared {
            Some(gtid) => note_sent(&mut self.sent, gtid),
            None => Ok(()),
        }
    }

    /// The member takes ERROR: nothing is queued any more. The holds end one by one. Linear in what was queued; takes no memory.
    pub fn fail(&mut self, alloc: Global)
        ensures { (s : Setup) (me : Member) (l : Life) (c : Cause) → StandsFor s me l self.old → StandsFor s me (Is Error c ∷ l) self.new }
    {
        self.remotes = Remotes::new(alloc);
        self.own = OwnCertified::new(alloc);
    }
}

pub(crate) fn is_mine(one: &Uncommitted, me: Inc) -> bool
    ensures { result ≡ inc_eq one.now.id.origin me }
{
    one.id.origin == me
}

// A GTID that has a number is noted.
fn note_sent(sent: &mut GtidSet, gtid: Gtid) -> Result<(), Memory>
    ensures uuid { IsUuid gtid.source }
    ensures noted { OnOk result (IsNumber gtid.number → sent.new ≡ with_gtid sent.old gtid) }
{
    uuid_fits(&gtid.source);
    if gtid.number == 0 || gtid.number > LAST_NUMBER {
        return Ok(());
    }
    sent.add(gtid)
}
