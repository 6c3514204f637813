// How a joiner's parts begin.
ghost use Rattle.std.specs.Prelude.{◌≡◌, ◌≤◌, ◌+◌, ◌∷◌, [], IfOk, List, map, OnOk};
ghost use Rattle.std.specs.List.{All};
ghost use Rattle.gr_ids.specs.declared.memory.Memory.{Memory};
ghost use Rattle.gr_ids.specs.declared.names.Inc.{Inc as Member};
ghost use Rattle.paxos_forms.specs.Gives.{IsGive};
ghost use Rattle.paxos_forms.specs.declared.recovery.Give.{Give as AnyGive};
ghost use Rattle.group_rules.specs.Events.{Cert, Enters, Life, Restores, Setup, Starts, Stored};
ghost use Rattle.group_rules.specs.Life.{certs, executed as executed_by};
ghost use Rattle.group_rules.specs.Recovery.{given_of};
ghost use Rattle.donor_recovery.specs.Asking.{at_add};
ghost use Rattle.donor_recovery.specs.Donating.{HasNumber};
ghost use Rattle.list_state.specs.Joining.{FitsPlace};
ghost use Rattle.gtid_sets.specs.Canonical.{IsCanonical};
ghost use Rattle.member_backlog.specs.Standing.{uncommitted_of};
ghost use Rattle.member_parts.specs.Entering.{all_back, with_all};
ghost use Rattle.member_parts.specs.Joining.{AreRead, IsBare, IsSpeltGiven};
ghost use Rattle.member_parts.specs.Remote.{no_remote, with_given_work, with_works};
ghost use Rattle.member_parts.specs.Standing.{StandsFor};
ghost use Rattle.member_truth.specs.Truth.{IsTrueGive};

use crate::own::OwnCertified;
use crate::parts::MemberParts;
use crate::remotes::Remotes;
use apply_queue::Work;
use consistency_waits::Waits;
use donor_recovery::{AtAdd, Donor};
use failure_events::Watch;
use gr_ids::{Inc, Limits, Memory};
use gtid_sets::GtidSet;
use list_state::ListState;
use member_backlog::{Backlog, Uncommitted};
use paxos_forms::{Given, TryCopy, Welcome, WelcomeMember};
use prepare_acks::Acks;
use std::alloc::Global;

impl MemberParts {
    /// Those of a joiner before its Welcome: its server has these committed transactions. The size of a block is 1 to 1,000,000. Linear in
    /// their bytes, and in their number for each one whose place isn't below those behind it.
    pub fn joining(
        alloc: Global,
        me: Inc,
        limits: Limits,
        committed: &[Given],
    ) -> Result<MemberParts, Memory>
        requires least { 1 ≤ limits.block }
        requires most { limits.block ≤ 1000000 }
        requires numbers { All HasNumber committed.now }
        ensures { IfOk result (λ x. (s : Setup) (y : Stored) → s.limits ≡ limits → committed.now ≡ map given_of y.committed → IsCanonical y.executed
            → StandsFor s me (Starts y ∷ []) x) }
    {
        let mut donor = Donor::new(alloc);
        keep_back(&mut donor, alloc, committed)?;
        Ok(MemberParts {
            list: ListState::joining(alloc, limits),
            watch: Watch::new(alloc, me, &[], limits)?,
            donor,
            backlog: Backlog::new(alloc),
            remotes: Remotes::new(alloc),
            own: OwnCertified::new(alloc),
            acks: Acks::new(alloc),
            required: GtidSet::new(alloc),
            sent: GtidSet::new(alloc),
            waits: Waits::new(alloc),
        })
    }

    /// A joiner is welcomed: it has the view that it is told, watches the members named there, and goes on behind the place of its Add.
    /// Linear in the members.
    pub fn enter(
        &mut self,
        alloc: Global,
        me: Inc,
        limits: Limits,
        welcome: &Welcome,
    ) -> Result<(), Memory>
        requires number { welcome.now.number ≤ welcome.now.place + 1 }
        requires above { self.old.list.taken ≤ welcome.now.place }
        ensures { OnOk result ((s : Setup) (l : Life) → s.limits ≡ limits → certs l ≡ [] → StandsFor s me l self.old
            → StandsFor s me (Enters welcome.now ∷ l) self.new) }
    {
        let members = incs_told(alloc, welcome.members.as_slice())?;
        self.watch = Watch::new(alloc, me, &members, limits)?;
        self.list.enter(alloc, welcome)?;
        Ok(())
    }

    /// A joiner takes up what its donor gave: what stood at the place of its Add, and the certified transactions that it lacks, by ascending
    /// place, each with its bytes, which spell a transaction, and as it is to wait; `executed` is what it has executed. It has taken no entry
    /// and certified none before. Logarithmic in what was given, for each thing, and linear in the transactions' bytes.
    pub fn restore(
        &mut self,
        alloc: Global,
        me: Inc,
        executed: &GtidSet,
        at: AtAdd,
        txns: &[Given],
        certified: &[Uncommitted],
    ) -> Result<(), Memory>
        requires fits { FitsPlace self.old.list.taken self.old.list.limits.block at }
        requires numbers { All HasNumber txns.now }
        requires spelt { All IsSpeltGiven txns.now }
        ensures { OnOk result ((s : Setup) (l : Life) (g : AnyGive) (cs : List Cert) → IsGive g → at ≡ at_add g → txns.now ≡ map given_of cs
            → certified.now ≡ map uncommitted_of cs → executed.now ≡ executed_by l → IsTrueGive me l cs → AreRead cs → IsBare l
            → StandsFor s me l self.old → StandsFor s me (Restores g cs ∷ l) self.new) }
    {
        keep_all(&mut self.donor, alloc, txns)?;
        self.remotes = works_given(alloc, me, executed, txns)?;
        self.backlog = Backlog::restore(alloc, executed, certified)?;
        self.list.restore(alloc, at)?;
        Ok(())
    }
}

fn incs_told(alloc: Global, members: &[WelcomeMember]) -> Result<Vec<Inc>, Memory>
    ensures { IfOk result (λ v. v.items ≡ map (λ m. m.joiner.inc) members.now) }
{
    Ok(
        members
            .iter()
            .map(|member| member.joiner.inc)
            .collect(alloc)?,
    )
}

// Each of these is certified.
fn keep_all(donor: &mut Donor, alloc: Global, txns: &[Given]) -> Result<(), Memory>
    requires { All HasNumber txns.now }
    ensures { OnOk result (donor.new ≡ record donor.old { certified = with_all donor.old.certified txns.now }) }
{
    for given in txns {
        donor.certified(given.try_copy(alloc)?)?;
    }
    Ok(())
}

// Each of these is certified, the last one first.
fn keep_back(donor: &mut Donor, alloc: Global, txns: &[Given]) -> Result<(), Memory>
    requires { All HasNumber txns.now }
    ensures { OnOk result (donor.new ≡ record donor.old { certified = all_back donor.old.certified txns.now }) }
{
    let mut at = txns.len();
    while at > 0 {
        at -= 1;
        donor.certified(txns[at].try_copy(alloc)?)?;
    }
    Ok(())
}

// Those of other origins that aren't committed wait for workers.
fn works_given(
    alloc: Global,
    me: Inc,
    executed: &GtidSet,
    txns: &[Given],
) -> Result<Remotes, Memory>
    requires { All IsSpeltGiven txns.now }
    ensures { IfOk result (λ remotes. remotes ≡ with_works me executed.now no_remote txns.now) }
{
    let mut remotes = Remotes::new(alloc);
    for given in txns {
        queue_given(&mut remotes, alloc, me, executed, given)?;
    }
    Ok(remotes)
}

fn queue_given(
    remotes: &mut Remotes,
    alloc: Global,
    me: Inc,
    executed: &GtidSet,
    given: &Given,
) -> Result<(), Memory>
    requires { IsSpeltGiven given.now }
    ensures { OnOk result (remotes.new ≡ with_given_work me executed.now remotes.old given.now) }
{
    if given.origin == me || executed.contains(given.gtid) {
        return Ok(());
    }
    remotes.push(Work {
        place: given.place,
        gtid: given.gtid,
        body: given.body.try_copy(alloc)?,
    })
}
