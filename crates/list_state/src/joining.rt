// What a joiner begins with, and what a member keeps for those that join.
ghost use Rattle.std.specs.Prelude.{◌≡◌, ◌≤◌, ◌+◌, ◌++◌, ◌∷◌, [], find, IfOk, map, OnErr, OnOk, option_copied};
ghost use Rattle.gr_ids.specs.Names.{inc_eq};
ghost use Rattle.gr_ids.specs.declared.memory.Memory.{Memory};
ghost use Rattle.group_rules.specs.View.{seated};
ghost use Rattle.list_state.specs.Joining.{FitsPlace, add_here, parts_in, restored, welcomed};

use crate::state::ListState;
use certifier::Certifier;
use donor_recovery::AtAdd;
use gr_ids::{Inc, Memory, OpenParts, Pos, Sequence};
use node_rules::Seat;
use paxos_forms::{Welcome, WelcomeMember};
use stable_set::Told;
use std::alloc::Global;
use txn_forms::Parts;
use view_changes::{View, ViewAt};

impl ListState {
    /// A joiner is welcomed: it has the view that it is told, and goes on behind the place of its Add. Linear in the members.
    pub fn enter(&mut self, alloc: Global, welcome: &Welcome) -> Result<(), Memory>
        requires number { welcome.now.number ≤ welcome.now.place + 1 }
        requires above { self.old.taken ≤ welcome.now.place }
        ensures ok { OnOk result (self.new ≡ welcomed welcome.now self.old) }
        ensures err { OnErr result (self.new ≡ self.old) }
    {
        let members = seats_told(alloc, welcome.members.as_slice())?;
        self.settled = false;
        self.taken = welcome.place.0;
        self.view = View::resume(ViewAt {
            number: welcome.number,
            mode: welcome.mode,
            primary: welcome.primary,
            elected: welcome.elected,
            members,
        });
        Ok(())
    }

    /// What a donor gave of the place of its Add becomes the joiner's own. Logarithmic in what was given, for each thing.
    pub fn restore(&mut self, alloc: Global, at: AtAdd) -> Result<(), Memory>
        requires { FitsPlace self.old.taken self.old.limits.block at }
        ensures ok { OnOk result (self.new ≡ restored at self.old) }
        ensures err { OnErr result (self.new ≡ self.old) }
    {
        let limits = self.limits;
        let certifier = Certifier::restore(
            alloc,
            limits.group,
            limits.block,
            at.blocks,
            at.last,
            at.items,
        )?;
        let told = Told::restore(alloc, at.told)?;
        self.settled = false;
        self.certifier = certifier;
        self.told = told;
        self.parts = Parts::resume(at.parts);
        Ok(())
    }

    /// What is kept of an Add, taken last, for the joiner that it names. Linear in the items, and for each member in the open parts.
    pub fn at_add(&self, alloc: Global) -> Result<AtAdd, Memory>
        ensures { IfOk result (λ at. at ≡ add_here self.now) }
    {
        let members = members_of(alloc, &self.view)?;
        let online = self.online(alloc)?;
        Ok(AtAdd {
            place: Pos(self.taken),
            blocks: self.certifier.blocks(),
            last: self.certifier.copy_last(alloc, &members)?,
            items: self.certifier.copy_items(alloc)?,
            told: self.told.sets(alloc, &online)?,
            parts: open_parts_of(alloc, self.parts.unfinished(), &members)?,
        })
    }
}

fn seats_told(alloc: Global, members: &[WelcomeMember]) -> Result<Sequence<Seat>, Memory>
    ensures { IfOk result (λ seats. seats ≡ map (λ m. record { joiner = m.joiner; state = m.state }) members.now) }
{
    Ok(Sequence::from_vec(seats_of(alloc, members)?))
}

fn seats_of(alloc: Global, members: &[WelcomeMember]) -> Result<Vec<Seat>, Memory>
    ensures { IfOk result (λ v. v.items ≡ map (λ m. record { joiner = m.joiner; state = m.state }) members.now) }
{
    Ok(
        members
            .iter()
            .map(|member| Seat {
                joiner: member.joiner,
                state: member.state,
            })
            .collect(alloc)?,
    )
}

fn members_of(alloc: Global, view: &View) -> Result<Vec<Inc>, Memory>
    ensures { IfOk result (λ v. v.items ≡ seated view.now.seats) }
{
    Ok(
        view.seats()
            .iter()
            .map(|seat| seat.joiner.inc)
            .collect(alloc)?,
    )
}

// Copies of what these origins have open, in the order of these.
fn open_parts_of(
    alloc: Global,
    parts: &[OpenParts],
    origins: &[Inc],
) -> Result<Sequence<OpenParts>, Memory>
    ensures { IfOk result (λ copies. copies ≡ parts_in parts.now origins.now) }
{
    let mut copies = Vec::new(alloc);
    for origin in origins {
        push_open(alloc, &mut copies, parts, *origin)?;
    }
    Ok(Sequence::from_vec(copies))
}

fn push_open(
    alloc: Global,
    to: &mut Vec<OpenParts>,
    parts: &[OpenParts],
    origin: Inc,
) -> Result<(), Memory>
    ensures { OnOk result (to.new.items ≡ to.old.items ++ parts_in parts.now (origin ∷ [])) }
{
    if let Some(held) = find_open(parts, origin) {
        to.push(copied(alloc, held)?)?;
    }
    Ok(())
}

fn find_open<'a>(parts: &'a [OpenParts], origin: Inc) -> Option<&'a OpenParts>
    ensures { option_copied result ≡ find (λ p. inc_eq p.origin origin) parts.now }
{
    parts.iter().find(|held| held.origin == origin)
}

fn copied(alloc: Global, held: &OpenParts) -> Result<OpenParts, Memory>
    ensures { IfOk result (λ copy. copy ≡ held.now) }
{
    Ok(OpenParts {
        origin: held.origin,
        count: held.count,
        held: held.held,
        bytes: held.bytes.try_copy(alloc)?,
    })
}
