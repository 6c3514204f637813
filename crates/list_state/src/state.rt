// What the list has made.
ghost use Rattle.std.specs.Prelude.{◌≡◌, ◌≤◌, ◌∷◌, [], IfOk, filter, map};
ghost use Rattle.group_rules.specs.Events.{Founds, Setup, Starts, Stored};
ghost use Rattle.group_rules.specs.View.{online_incs};
ghost use Rattle.list_state.specs.Following.{Follows};

use certifier::Certifier;
use gr_ids::{Inc, Limits, MemberState, Memory, Mode, Pos, Sequence};
use slot_values::Joiner;
use stable_set::Told;
use std::alloc::Global;
use std::marker::Model;
use txn_forms::Parts;
use view_changes::{View, ViewAt};

/// The view, the told sets, the certifier and the open parts, after the entries up to a place.
#[derive(Debug, Drop)]
pub struct ListState {
    pub(crate) limits: Limits,
    pub(crate) taken: u64,
    pub(crate) view: View,
    pub(crate) told: Told,
    pub(crate) certifier: Certifier,
    pub(crate) parts: Parts,
    // whether it is known that the certifier keeps nothing stable
    pub(crate) settled: bool,
}

impl Model for ListState {
    ghost use Rattle.group_rules.specs.Told.{stable_of};
    ghost use Rattle.group_rules.specs.View.{online_incs};
    ghost use Rattle.list_state.specs.Listing.{IsSound, Listed};

    ghost Value = { Listed };

    ghost view = { λ s. record { limits = s.limits; taken = s.taken; view = s.view; told = s.told; certifier = s.certifier; parts = s.parts } };

    ghost invariant = { λ s. IsSound s.limits.block s.taken s.view.number s.certifier.certified.blocks s.settled (stable_of s.told (online_incs s.view)) s.certifier.certified.items };
}

impl ListState {
    /// What a founding makes. The size of a block is 1 to 1,000,000. Linear in the founders.
    pub fn founded(
        alloc: Global,
        founders: &[Joiner],
        mode: Mode,
        limits: Limits,
    ) -> Result<ListState, Memory>
        requires least { 1 ≤ limits.block }
        requires most { limits.block ≤ 1000000 }
        ensures { IfOk result (Follows (record { limits = limits; mode = mode; founders = founders.now }) (Founds ∷ [])) }
    {
        Ok(ListState {
            limits,
            taken: 0,
            view: View::founding(alloc, founders, mode)?,
            told: Told::new(alloc),
            certifier: Certifier::new(alloc, limits.group, limits.block),
            parts: Parts::new(alloc),
            settled: false,
        })
    }

    /// What a joiner has before its Welcome. The size of a block is 1 to 1,000,000. Takes no memory.
    pub fn joining(alloc: Global, limits: Limits) -> ListState
        requires least { 1 ≤ limits.block }
        requires most { limits.block ≤ 1000000 }
        ensures { (s : Setup) (x : Stored) → s.limits ≡ limits → Follows s (Starts x ∷ []) result }
    {
        let nobody = ViewAt {
            number: 0,
            mode: Mode::Multi,
            primary: None,
            elected: Pos(0),
            members: Sequence::new(alloc),
        };
        ListState {
            limits,
            taken: 0,
            view: View::resume(nobody),
            told: Told::new(alloc),
            certifier: Certifier::new(alloc, limits.group, limits.block),
            parts: Parts::new(alloc),
            settled: false,
        }
    }

    /// The limits of the group.
    pub fn limits(&self) -> Limits
        ensures { result ≡ self.now.limits }
    {
        self.limits
    }

    /// The place of the last entry taken; of its Add at a joiner that has taken none.
    pub fn taken(&self) -> Pos
        ensures { result ≡ self.now.taken }
    {
        Pos(self.taken)
    }

    /// The view.
    pub fn view(&self) -> &View
        ensures { result.now ≡ self.now.view }
    {
        &self.view
    }

    /// The certifier.
    pub fn certifier(&self) -> &Certifier
        ensures { result.now ≡ self.now.certifier }
    {
        &self.certifier
    }

    /// The members that are ONLINE, ascending. Linear in the members.
    pub fn online(&self, alloc: Global) -> Result<Vec<Inc>, Memory>
        ensures { IfOk result (λ v. v.items ≡ online_incs self.now.view) }
    {
        online_members(alloc, &self.view)
    }
}

/// The ONLINE members of a view, ascending.
pub(crate) fn online_members(alloc: Global, view: &View) -> Result<Vec<Inc>, Memory>
    ensures { IfOk result (λ v. v.items ≡ online_incs view.now) }
{
    Ok(
        view.seats()
            .iter()
            .filter(|seat| seat.state == MemberState::Online)
            .map(|seat| seat.joiner.inc)
            .collect(alloc)?,
    )
}
