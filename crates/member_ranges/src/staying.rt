// A member that is in range stays there.
ghost use Rattle.std.specs.Prelude.{◌≡◌, ◌≤◌, ◌∷◌, ℕ, List, [], false, length, true};
ghost use Rattle.gr_ids.specs.declared.levels.MemberState.TheVariants.{Online};
ghost use Rattle.gr_ids.specs.declared.names.Gtid.{Gtid};
ghost use Rattle.gr_ids.specs.declared.names.Inc.{Inc};
ghost use Rattle.name_forms.specs.Incs.{IsInc};
ghost use Rattle.slot_values.specs.Joiners.{IsJoiner};
ghost use Rattle.slot_values.specs.Spelling.{last_u32};
ghost use Rattle.slot_values.specs.declared.value.Joiner.{Joiner};
ghost use Rattle.paxos_forms.specs.Gives.{IsGive};
ghost use Rattle.paxos_forms.specs.Messages.{IsMessage};
ghost use Rattle.paxos_forms.specs.declared.message.Message.{Message};
ghost use Rattle.paxos_forms.specs.declared.message.Wire.TheVariants.{Welcome as Greet};
ghost use Rattle.paxos_forms.specs.declared.recovery.Give.{Give};
ghost use Rattle.paxos_forms.specs.declared.welcome.Welcome.{Welcome};
ghost use Rattle.node_rules.specs.Lists.{In};
ghost use Rattle.node_rules.specs.Step.{node_step};
ghost use Rattle.node_rules.specs.Taking.{take};
ghost use Rattle.node_rules.specs.declared.event.PaxosEvent.{PaxosEvent};
ghost use Rattle.node_rules.specs.declared.event.PaxosEvent.TheVariants.{Heard};
ghost use Rattle.node_rules.specs.declared.taken.Taken.{Taken};
ghost use Rattle.paxos_ranges.specs.Ranges.{IsGiven};
ghost use Rattle.group_rules.specs.Events.{Cert, Committed, Did, Done, Is, Restores, Setup, Stored};
ghost use Rattle.group_rules.specs.Life.{certs, entered, has_give, is_recovering, state};
ghost use Rattle.group_rules.specs.Member.{Member, at_node, push};
ghost use Rattle.group_rules.specs.Recovery.{add_place, certs_given};
ghost use Rattle.group_rules.specs.Steps.{found, start};
ghost use Rattle.group_rules.specs.Taking.{takes_slots};
ghost use Rattle.group_rules.specs.Welcomes.{hear_welcome};
ghost use Rattle.group_rules.specs.declared.marks.Cause.{Cause};
ghost use Rattle.member_ranges.specs.Hearing.{is_welcome};
ghost use Rattle.member_ranges.specs.Lives.{AreGivable};
ghost use Rattle.member_ranges.specs.Ranges.{InRange, IsFounding, is_of_range};
ghost use Rattle.member_ranges.specs.Taking.{takes_on};

/// A member that begins in range stays there: by what its node does, and sends, where it keeps no more votes than a promise can count, and by each thing that goes
/// into its history. A Welcome comes to the node and the member at once, and a slot is taken by both.
pub fn members_stay_in_range()
    ensures founded { (s : Setup) (j : Joiner) → IsFounding s → In j s.founders → InRange (found s j) }
    ensures started { (s : Setup) (j : Joiner) (x : Stored) (i : Inc) → IsFounding s → IsJoiner j → IsInc i → AreGivable x.committed → InRange (start s j x i) }
    ensures said { (d : Did) (a : Member) → is_of_range d ≡ false → InRange a → InRange (push d a) }
    ensures sent { (ms : List Message) (a : Member) → InRange a → InRange (record a { sent = ms }) }
    ensures node { (e : PaxosEvent) (a : Member) → is_welcome e ≡ false → IsGiven e → InRange a → InRange (at_node e a) }
    ensures messages { (e : PaxosEvent) (a : Member) → IsGiven e → InRange a → length a.node.acceptor.votes ≤ last_u32
        → (m : Message) → In m (node_step e a.node).sent → IsMessage m }
    ensures welcomed { (m : Message) (w : Welcome) (a : Member) → m.wire ≡ Greet w → IsMessage m → InRange a → InRange (hear_welcome w (at_node (Heard m) a)) }
    ensures taken { (t : Taken) (more : List Taken) (a : Member) → (take a.node).took ≡ t ∷ more → takes_slots a.life ≡ true → InRange a → InRange (takes_on t a) }
    ensures restored { (g : Give) (cs : List Cert) (a : Member) → IsGive g → g.place ≡ add_place (entered a.life) → cs ≡ certs_given g.txns
        → is_recovering (state a.life) ≡ true → has_give a.life ≡ false → InRange a → InRange (push (Restores g cs) a) }
    ensures done { (p : ℕ) (a : Member) → (certs a.life ≡ [] → ⊥) → InRange a → InRange (push (Done p) a) }
    ensures committed { (g : Gtid) (a : Member) → (certs a.life ≡ [] → ⊥) → InRange a → InRange (push (Committed g) a) }
    ensures arrived { (c : Cause) (a : Member) → takes_slots a.life ≡ true → InRange a → InRange (push (Is Online c) a) }
{}
