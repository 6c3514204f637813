// Laws of joining, and of what a donor gave.
ghost use Rattle.std.specs.Prelude.{◌≡◌, ◌∷◌, ℕ, [], false, is_some, length, List, map, nat_le, None, Option, Some, true};
ghost use Rattle.gr_ids.specs.declared.levels.MemberState.{MemberState};
ghost use Rattle.gr_ids.specs.declared.levels.MemberState.TheVariants.{Online, Recovering};
ghost use Rattle.gr_ids.specs.declared.names.Gtid.{Gtid};
ghost use Rattle.gr_ids.specs.declared.names.Inc.{Inc};
ghost use Rattle.gtid_sets.specs.Sets.{minus};
ghost use Rattle.node_rules.specs.Lists.{In};
ghost use Rattle.paxos_forms.specs.declared.message.Wire.TheVariants.{Ask as Asks};
ghost use Rattle.paxos_forms.specs.declared.recovery.Give.{Give};
ghost use Rattle.paxos_forms.specs.declared.recovery.Given.{Given};
ghost use Rattle.paxos_forms.specs.declared.welcome.Welcome.{Welcome};
ghost use Rattle.txn_forms.specs.Bodies.{body_bytes, read_body};
ghost use Rattle.txn_forms.specs.declared.body.Body.TheVariants.{Txn as Writes};
ghost use Rattle.group_rules.specs.declared.marks.Cause.{Cause};
ghost use Rattle.group_rules.specs.declared.marks.Reply.TheVariants.{Asked};
ghost use Rattle.group_rules.specs.Events.{AskFails, Cert, Committed, Did, Enters, Entry, Founds, Is, Life, Replied, Restores, Setup, Starts, Stored, Took};
ghost use Rattle.group_rules.specs.Life.{certs, executed, is_offline, is_recovering, state};
ghost use Rattle.group_rules.specs.Member.{Member};
ghost use Rattle.group_rules.specs.Recovery.{ask_wire, certs_given, failures, given_of, is_ask_due, is_awaited, is_possible, pending_ask};
ghost use Rattle.group_rules.specs.Taking.{takes_slots};
ghost use Rattle.donor_recovery.specs.Asking.{Asking};
ghost use Rattle.member_joining.specs.Asking.{ask_in, asked, awaits_by, extra_in, failed, given, is_ask_due_by, is_last_in, may_ask, pending_in, place_in, welcomed};
ghost use Rattle.member_joining.specs.Joins.{JoinsBy, MayBe, is_of_joining};
ghost use Rattle.member_joining.specs.Reading.{certs_read};

/// Where an incarnation stands on its way into the group is what the rules read from its history: from its founding or its start on, with
/// its Welcome, by which an OFFLINE one is RECOVERING, with each ask, failure and Give, with an entry that is taken where slots are taken, a commit of something that is
/// certified, and a state that may be taken. What else happens changes nothing.
pub fn joinings_are_those_of_the_rules()
    ensures founded { JoinsBy (Founds ∷ []) None }
    ensures leads { (c : Cause) → JoinsBy (Is Online c ∷ Founds ∷ []) None }
    ensures started { (y : Stored) → JoinsBy (Starts y ∷ []) None }
    ensures welcomed { (l : Life) (w : Welcome) (c : Cause) (x : Option Asking) → JoinsBy l x → is_offline (state l) ≡ true
        → JoinsBy (Is Recovering c ∷ Enters w ∷ l) (welcomed (executed l) w.place) }
    ensures asked { (l : Life) (d : Inc) (x : Option Asking) → JoinsBy l x → may_ask x ≡ true → JoinsBy (Replied (Asked d) ∷ l) (asked d x) }
    ensures failed { (l : Life) (x : Option Asking) → JoinsBy l x → is_some (pending_ask l) ≡ true → JoinsBy (AskFails ∷ l) (failed x) }
    ensures given { (l : Life) (g : Give) (cs : List Cert) (x : Option Asking) → JoinsBy l x → is_recovering (state l) ≡ true
        → is_some (pending_ask l) ≡ true → JoinsBy (Restores g cs ∷ l) (given x) }
    ensures taken { (l : Life) (e : Entry) (x : Option Asking) → JoinsBy l x → takes_slots l ≡ true → JoinsBy (Took e ∷ l) x }
    ensures committed { (l : Life) (g : Gtid) (x : Option Asking) → JoinsBy l x → (certs l ≡ [] → ⊥) → JoinsBy (Committed g ∷ l) x }
    ensures stated { (l : Life) (s : MemberState) (c : Cause) (x : Option Asking) → JoinsBy l x → MayBe l s → JoinsBy (Is s c ∷ l) x }
    ensures passed { (l : Life) (d : Did) (x : Option Asking) → is_of_joining d ≡ false → JoinsBy l x → JoinsBy (d ∷ l) x }
{}

/// What it tells is what the rules of the group tell: whether an ask is due, what is asked, which Give is awaited, which failure is the
/// last one, and what the joiner has that the group hasn't. A Give that is awaited may be taken.
pub fn joinings_tell_what_the_rules_tell()
    ensures due { (a : Member) (x : Option Asking) → JoinsBy a.life x → is_ask_due a ≡ is_ask_due_by (state a.life) x }
    ensures wire { (a : Member) (x : Option Asking) → JoinsBy a.life x → may_ask x ≡ true → Asks (ask_in x) ≡ ask_wire a }
    ensures awaited { (a : Member) (i : Inc) (g : Give) (x : Option Asking) → JoinsBy a.life x → is_awaited i g a ≡ awaits_by (state a.life) i g.place x }
    ensures last { (l : Life) (x : Option Asking) → JoinsBy l x → is_some (pending_ask l) ≡ true → nat_le 10 (failures (AskFails ∷ l)) ≡ is_last_in x }
    ensures extra { (l : Life) (g : Give) (x : Option Asking) → JoinsBy l x → is_some (pending_ask l) ≡ true
        → minus (executed l) g.certified ≡ extra_in x g }
    ensures ready { (s : MemberState) (i : Inc) (p : ℕ) (x : Option Asking) → awaits_by s i p x ≡ true
        → (is_some (pending_in x) ≡ true) × (p ≡ place_in x) }
{}

/// Where each body spells a transaction, what is read is all that was given, and gives it again; each transaction is read from its bytes.
/// Where one doesn't, the Give can't be.
pub fn gives_are_read_back()
    ensures all { (gs : List Given) (cs : List Cert) → certs_read gs ≡ Some cs → (cs ≡ certs_given gs) × (length (certs_given gs) ≡ length gs) }
    ensures back { (gs : List Given) → length (certs_given gs) ≡ length gs → map given_of (certs_given gs) ≡ gs }
    ensures read { (gs : List Given) (c : Cert) → In c (certs_given gs) → read_body (body_bytes (Writes c.txn)) ≡ Some (Writes c.txn) }
    ensures unread { (s : Setup) (g : Give) → certs_read g.txns ≡ None → is_possible s g (certs_given g.txns) ≡ false }
{}
