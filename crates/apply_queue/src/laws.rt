// What a queue stands for.
ghost use Rattle.std.specs.Prelude.{◌≡◌, ◌<◌, ◌∷◌, ◌++◌, ℕ, [], List, None, Some, false, map, true};
ghost use Rattle.std.specs.List.{list_all};
ghost use Rattle.std.specs.Option.{option_map};
ghost use Rattle.gr_ids.specs.Names.{gtid_eq};
ghost use Rattle.gr_ids.specs.declared.levels.MemberState.{MemberState};
ghost use Rattle.gr_ids.specs.declared.levels.MemberState.TheVariants.{Error};
ghost use Rattle.gr_ids.specs.declared.names.Gtid.{Gtid};
ghost use Rattle.gr_ids.specs.declared.names.Inc.{Inc};
ghost use Rattle.gtid_sets.specs.Canonical.{IsCanonical, IsNumber, IsUuid};
ghost use Rattle.gtid_sets.specs.Sets.{Gtids};
ghost use Rattle.key_items.specs.declared.change.Change.{Change};
ghost use Rattle.key_items.specs.declared.item.Item.{Item};
ghost use Rattle.node_rules.specs.Lists.{In};
ghost use Rattle.paxos_forms.specs.declared.recovery.Give.{Give};
ghost use Rattle.txn_forms.specs.Bodies.{body_bytes};
ghost use Rattle.txn_forms.specs.declared.body.Body.TheVariants.{Txn as Writes};
ghost use Rattle.group_rules.specs.declared.marks.Cause.{Cause};
ghost use Rattle.group_rules.specs.declared.marks.Reply.TheVariants.{NotQueued as SaysNotQueued};
ghost use Rattle.group_rules.specs.declared.said.Look.TheVariants.{Queue as ShowsQueue};
ghost use Rattle.group_rules.specs.Events.{Cert, Committed, Did, Done, Entry, Founds, Is, Life, Replied, Restores, Starts, Stored, Took};
ghost use Rattle.group_rules.specs.Life.{cert_of, certs, executed, is_error, state};
ghost use Rattle.group_rules.specs.Looks.{show_queue};
ghost use Rattle.group_rules.specs.Member.{Member, push};
ghost use Rattle.group_rules.specs.Queue.{all_below, at_place, is_done as was_done, is_own, pending, queue};
ghost use Rattle.group_rules.specs.Steps.{work};
ghost use Rattle.apply_queue.specs.Following.{IsRising, QueuedOf, as_queued, is_of_queue, is_other, with_certified, with_result, without, work_of, works_of};
ghost use Rattle.apply_queue.specs.Queues.{Queued, at_place as queued_at, front_is_done, handed_out, is_above, is_done, refusal, shown, with_done};

/// A queue stands for a history: with an entry that is certified, and one that isn't; with a place that is handed out, and one that is
/// done; with a commit, a Give, a state; in ERROR it is empty; and what else happens changes nothing.
pub fn queues_are_those_of_the_rules()
    ensures founded { (me : Inc) → QueuedOf me (Founds ∷ []) [] }
    ensures started { (me : Inc) (x : Stored) → QueuedOf me (Starts x ∷ []) [] }
    ensures certified { (me : Inc) (l : Life) (e : Entry) (c : Cert) (qs : List Queued) → QueuedOf me l qs → is_error (state l) ≡ false
        → cert_of e ≡ c ∷ [] → was_done l c.place ≡ false → QueuedOf me (Took e ∷ l) (with_certified me (executed l) qs c) }
    ensures taken { (me : Inc) (l : Life) (e : Entry) (qs : List Queued) → QueuedOf me l qs → cert_of e ≡ [] → QueuedOf me (Took e ∷ l) qs }
    ensures handed { (me : Inc) (l : Life) (qs : List Queued) → QueuedOf me l qs → QueuedOf me l (handed_out qs) }
    ensures done { (me : Inc) (l : Life) (p : ℕ) (cs : List Change) (ws : List Item) (qs : List Queued) → QueuedOf me l qs → IsRising (queue l me)
        → QueuedOf me (Done p ∷ l) (with_done qs p cs ws) }
    ensures committed { (me : Inc) (l : Life) (g : Gtid) (qs : List Queued) → QueuedOf me l qs → IsCanonical (executed l) → IsUuid g.source
        → IsNumber g.number → QueuedOf me (Committed g ∷ l) (without g qs) }
    ensures restored { (me : Inc) (l : Life) (g : Give) (cs : List Cert) → is_error (state l) ≡ false → ((p : ℕ) → was_done l p ≡ false)
        → QueuedOf me (Restores g cs ∷ l) (works_of me (executed l) cs) }
    ensures stated { (me : Inc) (l : Life) (s : MemberState) (c : Cause) (qs : List Queued) → QueuedOf me l qs → is_error (state l) ≡ false
        → is_error s ≡ false → QueuedOf me (Is s c ∷ l) qs }
    ensures failed { (me : Inc) (l : Life) (c : Cause) → QueuedOf me (Is Error c ∷ l) [] }
    ensures passed { (me : Inc) (l : Life) (d : Did) (qs : List Queued) → is_of_queue d ≡ false → QueuedOf me l qs → QueuedOf me (d ∷ l) qs }
{}

/// A commit takes out its own transaction alone: nothing where none has its GTID, and the first where only that one has it; so it is
/// where no other place of the history's queue has its GTID.
pub fn commits_take_the_first()
    ensures absent { (g : Gtid) (qs : List Queued) → list_all (is_other g) qs ≡ true → without g qs ≡ qs }
    ensures first { (g : Gtid) (q : Queued) (qs : List Queued) → gtid_eq g q.gtid ≡ true → list_all (is_other g) qs ≡ true → without g (q ∷ qs) ≡ qs }
    ensures apart { (me : Inc) (l : Life) (qs : List Queued) (g : Gtid) → QueuedOf me l qs
        → ((c : Cert) → In c (queue l me) → gtid_eq g c.gtid ≡ false) → list_all (is_other g) qs ≡ true }
    ensures behind { (me : Inc) (l : Life) (q : Queued) (qs : List Queued) → QueuedOf me l (q ∷ qs) → IsRising (queue l me)
        → ((d : Cert) → In d (queue l me) → gtid_eq q.gtid d.gtid ≡ true → d.place ≡ q.place) → list_all (is_other q.gtid) qs ≡ true }
{}

/// A transaction at a place above all that are certified may be pushed; and so may those of a Give, one by one.
pub fn pushes_are_those_of_the_rules()
    ensures above { (me : Inc) (l : Life) (qs : List Queued) (p : ℕ) → QueuedOf me l qs → ((d : Cert) → In d (certs l) → d.place < p)
        → is_above qs p ≡ true }
    ensures given { (me : Inc) (e : Gtids) (cs : List Cert) (p : ℕ) → ((d : Cert) → In d cs → d.place < p) → is_above (works_of me e cs) p ≡ true }
    ensures one_more { (me : Inc) (e : Gtids) (cs : List Cert) (c : Cert) → works_of me e (cs ++ c ∷ []) ≡ with_certified me e (works_of me e cs) c }
{}

/// A worker's result is taken and refused as the rules of the group have it; where it is taken, a transaction with its bytes is queued
/// there and isn't done. A queued place has the GTID of its transaction.
pub fn results_are_those_of_the_rules()
    ensures result { (a : Member) (qs : List Queued) (p : ℕ) (b : List ℕ) → QueuedOf a.me.inc a.life qs
        → work p (Some b) a ≡ with_result p (refusal qs p b) a }
    ensures unqueued { (a : Member) (p : ℕ) → work p None a ≡ push (Replied (SaysNotQueued p)) a }
    ensures gtid { (me : Inc) (l : Life) (qs : List Queued) (p : ℕ) → QueuedOf me l qs
        → option_map (λ q. q.gtid) (queued_at qs p) ≡ option_map (λ c. c.gtid) (at_place (queue l me) p) }
    ensures found { (me : Inc) (l : Life) (qs : List Queued) (p : ℕ) (b : List ℕ) → QueuedOf me l qs → refusal qs p b ≡ None
        → (c : Cert) × (at_place (queue l me) p ≡ Some c) × (body_bytes (Writes c.txn) ≡ b) × (was_done l p ≡ false) }
{}

/// Where all certified below a pending transaction of another origin are committed, it is the first of the queue; and a look shows the
/// queue as the rules of the group have it.
pub fn fronts_are_those_of_the_rules()
    ensures rising { (me : Inc) (l : Life) → IsRising (pending l) → IsRising (queue l me) }
    ensures first { (me : Inc) (l : Life) (qs : List Queued) (c : Cert) → QueuedOf me l qs → is_error (state l) ≡ false → IsRising (pending l)
        → In c (pending l) → is_own me c ≡ false → all_below (executed l) (certs l) c.place ≡ true
        → (q : Queued) × (rest : List Queued) × (qs ≡ q ∷ rest) × (as_queued q ≡ work_of c) × (is_done q ≡ was_done l c.place) }
    ensures front { (me : Inc) (l : Life) (qs : List Queued) (c : Cert) → QueuedOf me l qs → is_error (state l) ≡ false → IsRising (pending l)
        → In c (pending l) → is_own me c ≡ false → all_below (executed l) (certs l) c.place ≡ true
        → front_is_done qs c.place ≡ was_done l c.place }
    ensures shown { (a : Member) (qs : List Queued) → QueuedOf a.me.inc a.life qs → show_queue a ≡ ShowsQueue a.me.inc (map shown qs) }
{}
