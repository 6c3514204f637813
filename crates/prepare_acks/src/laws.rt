// How what is kept stands for the histories of the group.
ghost use Rattle.std.specs.Prelude.{◌≡◌, ◌≤◌, ◌<◌, ◌||◌, ◌∷◌, Bool, List, None, Option, Some, [], false, filter, not, true};
ghost use Rattle.gr_ids.specs.declared.names.Gtid.{Gtid as AnyGtid};
ghost use Rattle.gr_ids.specs.declared.names.Inc.{Inc as Member};
ghost use Rattle.gr_ids.specs.Names.{inc_eq};
ghost use Rattle.gtid_sets.specs.Sets.{Gtids};
ghost use Rattle.slot_values.specs.declared.value.Value.{Value as AnyValue};
ghost use Rattle.txn_forms.specs.declared.body.Body.{Body as AnyBody};
ghost use Rattle.txn_forms.specs.declared.body.Body.TheVariants.{Prepared};
ghost use Rattle.paxos_forms.specs.declared.recovery.Give.{Give as AnyGive};
ghost use Rattle.paxos_forms.specs.declared.welcome.Welcome.{Welcome as AnyWelcome};
ghost use Rattle.node_rules.specs.Lists.{In};
ghost use Rattle.group_rules.specs.Commit.{complete, complete_by, required};
ghost use Rattle.group_rules.specs.Events.{Cert, Did, Enters, Entry, Founds, Life, Made, Restores, Setup, Starts, Stored, Took};
ghost use Rattle.group_rules.specs.Life.{cert_of, certs, entry_at, taken, view};
ghost use Rattle.group_rules.specs.View.{online_incs};
ghost use Rattle.prepare_acks.specs.Awaited.{Waiting, awaited, is_complete, is_none};
ghost use Rattle.prepare_acks.specs.Following.{AwaitedOf, HasNone, IsGtid, IsNew, IsOfNewcomer, IsUnprepared, RequiredOf, SentOf, acks_after, is_entry, is_making, is_of_acks, with_required, with_sent};

/// A transaction is complete by the rules of the group where nobody is awaited: of those that it requires, each is its origin, has
/// prepared it, or is a member no more.
pub fn complete_where_nobody_is_awaited()
    ensures { (origin : Member) (prepared is_member : Member → Bool) (required : List Member) → complete_by origin prepared is_member required
        ≡ is_none (filter (λ m. not (inc_eq m origin || (prepared m || not (is_member m)))) required) }
{}

/// Those who are awaited stand for a history: from the begin of an incarnation on; with a Welcome and a Give, before which none was
/// certified; with each entry; what else happens changes nothing. They tell whether an AFTER transaction is complete, as the rules of the
/// group do, and nobody is awaited for any other GTID.
pub fn awaited_are_those_of_the_rules()
    ensures founded { (s : Setup) → AwaitedOf s (Founds ∷ []) [] }
    ensures started { (s : Setup) (x : Stored) → AwaitedOf s (Starts x ∷ []) [] }
    ensures entered { (s : Setup) (l : Life) (w : AnyWelcome) (xs : List Waiting) → AwaitedOf s l xs → certs l ≡ [] → AwaitedOf s (Enters w ∷ l) xs }
    ensures restored { (s : Setup) (l : Life) (g : AnyGive) (cs : List Cert) (xs : List Waiting) → AwaitedOf s l xs → certs l ≡ []
        → ((c : Cert) → In c cs → c.place ≤ taken l) → ((c : Cert) → In c cs → c.txn.after ≡ true → entry_at l c.place ≡ None)
        → AwaitedOf s (Restores g cs ∷ l) xs }
    ensures taken { (s : Setup) (l : Life) (e : Entry) (xs ys : List Waiting) → AwaitedOf s l xs → IsNew l e → IsUnprepared l e → IsOfNewcomer s l e
        → ((g : AnyGtid) → awaited ys g ≡ acks_after (view s (Took e ∷ l)) e (awaited xs) g) → AwaitedOf s (Took e ∷ l) ys }
    ensures passed { (s : Setup) (l : Life) (d : Did) (xs : List Waiting) → is_of_acks d ≡ false → AwaitedOf s l xs → AwaitedOf s (d ∷ l) xs }
    ensures complete { (s : Setup) (l : Life) (c : Cert) (xs : List Waiting) → AwaitedOf s l xs → In c (certs l) → c.txn.after ≡ true
        → is_complete xs c.gtid ≡ complete s l c }
    ensures nobody { (s : Setup) (l : Life) (g : AnyGtid) (xs : List Waiting) → AwaitedOf s l xs → HasNone l g → is_complete xs g ≡ true }
{}

/// A transaction requires the members that are ONLINE once it is taken, and requires them whatever happens later.
pub fn required_are_those_at_its_place()
    ensures taken { (s : Setup) (l : Life) (e : Entry) (c : Cert) → cert_of e ≡ c ∷ [] → required s (Took e ∷ l) c ≡ online_incs (view s (Took e ∷ l)) }
    ensures later { (s : Setup) (l : Life) (e : Entry) (c : Cert) → c.place < e.place → required s (Took e ∷ l) c ≡ required s l c }
    ensures passed { (s : Setup) (l : Life) (d : Did) (c : Cert) → is_entry d ≡ false → required s (d ∷ l) c ≡ required s l c }
{}

/// The GTIDs of the AFTER transactions that require a member stand for its history: an entry adds the one that requires it; those that a
/// Give brought require nobody.
pub fn requiring_gtids_are_those_of_the_rules()
    ensures founded { (s : Setup) (me : Member) → RequiredOf s me (Founds ∷ []) [] }
    ensures started { (s : Setup) (me : Member) (x : Stored) → RequiredOf s me (Starts x ∷ []) [] }
    ensures entered { (s : Setup) (me : Member) (l : Life) (w : AnyWelcome) (set : Gtids) → RequiredOf s me l set → certs l ≡ [] → RequiredOf s me (Enters w ∷ l) set }
    ensures restored { (s : Setup) (me : Member) (l : Life) (g : AnyGive) (cs : List Cert) (set : Gtids) → RequiredOf s me l set → certs l ≡ []
        → ((c : Cert) → In c cs → c.place ≤ taken l) → ((c : Cert) → In c cs → c.txn.after ≡ true → entry_at l c.place ≡ None)
        → RequiredOf s me (Restores g cs ∷ l) set }
    ensures taken { (s : Setup) (me : Member) (l : Life) (e : Entry) (set : Gtids) → RequiredOf s me l set → IsNew l e
        → ((c : Cert) → In c (cert_of e) → c.txn.after ≡ true → IsGtid c.gtid)
        → RequiredOf s me (Took e ∷ l) (with_required me (online_incs (view s (Took e ∷ l))) (cert_of e) set) }
    ensures passed { (s : Setup) (me : Member) (l : Life) (d : Did) (set : Gtids) → is_of_acks d ≡ false → RequiredOf s me l set → RequiredOf s me (d ∷ l) set }
{}

/// The GTIDs for which a member sent a Prepared entry stand for its history: an own value that is one adds its GTID, what else happens
/// adds none.
pub fn sent_gtids_are_those_of_the_rules()
    ensures founded { SentOf (Founds ∷ []) [] }
    ensures started { (x : Stored) → SentOf (Starts x ∷ []) [] }
    ensures made { (l : Life) (v : AnyValue) (x : Option AnyBody) (set : Gtids) → SentOf l set → ((g : AnyGtid) → x ≡ Some (Prepared g) → IsGtid g)
        → SentOf (Made v x ∷ l) (with_sent x set) }
    ensures passed { (l : Life) (d : Did) (set : Gtids) → is_making d ≡ false → SentOf l set → SentOf (d ∷ l) set }
{}
