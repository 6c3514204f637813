// The sessions of a member stand for its history.
ghost use Rattle.std.specs.Prelude.{◌≡◌, ◌≤◌, ◌∷◌, ◌++◌, ℕ, [], List, None, Option, Some, map, true, false, ◌==◌, filter, length, not, reverse};
ghost use Rattle.group_rules.specs.declared.requests.Request.{Request};
ghost use Rattle.gr_ids.specs.declared.levels.Level.{Level};
ghost use Rattle.gr_ids.specs.declared.names.Gtid.{Gtid};
ghost use Rattle.gr_ids.specs.declared.names.ValueId.{ValueId};
ghost use Rattle.gtid_sets.specs.Sets.{Gtids};
ghost use Rattle.key_items.specs.declared.item.Item.{Item};
ghost use Rattle.key_items.specs.declared.change.Change.{Change};
ghost use Rattle.group_rules.specs.Events.{AsksCommit, Begun, Called, Cert, Changed, Did, Done, Ends as EndsIn, Is, Life};
ghost use Rattle.group_rules.specs.Life.{certs, last_made, state};
ghost use Rattle.group_rules.specs.Queue.{at_place, is_done, queue};
ghost use Rattle.group_rules.specs.Holds.{is_after};
ghost use Rattle.group_rules.specs.Member.{Member as AnyMember, fall, for_each, push};
ghost use Rattle.gr_ids.specs.declared.names.Inc.{Inc};
ghost use Rattle.group_rules.specs.Points.{answer_commit};
ghost use Rattle.group_rules.specs.Taking.{answer_conflict};
ghost use Rattle.group_rules.specs.declared.answers.Answer.{Answer as AnyAnswer};
ghost use Rattle.group_rules.specs.declared.answers.Outcome.TheVariants.{Committed, Conflict};
ghost use Rattle.group_rules.specs.declared.marks.Cause.{Cause as AnyCause};
ghost use Rattle.gr_ids.specs.declared.levels.MemberState.TheVariants.{Error};
ghost use Rattle.group_rules.specs.Sessions.{is_active, is_holding, phase, sessions};
ghost use Rattle.group_rules.specs.Keys.{killed, place_holder, was_left};
ghost use Rattle.group_rules.specs.Calls.{call, txn_of as txn_in};
ghost use Rattle.group_rules.specs.declared.answers.Answer.TheVariants.{Held};
ghost use Rattle.group_rules.specs.declared.requests.Request.TheVariants.{Begin, Commit};
ghost use Rattle.txn_forms.specs.Bodies.{IsHeldTxn, IsTxn, body_bytes};
ghost use Rattle.txn_forms.specs.declared.body.Body.TheVariants.{Txn as Writes};
ghost use Rattle.row_locks.specs.Locking.{Locked, holders_of, other_session, session_at, taken_over, place_at, with_place, without_place};
ghost use Rattle.local_sessions.specs.declared.tables.Tables.{Tables as AnyTables};
ghost use Rattle.local_sessions.specs.declared.told.TakenOwn.{TakenOwn};
ghost use Rattle.local_sessions.specs.declared.commit_step.CommitStep.TheVariants.{Ready, Said};
ghost use Rattle.local_sessions.specs.Standing.{Active, Asking, Session, ascend, at_stage, begins, changed_at, is_held, session_in, stage_of};
ghost use Rattle.local_sessions.specs.Replies.{Asks, Does, Ends, Holds, Reply as AnyReply, Writing, keys_after, sessions_after};
ghost use Rattle.local_sessions.specs.Others.{answer_of, answers_left, asking, killed_by, left, sessions_left, unless_killed, without_told};
ghost use Rattle.local_sessions.specs.Following.{AsksOnce, LeftActive, LocksOf, StandFor, TablesOf, asks_as, does_place, is_free, touches, done_places, place_of, rise};
ghost use Rattle.local_sessions.specs.Committing.{IsSpeltIn};
ghost use Rattle.local_sessions.specs.Telling.{Fits, ends_by, is_begin, is_last};
ghost use Rattle.local_sessions.specs.Acting.{TakenOf, after_reply, reply_to, sent_as, tell, told_to};

/// Where the sessions and the tables stand for a history, and what was left is active, the reply to each call is what the rules of the group give.
pub fn replies_are_those_of_the_rules()
    ensures { (xs : List Session) (at : AnyTables) (a : AnyMember) (s : ℕ) (r : Request) → StandFor xs a.life → LeftActive a.life → TablesOf at a
        → call s r a ≡ after_reply s r (reply_to at (session_in xs s) r) a }
{}

/// The answer of a call tells what it did besides: nothing, or it ended the transaction, or a row was changed. A begin that is held is of a
/// session that has no transaction. A body that is handed out is that of the rules' transaction, of at most 16,777,216 bytes; no begin of its session is held.
pub fn answers_tell_what_is_done()
    ensures called { (xs : List Session) (at : AnyTables) (s : ℕ) (r : Request) (w : AnyAnswer) → is_begin r ≡ false → (reply_to at (session_in xs s) r).answer ≡ Said w
        → Fits (ends_by r w) w (reply_to at (session_in xs s) r).deed }
    ensures begun { (xs : List Session) (at : AnyTables) (s : ℕ) (v : Level) (n : ℕ) (w : AnyAnswer) → (w ≡ Held → ⊥)
        → (reply_to at (session_in xs s) (Begin v n)).answer ≡ Said w → Fits (is_last w) w (reply_to at (session_in xs s) (Begin v n)).deed }
    ensures held { (xs : List Session) (at : AnyTables) (l : Life) (s : ℕ) (v : Level) (n : ℕ) → StandFor xs l
        → (reply_to at (session_in xs s) (Begin v n)).answer ≡ Said Held
        → (is_holding (phase l s) ≡ false) × ((reply_to at (session_in xs s) (Begin v n)).deed ≡ Holds (is_after v) at.state) }
    ensures sized { (xs : List Session) (at : AnyTables) (s : ℕ) (b : List ℕ) → (reply_to at (session_in xs s) Commit).answer ≡ Ready b
        → (1 ≤ length b) × (length b ≤ 16777216) }
    ensures sent { (xs : List Session) (at : AnyTables) (a : AnyMember) (s : ℕ) (b : List ℕ) → StandFor xs a.life → LeftActive a.life → TablesOf at a
        → (reply_to at (session_in xs s) Commit).answer ≡ Ready b → (b ≡ body_bytes (Writes (txn_in s a))) × ((is_holding (phase a.life s) ≡ false)
        × (IsSpeltIn at (session_in xs s) (Ready b) → IsTxn (txn_in s a) × IsHeldTxn (txn_in s a))) }
{}

/// After a call, the sessions and the locks stand for the history that the rules of the group leave, and what was left is active; where the
/// commit is asked, they do once its body is sent.
pub fn calls_leave_what_the_rules_leave()
    ensures said { (xs new : List Session) (at now : AnyTables) (a : AnyMember) (s : ℕ) (r : Request) (x : AnyAnswer) → StandFor xs a.life → LeftActive a.life → TablesOf at a
        → (reply_to at (session_in xs s) r).answer ≡ Said x → Does (reply_to at (session_in xs s) r).deed s xs new at now
        → StandFor new (call s r a).life × LocksOf now.locks (call s r a).life × LeftActive (call s r a).life }
    ensures sent { (xs new : List Session) (at now : AnyTables) (a : AnyMember) (s : ℕ) (r : Request) (b : List ℕ) → StandFor xs a.life → LeftActive a.life → TablesOf at a
        → (reply_to at (session_in xs s) r).answer ≡ Ready b → Does (reply_to at (session_in xs s) r).deed s xs new at now
        → StandFor (changed_at s (at_stage (Asking (sent_as b a))) new) (call s r a).life × LocksOf now.locks (call s r a).life × LeftActive (call s r a).life }
{}

/// The sessions stand for their history: they begin as those of no history, and each thing that happens makes them those of the longer one.
pub fn sessions_follow_their_history()
    ensures none { StandFor [] [] }
    ensures passed { (xs : List Session) (l : Life) (d : Did) → touches d ≡ false → StandFor xs l → StandFor xs (d ∷ l) }
    ensures fallen { (xs : List Session) (l : Life) (c : AnyCause) → StandFor xs l → StandFor (map left xs) (Is Error c ∷ l) }
    ensures called { (xs : List Session) (l : Life) (s : ℕ) (v : Level) (w : ℕ) → StandFor xs l → session_in xs s ≡ None
        → StandFor (sessions_after (Holds (is_after v) (state l)) s xs) (Called s v w ∷ l) }
    ensures begun { (xs : List Session) (l : Life) (s : ℕ) (e : Gtids) (y : Option ℕ) → StandFor xs l → LeftActive l → is_held (session_in xs s) ≡ true
        → StandFor (changed_at s (begins e) xs) (Begun s e y ∷ l) }
    ensures held { (xs : List Session) (k : Locked) (l : Life) (s : ℕ) → StandFor xs l → LocksOf k l → is_held (session_in xs s) ≡ is_holding (phase l s) }
    ensures changed { (xs : List Session) (l : Life) (s : ℕ) (c : Change) → StandFor xs l → stage_of (session_in xs s) ≡ Some Active
        → StandFor (sessions_after (Writing c) s xs) (Changed s c ∷ l) }
    ensures asked { (xs : List Session) (l : Life) (s : ℕ) (i : ValueId) → StandFor xs l → stage_of (session_in xs s) ≡ Some Active
        → StandFor (changed_at s (at_stage (Asking i)) (sessions_after Asks s xs)) (AsksCommit s i ∷ l) }
    ensures ended { (xs : List Session) (l : Life) (s : ℕ) → StandFor xs l → StandFor (sessions_after Ends s xs) (EndsIn s ∷ l) }
    ensures done { (xs : List Session) (k : Locked) (l : Life) (p : ℕ) (c : Cert) → StandFor xs l → LocksOf k l → at_place (certs l) p ≡ Some c
        → StandFor (map (killed_by c.gtid (holders_of k.keys c.txn.items)) xs) (Done p ∷ l) }
{}

/// The locks stand for the history: who holds which key is what the history says, from the beginning on and after each thing that happens.
pub fn locks_follow_their_history()
    ensures none { LocksOf (record { keys = []; places = [] }) [] }
    ensures passed { (k : Locked) (l : Life) (d : Did) → touches d ≡ false → LocksOf k l → LocksOf k (d ∷ l) }
    ensures fallen { (k : Locked) (l : Life) (c : AnyCause) → LocksOf k l → LocksOf k (Is Error c ∷ l) }
    ensures called { (k : Locked) (l : Life) (s : ℕ) (v : Level) (w : ℕ) → LocksOf k l → is_free (phase l s) ≡ true → LocksOf k (Called s v w ∷ l) }
    ensures begun { (k : Locked) (l : Life) (s : ℕ) (e : Gtids) (y : Option ℕ) → LocksOf k l → is_holding (phase l s) ≡ true → LocksOf k (Begun s e y ∷ l) }
    ensures changed { (k now : Locked) (l : Life) (s : ℕ) (c : Change) → LocksOf k l → is_active (phase l s) ≡ true → killed l s ≡ None
        → other_session s (session_at k.keys c.item) ≡ None → ((j : Item) → session_at now.keys j ≡ keys_after (Writing c) s (session_at k.keys) j)
        → LocksOf now (Changed s c ∷ l) }
    ensures asked { (k : Locked) (l : Life) (s : ℕ) (i : ValueId) → LocksOf k l → is_active (phase l s) ≡ true → killed l s ≡ None
        → LocksOf k (AsksCommit s i ∷ l) }
    ensures ended { (k now : Locked) (l : Life) (s : ℕ) → LocksOf k l → ((j : Item) → session_at now.keys j ≡ keys_after Ends s (session_at k.keys) j)
        → LocksOf now (EndsIn s ∷ l) }
    ensures timed_out { (k : Locked) (l : Life) (s : ℕ) → LocksOf k l → is_holding (phase l s) ≡ true → LocksOf k (EndsIn s ∷ l) }
    ensures done { (xs : List Session) (k now : Locked) (l : Life) (p : ℕ) (c : Cert) → StandFor xs l → LocksOf k l → at_place (certs l) p ≡ Some c
        → ((j : Item) → session_at now.keys j ≡ unless_killed xs (holders_of k.keys c.txn.items) (taken_over c.txn.items (session_at k.keys) j))
        → LocksOf now (Done p ∷ l) }
{}

/// Where a value is decided, the session that is answered is the one that the rules of the group answer: each value is waited for by one
/// session at most.
pub fn decisions_are_those_of_the_rules()
    ensures committed { (xs : List Session) (k : Locked) (a : AnyMember) (c : Cert) → ascend xs ≡ true → StandFor xs a.life → LocksOf k a.life
        → ((s t : ℕ) → asks_as c.id (phase a.life s) ≡ true → asks_as c.id (phase a.life t) ≡ true → t ≡ s)
        → for_each (answer_commit c) (sessions a.life) a ≡ told_to (asking xs c.id) (answer_of (Committed c.gtid)) a }
    ensures conflicted { (xs : List Session) (k : Locked) (a : AnyMember) (i : ValueId) (g : Gtid) → ascend xs ≡ true → StandFor xs a.life → LocksOf k a.life
        → ((s t : ℕ) → asks_as i (phase a.life s) ≡ true → asks_as i (phase a.life t) ≡ true → t ≡ s)
        → for_each (answer_conflict i g) (sessions a.life) a ≡ told_to (asking xs i) (answer_of (Conflict g)) a }
{}

/// Each value is waited for by one session at most: a commit is asked as a value that is made next, and those that were asked before have
/// been made.
pub fn each_value_is_awaited_once()
    ensures none { AsksOnce [] }
    ensures passed { (l : Life) (d : Did) → touches d ≡ false → last_made l ≤ last_made (d ∷ l) → AsksOnce l → AsksOnce (d ∷ l) }
    ensures fallen { (l : Life) (c : AnyCause) → AsksOnce l → AsksOnce (Is Error c ∷ l) }
    ensures called { (l : Life) (s : ℕ) (v : Level) (w : ℕ) → AsksOnce l → AsksOnce (Called s v w ∷ l) }
    ensures begun { (l : Life) (s : ℕ) (e : Gtids) (y : Option ℕ) → AsksOnce l → AsksOnce (Begun s e y ∷ l) }
    ensures changed { (l : Life) (s : ℕ) (c : Change) → AsksOnce l → AsksOnce (Changed s c ∷ l) }
    ensures ended { (l : Life) (s : ℕ) → AsksOnce l → AsksOnce (EndsIn s ∷ l) }
    ensures done { (l : Life) (p : ℕ) → AsksOnce l → AsksOnce (Done p ∷ l) }
    ensures replied { (s : ℕ) (r : Request) (q : AnyReply) (a : AnyMember) → AsksOnce a.life → AsksOnce (after_reply s r q a).life }
{}

/// When the member takes ERROR, its sessions are told what the rules of the group tell them; those that are left stand for its history, and
/// so do the locks without the keys of those that were told.
pub fn the_left_are_told_by_the_rules()
    ensures told { (xs : List Session) (k : Locked) (ts : List TakenOwn) (a : AnyMember) (c : AnyCause) → ascend xs ≡ true → StandFor xs a.life → LocksOf k a.life
        → TakenOf ts a.life → fall c a ≡ tell (answers_left ts xs) (push (Is Error c) a) }
    ensures left { (xs : List Session) (k : Locked) (ts : List TakenOwn) (a : AnyMember) (c : AnyCause) → ascend xs ≡ true → StandFor xs a.life → LocksOf k a.life
        → TakenOf ts a.life → StandFor (sessions_left xs) (fall c a).life }
    ensures freed { (xs : List Session) (k now : Locked) (ts : List TakenOwn) (a : AnyMember) (c : AnyCause) → ascend xs ≡ true → StandFor xs a.life → LocksOf k a.life
        → TakenOf ts a.life → ((j : Item) → session_at now.keys j ≡ without_told (answers_left ts xs) (session_at k.keys j)) → LocksOf now (fall c a).life }
    ensures active { (k : Locked) (a : AnyMember) (c : AnyCause) → LocksOf k a.life → LeftActive (fall c a).life }
{}

/// What was left by a fall is active: each thing that happens keeps this, but ERROR itself, after which it holds again once all are told.
pub fn the_left_stay_active()
    ensures none { LeftActive [] }
    ensures passed { (l : Life) (d : Did) → touches d ≡ false → LeftActive l → LeftActive (d ∷ l) }
    ensures called { (l : Life) (s : ℕ) (v : Level) (w : ℕ) → LeftActive l → LeftActive (Called s v w ∷ l) }
    ensures begun { (l : Life) (s : ℕ) (e : Gtids) (y : Option ℕ) → LeftActive l → LeftActive (Begun s e y ∷ l) }
    ensures changed { (l : Life) (s : ℕ) (c : Change) → LeftActive l → LeftActive (Changed s c ∷ l) }
    ensures asked { (l : Life) (s : ℕ) (i : ValueId) → LeftActive l → was_left l s ≡ false → LeftActive (AsksCommit s i ∷ l) }
    ensures ended { (l : Life) (s : ℕ) → LeftActive l → LeftActive (EndsIn s ∷ l) }
    ensures done { (l : Life) (p : ℕ) → LeftActive l → LeftActive (Done p ∷ l) }
{}

/// The places that are done, of those queued, stay the places of the locks: one more is queued, or done, or committed, and a fall leaves
/// none. A key that they hold is held by the one that the rules of the group name. What is queued at a place is what was certified there.
pub fn places_follow_their_queue()
    ensures none { (l : Life) (cs : List Cert) → ((p : ℕ) → is_done l p ≡ false) → done_places l cs ≡ [] }
    ensures passed { (l : Life) (d : Did) (cs : List Cert) → does_place d ≡ false → done_places (d ∷ l) cs ≡ done_places l cs }
    ensures queued { (l : Life) (me : Inc) (p : ℕ) (c : Cert) → rise (reverse (certs l)) ≡ true → at_place (queue l me) p ≡ Some c → at_place (certs l) p ≡ Some c }
    ensures taken { (l : Life) (cs : List Cert) (c : Cert) → is_done l c.place ≡ false → done_places l (cs ++ c ∷ []) ≡ done_places l cs }
    ensures fallen { (a : AnyMember) (c : AnyCause) (me : Inc) → queue (fall c a).life me ≡ [] }
    ensures named { (l : Life) (i : Item) (cs : List Cert) → place_at (done_places l cs) i ≡ place_holder l i cs }
    ensures done { (l : Life) (p : ℕ) (c : Cert) (cs : List Cert) → rise cs ≡ true → at_place cs p ≡ Some c → is_done l p ≡ false
        → with_place (done_places l cs) (place_of c) ≡ done_places (Done p ∷ l) cs }
    ensures freed { (l : Life) (p : ℕ) (cs : List Cert) → without_place p (done_places l cs) ≡ done_places l (filter (λ c. not (c.place == p)) cs) }
{}
