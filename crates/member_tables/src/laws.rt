// What the tables stand for.
ghost use Rattle.std.specs.Prelude.{◌≡◌, ◌≤◌, ◌∷◌, ℕ, List, false};
ghost use Rattle.gr_ids.specs.declared.names.Inc.{Inc};
ghost use Rattle.node_rules.specs.Lists.{In};
ghost use Rattle.node_rules.specs.Node.{Node};
ghost use Rattle.paxos_forms.specs.declared.message.Message.{Message};
ghost use Rattle.paxos_forms.specs.declared.recovery.Give.{Give};
ghost use Rattle.group_rules.specs.Events.{Cert, Committed, Did, Life, Restores, Setup};
ghost use Rattle.group_rules.specs.Life.{last_made};
ghost use Rattle.group_rules.specs.Member.{Member, push};
ghost use Rattle.group_rules.specs.Queue.{is_done, pending};
ghost use Rattle.group_rules.specs.declared.requests.Request.{Request};
ghost use Rattle.group_rules.specs.Calls.{call};
ghost use Rattle.local_sessions.specs.Acting.{after_reply, reply_to};
ghost use Rattle.local_sessions.specs.Following.{TablesOf, touches};
ghost use Rattle.local_sessions.specs.Standing.{session_in};
ghost use Rattle.row_store.specs.Following.{HasPlaces};
ghost use Rattle.member_truth.specs.Truth.{IsTrue, IsTrueDid, IsTrueGive};
ghost use Rattle.member_tables.specs.Committing.{IsNext};
ghost use Rattle.member_tables.specs.declared.tables.MemberTables.{MemberTables as AnyTables};
ghost use Rattle.member_tables.specs.Standing.{TablesFor, is_of_tables};

/// The tables stand for their member whatever its node is and what it has sent; they are those that its sessions read and write, so
/// that the reply to each call is the one of the rules of the group; and what
/// touches none of them leaves them so, and so does a Give, before which no place was done.
pub fn tables_stand_for_their_member()
    ensures moved { (a : Member) (x : AnyTables) (n : Node) (ms : List Message) → TablesFor a x → TablesFor (record a { node = n; sent = ms }) x }
    ensures read { (a : Member) (x : AnyTables) → TablesFor a x → TablesOf x.tables a }
    ensures replied { (a : Member) (x : AnyTables) (s : ℕ) (r : Request) → TablesFor a x
        → call s r a ≡ after_reply s r (reply_to x.tables (session_in x.sessions s) r) a }
    ensures passed { (a : Member) (x : AnyTables) (d : Did) → touches d ≡ false → is_of_tables d ≡ false → last_made a.life ≤ last_made (d ∷ a.life)
        → TablesFor a x → TablesFor (push d a) x }
    ensures restored { (a : Member) (x : AnyTables) (g : Give) (cs : List Cert) → IsTrueGive a.me.inc a.life cs → ((p : ℕ) → is_done a.life p ≡ false)
        → TablesFor a x → TablesFor (push (Restores g cs) a) x }
{}

/// In a history that is true, as every run promises, no two transactions that it knows have one place, and each one that waits may be
/// committed next.
pub fn what_waits_may_come_next()
    ensures places { (s : Setup) (me : Inc) (l : Life) → IsTrue s me l → HasPlaces l }
    ensures next { (s : Setup) (me : Inc) (l : Life) (c : Cert) → IsTrue s me l → In c (pending l) → IsTrueDid s me (Committed c.gtid) l → IsNext l c }
{}
