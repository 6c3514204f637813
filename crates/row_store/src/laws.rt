// What the rows stand for.
ghost use Rattle.std.specs.Prelude.{◌≡◌, ◌∷◌, ◌++◌, [], List, Some, false};
ghost use Rattle.gr_ids.specs.declared.names.Gtid.{Gtid};
ghost use Rattle.gtid_sets.specs.Canonical.{IsCanonical, IsNumber, IsUuid};
ghost use Rattle.gtid_sets.specs.Sets.{Gtids, has};
ghost use Rattle.key_items.specs.declared.item.Item.{Item};
ghost use Rattle.node_rules.specs.Lists.{In};
ghost use Rattle.paxos_forms.specs.declared.recovery.Give.{Give};
ghost use Rattle.group_rules.specs.Events.{Cert, Committed, Did, Entry, Founds, Life, OfflineWrite, Restores, Starts, Stored, Took};
ghost use Rattle.group_rules.specs.Life.{cert_of, certs, executed, stored};
ghost use Rattle.group_rules.specs.Member.{Member};
ghost use Rattle.group_rules.specs.Rows.{changed_row, row_of};
ghost use Rattle.group_rules.specs.World.{nothing_stored, stored_by};
ghost use Rattle.row_store.specs.Chains.{Chain, IsApplied, IsFoldOf, row_at, row_now};
ghost use Rattle.row_store.specs.Following.{HasCommitted, HasPlaces, IsCommit, IsFree, IsPartOf, RowsOf, is_of_rows, is_start, with_write, write_change};

/// The rows are the fold of the transactions in the order in which they were applied: from no rows on, and after each one that is applied.
pub fn rows_are_the_fold()
    ensures none { IsFoldOf [] [] }
    ensures more { (old new : List Chain) (ts : List Cert) (t : Cert) → IsFoldOf old ts → IsApplied old new t.gtid t.txn.changes → IsFoldOf new (ts ++ t ∷ []) }
{}

/// The rows stand for a history: from the founding, or the first start of a server, on; with an entry that is certified, and one that
/// isn't; with a Give; and with a commit, whose changes are applied behind those of later places that are committed already, since
/// these share no row with it. What else happens changes nothing.
pub fn rows_are_those_of_the_rules()
    ensures founded { RowsOf (Founds ∷ []) [] }
    ensures started { RowsOf (Starts nothing_stored ∷ []) [] }
    ensures taken { (l : Life) (e : Entry) (cs : List Chain) → RowsOf l cs → cert_of e ≡ [] → RowsOf (Took e ∷ l) cs }
    ensures certified { (l : Life) (e : Entry) (c : Cert) (cs : List Chain) → RowsOf l cs → cert_of e ≡ c ∷ [] → has (executed l) c.gtid ≡ false
        → RowsOf (Took e ∷ l) cs }
    ensures restored { (l : Life) (g : Give) (ts : List Cert) (cs : List Chain) → RowsOf l cs → certs l ≡ []
        → ((c : Cert) → In c ts → has (executed l) c.gtid ≡ false) → RowsOf (Restores g ts ∷ l) cs }
    ensures committed { (l : Life) (g : Gtid) (c : Cert) (old new : List Chain) → RowsOf l old → IsCommit l g c → IsCanonical (executed l)
        → IsUuid g.source → IsNumber g.number → IsApplied old new g c.txn.changes
        → ((i : Item) → row_now new i ≡ changed_row i (row_now old i) c.txn.changes) → RowsOf (Committed g ∷ l) new }
    ensures passed { (l : Life) (d : Did) (cs : List Chain) → is_of_rows d ≡ false → RowsOf l cs → RowsOf (d ∷ l) cs }
{}

/// The rows of an incarnation that stops are those of its server's next one; and so they are after a row is written in between, as an
/// insert.
pub fn rows_stay_with_their_server()
    ensures kept { (x : Stored) (a : Member) (cs : List Chain) → RowsOf a.life cs → x.writes ≡ (stored a.life).writes → HasPlaces a.life
        → HasCommitted a.life → RowsOf (Starts (stored_by x (Some a)) ∷ []) cs }
    ensures written { (y : Stored) (w : OfflineWrite) (old new : List Chain) → RowsOf (Starts y ∷ []) old → IsFree (Starts y ∷ []) w.gtid
        → IsCanonical y.executed → IsUuid w.gtid.source → IsNumber w.gtid.number → IsApplied old new w.gtid (write_change w ∷ [])
        → ((i : Item) → row_now new i ≡ changed_row i (row_now old i) (write_change w ∷ [])) → RowsOf (Starts (with_write y w) ∷ []) new }
{}

/// What an incarnation executed of the transactions that it took or was given, it committed, so that its server keeps them: from its
/// begin on, and with each thing that happens, if what is taken or given hasn't been executed.
pub fn what_is_executed_is_committed()
    ensures founded { HasCommitted (Founds ∷ []) }
    ensures started { (x : Stored) → HasCommitted (Starts x ∷ []) }
    ensures taken { (l : Life) (e : Entry) → HasCommitted l → ((c : Cert) → In c (cert_of e) → has (executed l) c.gtid ≡ false)
        → HasCommitted (Took e ∷ l) }
    ensures restored { (l : Life) (g : Give) (ts : List Cert) → ((c : Cert) → In c ts → has (executed l) c.gtid ≡ false)
        → HasCommitted (Restores g ts ∷ l) }
    ensures committed { (l : Life) (g : Gtid) → HasCommitted l → IsCanonical (executed l) → IsUuid g.source → IsNumber g.number
        → HasCommitted (Committed g ∷ l) }
    ensures passed { (l : Life) (d : Did) → is_of_rows d ≡ false → HasCommitted l → HasCommitted (d ∷ l) }
{}

/// The rows now, and those of a set of which all is executed, are those of the rules of the group; and such a set stays one.
pub fn sets_are_read_by_the_rules()
    ensures now { (l : Life) (cs : List Chain) (i : Item) → RowsOf l cs → row_now cs i ≡ row_of l (executed l) i }
    ensures at { (l : Life) (cs : List Chain) (i : Item) (e : Gtids) → RowsOf l cs → IsPartOf e (executed l) → row_at cs i e ≡ row_of l e i }
    ensures within { (l : Life) (d : Did) (e : Gtids) → is_start d ≡ false → IsPartOf e (executed l) → IsPartOf e (executed (d ∷ l)) }
{}
