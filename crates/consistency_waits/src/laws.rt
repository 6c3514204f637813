// The holds of a member stand for its history.
ghost use Rattle.std.specs.Prelude.{◌≡◌, ◌∷◌, ◌≤◌, ℕ, [], List, None, Option, Some, false, filter, find, map, not, suc, true};
ghost use Rattle.std.specs.List.{list_any};
ghost use Rattle.gr_ids.specs.Names.{inc_eq};
ghost use Rattle.gr_ids.specs.declared.levels.Level.{Level};
ghost use Rattle.gr_ids.specs.declared.names.Inc.{Inc};
ghost use Rattle.gr_ids.specs.declared.names.ValueId.{ValueId};
ghost use Rattle.gtid_sets.specs.Sets.{Gtids};
ghost use Rattle.group_rules.specs.declared.marks.Cause.{Cause};
ghost use Rattle.group_rules.specs.Events.{AsksCommit, Begun, Called, Came, Did, Ends, Entry, Life, Setup, Ticks, Took};
ghost use Rattle.group_rules.specs.Holds.{conditions, standing};
ghost use Rattle.group_rules.specs.Life.{executed, last_made, own_place};
ghost use Rattle.group_rules.specs.Member.{Member, fall, for_each};
ghost use Rattle.group_rules.specs.Points.{begin_all};
ghost use Rattle.group_rules.specs.Sessions.{is_holding, phase, sessions};
ghost use Rattle.group_rules.specs.Steps.{time_out};
ghost use Rattle.consistency_waits.specs.Following.{HeldOf, begins, times_out, touches};
ghost use Rattle.consistency_waits.specs.Holding.{Held, ascend, is_due, is_held, is_over, last_tick, new_hold, placed, released_as, ticked, with_hold, without};

/// The holds stand for their history: they begin as those of no history, and each thing that happens makes them those of the longer one.
/// A Sync that a begin names hasn't been taken when it is called; an end of what isn't held leaves all.
pub fn holds_follow_their_history()
    ensures none { (s : Setup) (me : Inc) → HeldOf s me [] [] }
    ensures passed { (s : Setup) (me : Inc) (l : Life) (hs : List Held) (d : Did) → touches d ≡ false → HeldOf s me l hs → HeldOf s me (d ∷ l) hs }
    ensures called { (s : Setup) (me : Inc) (l : Life) (hs : List Held) (t : ℕ) (v : Level) (w : ℕ) → HeldOf s me l hs → is_holding (phase l t) ≡ false
        → own_place l me (suc (last_made l)) ≡ None → w ≤ last_tick → HeldOf s me (Called t v w ∷ l) (with_hold hs (new_hold t (conditions s me v l) w)) }
    ensures begun { (s : Setup) (me : Inc) (l : Life) (hs : List Held) (t : ℕ) (e : Gtids) (y : Option ℕ) → HeldOf s me l hs
        → HeldOf s me (Begun t e y ∷ l) (without t hs) }
    ensures asked { (s : Setup) (me : Inc) (l : Life) (hs : List Held) (t : ℕ) (i : ValueId) → HeldOf s me l hs → is_holding (phase l t) ≡ false
        → HeldOf s me (AsksCommit t i ∷ l) hs }
    ensures ended { (s : Setup) (me : Inc) (l : Life) (hs : List Held) (t : ℕ) → HeldOf s me l hs → HeldOf s me (Ends t ∷ l) (without t hs) }
    ensures others { (s : Setup) (me : Inc) (l : Life) (hs : List Held) (t : ℕ) → HeldOf s me l hs → is_holding (phase l t) ≡ false → without t hs ≡ hs }
    ensures ticked { (s : Setup) (me : Inc) (l : Life) (hs : List Held) → HeldOf s me l hs → HeldOf s me (Came Ticks ∷ l) (map ticked hs) }
    ensures taken { (s : Setup) (me : Inc) (l : Life) (hs : List Held) (e : Entry) → HeldOf s me l hs
        → HeldOf s me (Took e ∷ l) (map (placed e.value.id e.place) hs) }
    ensures foreign { (s : Setup) (me : Inc) (l : Life) (hs : List Held) (e : Entry) → HeldOf s me l hs → inc_eq e.value.id.origin me ≡ false
        → HeldOf s me (Took e ∷ l) hs }
    ensures held { (s : Setup) (me : Inc) (l : Life) (hs : List Held) (t : ℕ) → HeldOf s me l hs → is_held hs t ≡ is_holding (phase l t) }
{}

/// At a point those begin whose conditions hold, ascending, all in the set that is executed then; the others are held still.
pub fn begins_are_those_of_the_rules()
    ensures begun { (a : Member) (hs : List Held) → HeldOf a.setup a.me.inc a.life hs
        → begin_all a ≡ begins (executed a.life) (map released_as (filter (is_due (standing a.life)) hs)) a }
    ensures left { (a : Member) (hs : List Held) → HeldOf a.setup a.me.inc a.life hs
        → HeldOf a.setup a.me.inc (begin_all a).life (filter (λ h. not (is_due (standing a.life) h)) hs) }
    ensures idle { (a : Member) (hs : List Held) → HeldOf a.setup a.me.inc a.life hs → list_any (is_due (standing a.life)) hs ≡ false → begin_all a ≡ a }
{}

/// At a tick, which is counted first, those end that have reached their limits, ascending; the others are held still. The least one of
/// these, and then the least one of the rest, and so on, are all of them.
pub fn timeouts_are_those_of_the_rules()
    ensures ended { (a : Member) (hs : List Held) → HeldOf a.setup a.me.inc a.life hs
        → for_each time_out (sessions a.life) a ≡ times_out (filter is_over hs) a }
    ensures left { (a : Member) (hs : List Held) → HeldOf a.setup a.me.inc a.life hs
        → HeldOf a.setup a.me.inc (for_each time_out (sessions a.life) a).life (filter (λ h. not (is_over h)) hs) }
    ensures first { (hs : List Held) (h : Held) → ascend hs ≡ true → find is_over hs ≡ Some h → filter is_over hs ≡ h ∷ filter is_over (without h.session hs) }
    ensures rest { (hs : List Held) (h : Held) → ascend hs ≡ true → find is_over hs ≡ Some h
        → filter (λ x. not (is_over x)) (without h.session hs) ≡ filter (λ x. not (is_over x)) hs }
    ensures none { (hs : List Held) → find is_over hs ≡ None → filter is_over hs ≡ [] }
    ensures all { (hs : List Held) → find is_over hs ≡ None → filter (λ x. not (is_over x)) hs ≡ hs }
{}

/// When the member takes ERROR, no begin is held any more.
pub fn a_fall_ends_all_holds()
    ensures { (a : Member) (c : Cause) (hs : List Held) → HeldOf a.setup a.me.inc a.life hs → HeldOf a.setup a.me.inc (fall c a).life [] }
{}
