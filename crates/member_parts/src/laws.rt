// What else happens to a member.
ghost use Rattle.std.specs.Prelude.{◌≡◌, ◌∷◌, ℕ, false};
ghost use Rattle.gr_ids.specs.declared.names.Inc.{Inc};
ghost use Rattle.gr_ids.specs.declared.names.ValueId.{ValueId};
ghost use Rattle.gr_ids.specs.declared.levels.MemberState.{MemberState};
ghost use Rattle.group_rules.specs.declared.marks.Cause.{Cause};
ghost use Rattle.group_rules.specs.Events.{AsksCommit, Did, Is, Life, Setup};
ghost use Rattle.group_rules.specs.Life.{is_error, state};
ghost use Rattle.group_rules.specs.Member.{Member, for_each};
ghost use Rattle.group_rules.specs.Sessions.{is_holding, phase, sessions};
ghost use Rattle.group_rules.specs.Steps.{time_out};
ghost use Rattle.member_parts.specs.declared.parts.MemberParts.{MemberParts};
ghost use Rattle.consistency_waits.specs.Following.{all_time_out};
ghost use Rattle.member_parts.specs.Standing.{StandsFor, is_of_parts};

/// What changes no part leaves all standing for the history; so does a state other than ERROR before and after, and the commit that a session asks
/// whose begin isn't held.
pub fn parts_stand_on()
    ensures passed { (s : Setup) (me : Inc) (l : Life) (d : Did) (x : MemberParts) → is_of_parts d ≡ false → StandsFor s me l x → StandsFor s me (d ∷ l) x }
    ensures stated { (s : Setup) (me : Inc) (l : Life) (m : MemberState) (c : Cause) (x : MemberParts) → is_error (state l) ≡ false → is_error m ≡ false
        → StandsFor s me l x → StandsFor s me (Is m c ∷ l) x }
    ensures asked { (s : Setup) (me : Inc) (l : Life) (t : ℕ) (i : ValueId) (x : MemberParts) → is_holding (phase l t) ≡ false → StandsFor s me l x
        → StandsFor s me (AsksCommit t i ∷ l) x }
{}

/// At a tick those end that have reached their limits. Where `timed_out` is called until there is none, and each is answered, one call after
/// another is a turn of this.
pub fn timeouts_are_answered_one_by_one()
    ensures { (a : Member) (x : MemberParts) → StandsFor a.setup a.me.inc a.life x → for_each time_out (sessions a.life) a ≡ all_time_out x.waits a }
{}
