//! What every run of the group promises to a member about its own history: the facts beyond its own tests on which its parts rest.
#![tactic(auto)]

ghost use Rattle.gr_ids.specs.declared.names.Inc.{Inc};
ghost use Rattle.group_rules.specs.Events.{Event, Life, Setup};
ghost use Rattle.group_rules.specs.Member.{Member};
ghost use Rattle.group_rules.specs.Points.{point};
ghost use Rattle.group_rules.specs.Steps.{act, step};
ghost use Rattle.group_rules.specs.Taking.{settle_slots};
ghost use Rattle.member_truth.specs.Growing.{Begins, Grows, IsPromised};
ghost use Rattle.member_truth.specs.Ranged.{IsRanged};
ghost use Rattle.member_truth.specs.Truth.{IsTrue};

/// What is promised of a history is promised of each with which it begins; and what is promised and within its ranges is true.
pub fn promises_are_of_the_past()
    ensures before { (s : Setup) (me : Inc) (k l : Life) → Begins k l → IsPromised s me l → IsPromised s me k }
    ensures now { (s : Setup) (me : Inc) (l : Life) → IsRanged l → IsPromised s me l → IsTrue s me l }
{}

/// What a step does goes behind what happened before: its action, a point, the slots, and the whole.
pub fn histories_grow()
    ensures action { (e : Event) (a : Member) → Grows a (act e a) }
    ensures point { (a : Member) → Grows a (point a) }
    ensures slots { (a : Member) → Grows a (settle_slots a) }
    ensures step { (e : Event) (a : Member) → Grows a (step e a) }
{}
