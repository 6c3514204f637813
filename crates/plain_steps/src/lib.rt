//! What no step of a member leaves, and what it leaves as it was.
#![tactic(auto)]

ghost use Rattle.std.specs.Prelude.{◌≡◌, ◌-◌, length, take};
ghost use Rattle.group_rules.specs.Events.{Event};
ghost use Rattle.group_rules.specs.Life.{stored};
ghost use Rattle.group_rules.specs.Member.{Member};
ghost use Rattle.group_rules.specs.Steps.{step};
ghost use Rattle.plain_steps.specs.Plain.{ArePlain};

/// No step leaves a beginning, or the answer Changed without the change; so it leaves what the server had before as it was.
#[tactic(auto, using(crate::proofs::Stored::stored_stays, crate::proofs::Stored::left_plain))]
pub fn steps_are_plain()
    ensures stored { (e : Event) (a : Member) → stored (step e a).life ≡ stored a.life }
    ensures left { (e : Event) (a : Member) → ArePlain (take (length (step e a).life - length a.life) (step e a).life) }
{}
