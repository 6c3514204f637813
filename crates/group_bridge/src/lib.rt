//! How the rules of a member stand on those of a node: each step of a member is an event of its node followed by acts of it.
#![tactic(auto)]

ghost use Rattle.group_rules.specs.Events.{Event};
ghost use Rattle.group_rules.specs.Member.{Member};
ghost use Rattle.group_rules.specs.Steps.{step};
ghost use Rattle.group_bridge.specs.Moves.{Steps, StepIsActs};

use order_laws::{only_taking_greets, only_taking_takes};

/// Each step of a member is a message heard, if one came that its node hears, and then one small thing after another: acts of its node, messages
/// that aren't the node's, and things left in its history, each of which the history before it allows.
pub fn steps_are_moves()
    ensures { (e : Event) (a : Member) → Steps e a (step e a) }
{}

/// Each step of a member is, to its node, the message that came, if one came, and then a list of acts. Each message that it sends is sent by
/// these, or is one that isn't the node's. Its history grows by what the history before it allows; each slot in it was taken by the acts, and each
/// value that they make is made in it. An Ask, a Give and a Welcome tell what the history of their sender was.
pub fn steps_are_acts()
    ensures { (e : Event) (a : Member) → StepIsActs e a }
{
    only_taking_takes();
    only_taking_greets();
}
