//! The laws of the order: what holds of every run of a world of nodes, whatever is lost, repeated, reordered, stopped and started.
#![tactic(auto)]

ghost use Rattle.order_laws.specs.Laws.{InEveryRun, AtMostOneChosen, OneLog, TakenAlike, KeptAsInLog, Follows, Consecutive, MadeBefore, Named, WelcomesFollow, OnlyTakingTakes, HearingTakesNone, OnlyTakingGreets, HearingGreetsNobody, TakingIsSilent};

/// In each slot at most one value is chosen, over every change of the members: a majority of the slot's configuration voted
/// for it at one ballot. A vote that was cast and forgotten counts, and so does one of a node that stopped.
/// (Lamport, "Paxos Made Simple"; Lamport, Malkhi, Zhou, "Reconfiguring a State Machine".)
pub fn one_value_in_each_slot()
    ensures chosen { InEveryRun AtMostOneChosen }
    ensures log { InEveryRun OneLog }
{}

/// Members take parts of one list: no two incarnations differ in the value of a slot that they took; what it became, kept at
/// its place with effect or not, or skipped, is what the log of chosen values before it gives; and the members and the
/// configurations that each incarnation knows are those of a log of chosen values.
pub fn one_list()
    ensures taken { InEveryRun TakenAlike }
    ensures kept { InEveryRun KeptAsInLog }
    ensures follows { InEveryRun Follows }
{}

/// Each incarnation takes consecutive slots: a founder from slot 1, a joiner from just after the slot of its own Add, which
/// took effect there.
pub fn consecutive_slots()
    ensures { InEveryRun Consecutive }
{}

/// Each incarnation has its own node. A Welcome tells of the log what a log of chosen values gives, up to the slot of the joiner's own Add.
pub fn welcomes_follow()
    ensures named { InEveryRun Named }
    ensures welcomes { InEveryRun WelcomesFollow }
{}

/// Slots are handed out by the act of taking one alone.
pub fn only_taking_takes()
    ensures acts { OnlyTakingTakes }
    ensures messages { HearingTakesNone }
{}

/// Welcomes are sent by the act of taking a slot alone, which sends nothing else; a node sends no Ask and no Give.
pub fn only_taking_greets()
    ensures acts { OnlyTakingGreets }
    ensures messages { HearingGreetsNobody }
    ensures silent { TakingIsSilent }
{}

/// Each value that is taken was made before by its origin, but for a Noop.
pub fn no_value_invented()
    ensures { InEveryRun MadeBefore }
{}
