// The actions of operators.
ghost use Rattle.std.specs.Prelude.{◌≡◌};
ghost use Rattle.script_text.specs.Words.{words_of};
ghost use Rattle.script_text.specs.Operators.{action_of, donor_of, operator_of};

use crate::names::{inc_or_none, only_inc};
use crate::servers::next_server;
use crate::words::{has_no_word, is_word};
use group_rules::{Operator, Step};

/// An action at a member, its name and what stands behind N.
#[tactic(auto, unfolding(crate::specs::Operators::action_of))]
pub fn read_action(name: &[u8], line: &[u8]) -> Option<Operator>
    ensures { result ≡ action_of name.now (words_of line.now) }
{
    if is_word(name, "campaign") {
        return has_no_word(line).then_some(Operator::Campaign);
    }
    if is_word(name, "tell") {
        return has_no_word(line).then_some(Operator::Tell);
    }
    if is_word(name, "leave") {
        return has_no_word(line).then_some(Operator::Leave);
    }
    if is_word(name, "primary") {
        return only_inc(line).map(Operator::SetPrimary);
    }
    if is_word(name, "single") {
        return inc_or_none(line).map(Operator::Single);
    }
    if is_word(name, "multi") {
        return has_no_word(line).then_some(Operator::Multi);
    }
    None
}

/// An action at a joiner that recovers, its name and what stands behind N.
#[tactic(auto, unfolding(crate::specs::Operators::donor_of))]
fn read_donor(name: &[u8], line: &[u8]) -> Option<Operator>
    ensures { result ≡ donor_of name.now (words_of line.now) }
{
    if is_word(name, "donor") {
        return only_inc(line).map(Operator::AskDonor);
    }
    if is_word(name, "nodonor") {
        return has_no_word(line).then_some(Operator::DonorFailed);
    }
    None
}

/// An operator's action: its name and what stands behind it.
#[tactic(auto, unfolding(crate::specs::Operators::operator_of))]
pub fn read_operator(name: &[u8], line: &[u8]) -> Option<Step>
    ensures { result ≡ operator_of name.now (words_of line.now) }
{
    let (server, rest) = next_server(line)?;
    let what = read_action(name, rest).or(read_donor(name, rest))?;
    Some(Step::Operate { server, what })
}
