// The text of a server's weight.
ghost use Rattle.std.specs.Prelude.{◌≡◌, ◌<◌, ◌^◌, IsTrue, MatchResult, None, Some, SomeIff};
ghost use Rattle.std.specs.List.{list_all};
ghost use Rattle.std.specs.Char.{is_ascii_digit};
ghost use Rattle.std.specs.Str.Parse.{digits_value};
ghost use Rattle.primary_election.specs.Texts.{is_number, weight_of};

use thiserror::Error;

/// The greatest weight.
const GREATEST_WEIGHT: u8 = 100;

/// The text isn't a decimal number of 0 to 100 without a sign and without a leading zero.
#[derive(Clone, Copy, Debug, PartialEq, Eq, Error)]
#[error("not a weight of 0 to 100")]
pub struct BadWeight;

/// Reads a weight (`group_replication_member_weight`): a decimal number of 0 to 100, without a sign and without a leading zero.
/// It is refused exactly where the text isn't of that form. Linear in the text.
#[tactic(auto, unfolding(crate::specs::Texts::weight_of))]
pub fn read_weight(text: &[u8]) -> Result<u8, BadWeight>
    ensures { MatchResult result (λ weight. weight_of text.now ≡ Some weight) (λ _. weight_of text.now ≡ None) }
{
    if !has_number_form(text) {
        return Err(BadWeight);
    }
    match read_digits(text) {
        Some(weight) if weight <= GREATEST_WEIGHT => Ok(weight),
        _ => Err(BadWeight),
    }
}

fn has_number_form(text: &[u8]) -> bool
    ensures { result ≡ is_number text.now }
{
    if !has_digits_alone(text) || text.is_empty() {
        return false;
    }
    text[0] != b'0' || text.len() == 1
}

fn has_digits_alone(text: &[u8]) -> bool
    ensures { result ≡ list_all is_ascii_digit text.now }
{
    text.iter().all(|b| b.is_ascii_digit())
}

// The number of these digits, if it is below 256.
fn read_digits(text: &[u8]) -> Option<u8>
    requires { IsTrue (is_number text.now) }
    ensures { SomeIff result (digits_value 10 text.now < 2 ^ 8) (digits_value 10 text.now) }
{
    match str::from_utf8(text) {
        Ok(text) => text.parse::<u8>().ok(),
        Err(_) => unreachable!(),
    }
}
