// Numbers: decimal, without a sign and without a leading zero.
ghost use Rattle.std.specs.Prelude.{◌≡◌, ◌≤◌, ◌<◌, ◌^◌, IfSome, IsTrue, SomeIff, ℕ, List, Some, ◌↔◌, decimal};
ghost use Rattle.std.specs.Char.{is_ascii_digit};
ghost use Rattle.std.specs.List.{list_all};
ghost use Rattle.std.specs.Option.{option_map};
ghost use Rattle.std.specs.Str.Parse.{digits_value};
ghost use Rattle.script_text.specs.Words.{words_of};
ghost use Rattle.script_text.specs.Numbers.{first_number, is_plain, number_in, number_of, only_number as the_number, number_or_none as maybe_number};

use crate::words::{has_no_word, next_word, only_word};

/// A number without a sign and without a leading zero.
#[tactic(auto, unfolding(crate::specs::Numbers::number_of))]
pub fn read_number(word: &[u8]) -> Option<u64>
    ensures { result ≡ number_of word.now }
{
    if !is_plain_word(word) {
        return None;
    }
    read_digits(word)
}

fn is_plain_word(word: &[u8]) -> bool
    ensures { result ≡ is_plain word.now }
{
    if !all_digits(word) || word.is_empty() {
        return false;
    }
    word[0] != b'0' || word.len() == 1
}

fn all_digits(word: &[u8]) -> bool
    ensures { result ≡ list_all is_ascii_digit word.now }
{
    word.iter().all(|b| b.is_ascii_digit())
}

fn read_digits(word: &[u8]) -> Option<u64>
    requires { IsTrue (is_plain word.now) }
    ensures { SomeIff result (digits_value 10 word.now < 2 ^ 64) (digits_value 10 word.now) }
{
    match str::from_utf8(word) {
        Ok(text) => text.parse::<u64>().ok(),
        Err(_) => unreachable!(),
    }
}

/// A number from low to high.
#[tactic(auto, unfolding(crate::specs::Numbers::number_in))]
pub fn read_number_in(word: &[u8], low: u64, high: u64) -> Option<u64>
    ensures number { result ≡ number_in low high word.now }
    ensures range { IfSome result (λ number. (low ≤ number) × (number ≤ high)) }
{
    let number = read_number(word)?;
    if number < low || high < number {
        return None;
    }
    Some(number)
}

/// A number from low to high, and what stands behind it.
#[tactic(auto, unfolding(crate::specs::Numbers::first_number))]
pub fn next_number(line: &[u8], low: u64, high: u64) -> Option<(u64, &[u8])>
    ensures number { option_map (λ found. (found.0, words_of found.1.now)) result ≡ first_number low high (words_of line.now) }
    ensures range { IfSome result (λ found. (low ≤ found.0) × (found.0 ≤ high)) }
{
    let (word, rest) = next_word(line)?;
    let number = read_number_in(word, low, high)?;
    Some((number, rest))
}

/// The number from low to high that is all of a line.
#[tactic(auto, unfolding(crate::specs::Numbers::only_number))]
pub fn only_number(line: &[u8], low: u64, high: u64) -> Option<u64>
    ensures number { result ≡ the_number low high (words_of line.now) }
    ensures range { IfSome result (λ number. (low ≤ number) × (number ≤ high)) }
{
    let word = only_word(line)?;
    read_number_in(word, low, high)
}

/// Such a number, or none where there is no word.
#[tactic(auto, unfolding(crate::specs::Numbers::number_or_none))]
pub fn number_or_none(line: &[u8], low: u64, high: u64) -> Option<Option<u64>>
    ensures number { result ≡ maybe_number low high (words_of line.now) }
    ensures range { IfSome result (λ found. IfSome found (λ number. (low ≤ number) × (number ≤ high))) }
{
    if has_no_word(line) {
        return Some(None);
    }
    let number = only_number(line, low, high)?;
    Some(Some(number))
}

/// The words of numbers are the decimals of the numbers below 2^64.
pub fn numbers_are_decimal()
    ensures { (word : List ℕ) (number : ℕ) → (number_of word ≡ Some number) ↔ ((number < 2 ^ 64) × (word ≡ decimal number)) }
{}
