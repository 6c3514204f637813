// The words of a line.
ghost use Rattle.std.specs.Prelude.{◌≡◌};
ghost use Rattle.std.specs.Option.{option_map};
ghost use Rattle.std.specs.Str.{bytes_eq};
ghost use Rattle.script_text.specs.Words.{words_of, first_word, named_words, has_none, one_word, two_words as two, three_words as three};
ghost use Rattle.script_text.specs.Words.{four_words as four};

use crate::scan::{behind, find_byte};

/// The first word, and what stands behind it.
#[tactic(auto, using(crate::proofs::Splitting::words_step))]
pub fn next_word(line: &[u8]) -> Option<(&[u8], &[u8])>
    ensures { option_map (λ found. (found.0.now, words_of found.1.now)) result ≡ first_word (words_of line.now) }
{
    let mut rest = line;
    while !rest.is_empty() {
        let end = find_byte(rest, b' ');
        let word = &rest[..end];
        rest = behind(rest, end);
        if end > 0 {
            return Some((word, rest));
        }
    }
    None
}

/// The first word of a line that is no comment, and what stands behind it. A comment has no words, or begins with `#`.
pub fn first_named(line: &[u8]) -> Option<(&[u8], &[u8])>
    ensures { option_map (λ found. (found.0.now, words_of found.1.now)) result ≡ named_words line.now }
{
    if !line.is_empty() && line[0] == b'#' {
        return None;
    }
    next_word(line)
}

/// Whether no word is left.
pub fn has_no_word(line: &[u8]) -> bool
    ensures { result ≡ has_none (words_of line.now) }
{
    next_word(line).is_none()
}

pub fn is_word(word: &[u8], text: &str) -> bool
    ensures { result ≡ bytes_eq word.now text.now }
{
    word == text.as_bytes()
}

/// The one word of a line.
#[tactic(auto, using(crate::proofs::Counting::one_step))]
pub fn only_word(line: &[u8]) -> Option<&[u8]>
    ensures { option_map (λ w. w.now) result ≡ one_word (words_of line.now) }
{
    let (word, rest) = next_word(line)?;
    if !has_no_word(rest) {
        return None;
    }
    Some(word)
}

/// The two words of a line.
#[tactic(auto, using(crate::proofs::Counting::two_step))]
pub fn two_words(line: &[u8]) -> Option<(&[u8], &[u8])>
    ensures { option_map (λ w. (w.0.now, w.1.now)) result ≡ two (words_of line.now) }
{
    let (first, rest) = next_word(line)?;
    let second = only_word(rest)?;
    Some((first, second))
}

/// The three words of a line.
#[tactic(auto, using(crate::proofs::Counting::three_step))]
pub fn three_words(line: &[u8]) -> Option<(&[u8], &[u8], &[u8])>
    ensures { option_map (λ w. (w.0.now, w.1.now, w.2.now)) result ≡ three (words_of line.now) }
{
    let (first, rest) = next_word(line)?;
    let (second, third) = two_words(rest)?;
    Some((first, second, third))
}

/// The four words of a line.
#[tactic(auto, using(crate::proofs::Counting::four_step))]
pub fn four_words(line: &[u8]) -> Option<(&[u8], &[u8], &[u8], &[u8])>
    ensures { option_map (λ w. (w.0.now, w.1.now, w.2.now, w.3.now)) result ≡ four (words_of line.now) }
{
    let (first, rest) = next_word(line)?;
    let (second, third, fourth) = three_words(rest)?;
    Some((first, second, third, fourth))
}
