// The names that words stand for.
ghost use Rattle.std.specs.Prelude.{◌≡◌, length};
ghost use Rattle.std.specs.List.{list_all};
ghost use Rattle.script_text.specs.Words.{words_of};
ghost use Rattle.script_text.specs.Names.{inc_of, only_inc as the_inc, inc_or_none as maybe_inc, is_table, is_table_byte, is_text};
ghost use Rattle.script_text.specs.Names.{is_visible, level_of, mode_of};

use crate::numbers::read_number_in;
use crate::scan::{behind, find_byte};
use crate::words::{has_no_word, is_word, only_word};
use gr_ids::{Inc, Level, Mode};

/// An incarnation, as `s.n`.
#[tactic(auto, unfolding(crate::specs::Names::inc_of))]
pub fn read_inc(word: &[u8]) -> Option<Inc>
    ensures { result ≡ inc_of word.now }
{
    let dot = find_byte(word, b'.');
    let server = read_number_in(&word[..dot], 1, 32)?;
    let start = read_number_in(behind(word, dot), 1, 4_294_967_295)?;
    Some(Inc {
        server: server as u8,
        start: start as u32,
    })
}

/// The incarnation that is all of a line.
#[tactic(auto, unfolding(crate::specs::Names::only_inc))]
pub fn only_inc(line: &[u8]) -> Option<Inc>
    ensures { result ≡ the_inc (words_of line.now) }
{
    let word = only_word(line)?;
    read_inc(word)
}

/// Such an incarnation, or none where there is no word.
#[tactic(auto, unfolding(crate::specs::Names::inc_or_none))]
pub fn inc_or_none(line: &[u8]) -> Option<Option<Inc>>
    ensures { result ≡ maybe_inc (words_of line.now) }
{
    if has_no_word(line) {
        return Some(None);
    }
    let inc = only_inc(line)?;
    Some(Some(inc))
}

/// A consistency level, by its name in the manual.
#[tactic(auto, unfolding(crate::specs::Names::level_of))]
pub fn read_level(word: &[u8]) -> Option<Level>
    ensures { result ≡ level_of word.now }
{
    if is_word(word, "EVENTUAL") {
        return Some(Level::Eventual);
    }
    if is_word(word, "BEFORE_ON_PRIMARY_FAILOVER") {
        return Some(Level::BeforeOnPrimaryFailover);
    }
    if is_word(word, "BEFORE") {
        return Some(Level::Before);
    }
    if is_word(word, "AFTER") {
        return Some(Level::After);
    }
    if is_word(word, "BEFORE_AND_AFTER") {
        return Some(Level::BeforeAndAfter);
    }
    None
}

/// A group's mode.
#[tactic(auto, unfolding(crate::specs::Names::mode_of))]
pub fn read_mode(word: &[u8]) -> Option<Mode>
    ensures { result ≡ mode_of word.now }
{
    if is_word(word, "multi") {
        return Some(Mode::Multi);
    }
    if is_word(word, "single") {
        return Some(Mode::Single);
    }
    None
}

/// Whether a word is the name of a table: a lower-case letter and up to 63 lower-case letters, digits or `_`.
pub fn is_table_name(word: &[u8]) -> bool
    ensures { result ≡ is_table word.now }
{
    if word.is_empty() || word.len() > 64 || word[0] < b'a' || word[0] > b'z' {
        return false;
    }
    all_table_bytes(word)
}

fn all_table_bytes(word: &[u8]) -> bool
    ensures { result ≡ list_all is_table_byte word.now }
{
    word.iter().all(|b| (97 <= *b && *b <= 122) || (48 <= *b && *b <= 57) || *b == 95)
}

/// Whether a word has 1 to so many bytes, each from 0x21 to 0x7E.
pub fn is_visible_text(word: &[u8], most: usize) -> bool
    ensures { result ≡ is_text most word.now }
{
    if word.is_empty() || word.len() > most {
        return false;
    }
    all_visible(word)
}

fn all_visible(word: &[u8]) -> bool
    ensures { result ≡ list_all is_visible word.now }
{
    word.iter().all(|b| 33 <= *b && *b <= 126)
}
