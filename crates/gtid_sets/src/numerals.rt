// Blanks and decimal numbers at the front of a text.
ghost use Rattle.std.specs.Prelude.{◌≡◌, ◌<◌, ◌≤◌, ◌^◌, IsTrue, length, IfSome, SomeIff};
ghost use Rattle.std.specs.List.{prefix_len, list_all};
ghost use Rattle.std.specs.Char.{is_ascii_digit};
ghost use Rattle.std.specs.Str.Parse.{digits_value};
ghost use Rattle.gtid_sets.specs.Canonical.{last_number};
ghost use Rattle.gtid_sets.specs.Grammar.{is_blank, is_number};

// The greatest number of a GTID: 2^63-2.
const LAST_NUMBER: u64 = 9_223_372_036_854_775_806;

/// How many blanks stand in front. Linear in them.
pub(crate) fn blanks_len(text: &[u8]) -> usize
    ensures count { result ≡ prefix_len is_blank text.now }
    ensures within { result ≤ length text.now }
{
    for (i, byte) in text.iter().enumerate() {
        if !matches!(*byte, b' ' | b'\t' | b'\r' | b'\n') {
            return i;
        }
    }
    text.len()
}

/// How many decimal digits stand in front. Linear in them.
pub(crate) fn digits_len(text: &[u8]) -> usize
    ensures count { result ≡ prefix_len is_ascii_digit text.now }
    ensures within { result ≤ length text.now }
{
    for (i, byte) in text.iter().enumerate() {
        if !byte.is_ascii_digit() {
            return i;
        }
    }
    text.len()
}

/// The number of a GTID that these decimal digits are, if they are one. Linear in them.
pub(crate) fn read_number(digits: &[u8]) -> Option<u64>
    requires { IsTrue (list_all is_ascii_digit digits.now) }
    ensures value { SomeIff result (IsTrue (is_number digits.now)) (digits_value 10 digits.now) }
    ensures range { IfSome result (λ n. (1 ≤ n) × (n ≤ last_number)) }
{
    if digits.is_empty() || digits[0] == b'0' {
        return None;
    }
    match read_digits(digits) {
        Some(n) if n >= 1 && n <= LAST_NUMBER => Some(n),
        _ => None,
    }
}

// The number of some decimal digits, if it is below 2^64.
fn read_digits(digits: &[u8]) -> Option<u64>
    requires digits { IsTrue (list_all is_ascii_digit digits.now) }
    requires some { 0 < length digits.now }
    ensures { SomeIff result (digits_value 10 digits.now < 2 ^ 64) (digits_value 10 digits.now) }
{
    match str::from_utf8(digits) {
        Ok(text) => text.parse::<u64>().ok(),
        Err(_) => unreachable!(),
    }
}
