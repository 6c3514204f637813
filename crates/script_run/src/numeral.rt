// Numbers among the words.
ghost use Rattle.std.specs.Prelude.{◌≡◌, ◌≤◌, ◌<◌, ◌^◌, IfSome, SomeIff, true};
ghost use Rattle.std.specs.Char.{is_ascii_digit};
ghost use Rattle.std.specs.List.{list_all};
ghost use Rattle.std.specs.Str.Parse.{digits_value};
ghost use Rattle.script_run.specs.Commands.{is_numeral as numeral, number_to as number_up_to};

fn has_digits_alone(bytes: &[u8]) -> bool
    ensures { result ≡ list_all is_ascii_digit bytes.now }
{
    bytes.iter().all(|b| b.is_ascii_digit())
}

/// 1 to 20 decimal digits.
fn is_numeral(word: &str) -> bool
    ensures { result ≡ numeral word.now }
{
    let bytes = word.as_bytes();
    if bytes.is_empty() || bytes.len() > 20 {
        return false;
    }
    has_digits_alone(bytes)
}

fn read_digits(word: &str) -> Option<u64>
    requires { numeral word.now ≡ true }
    ensures { SomeIff result (digits_value 10 word.now < 2 ^ 64) (digits_value 10 word.now) }
{
    word.parse::<u64>().ok()
}

/// The number that a word stands for, at most `most`: 1 to 20 decimal digits, of which the first may be zeros.
#[tactic(auto, unfolding(crate::specs::Commands::number_to))]
pub fn number_to(word: &str, most: u64) -> Option<u64>
    ensures number { result ≡ number_up_to most word.now }
    ensures range { IfSome result (λ n. n ≤ most) }
{
    if !is_numeral(word) {
        return None;
    }
    let number = read_digits(word)?;
    if number > most {
        return None;
    }
    Some(number)
}
