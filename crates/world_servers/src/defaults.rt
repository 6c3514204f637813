// Default UUIDs.
ghost use Rattle.std.specs.Prelude.{◌≡◌, ◌≤◌, ◌<◌, ◌&&◌, ◌==◌, not};
ghost use Rattle.gr_ids.specs.Names.{bytes_eq};
ghost use Rattle.group_rules.specs.World.{default_uuid as default_of_number, is_default_of_other as is_default};

/// The UUID of a server that isn't declared: 00000000-0000-0000-0000-0000000000nn, nn being its number in two decimal digits.
pub(crate) fn default_uuid(number: u8) -> [u8; 16]
    requires { number < 100 }
    ensures { result ≡ default_of_number number }
{
    let last = (number / 10) * 16 + number % 10;
    [0, 0, 0, 0, 0, 0, 0, 0, 0, 0, 0, 0, 0, 0, 0, last]
}

/// Whether the UUID is the default of a server other than this one, with a number of at most `most`.
pub(crate) fn is_default_of_other(uuid: [u8; 16], number: u8, most: u8) -> bool
    requires { most < 100 }
    ensures { result ≡ is_default uuid number most }
{
    let mut other = most;
    while other > 0 {
        if is_default_of(uuid, number, other) {
            return true;
        }
        other -= 1;
    }
    false
}

fn is_default_of(uuid: [u8; 16], number: u8, other: u8) -> bool
    requires { other < 100 }
    ensures { result ≡ (not (other == number) && bytes_eq (default_of_number other) uuid) }
{
    other != number && default_uuid(other) == uuid
}
