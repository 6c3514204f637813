// Numbers in a range, read byte by byte.
ghost use Rattle.std.specs.Prelude.{◌≡◌, ◌≤◌, ◌<◌, ◌^◌, ◌+◌, ◌-◌, drop, length, MatchResult};
ghost use Rattle.byte_forms.specs.Numbers.{number};
ghost use Rattle.byte_forms.specs.Reads.{Got, Fault};
ghost use Rattle.byte_forms.specs.Fields.{number_in};

/// The number of `width` bytes at the front, from `low` to `high`. Refused with the index of the first byte with
/// which no such number begins, or of the end.
pub(crate) fn read_number(bytes: &[u8], width: u8, low: u64, high: u64) -> Result<u64, usize>
    requires some { 0 < width }
    requires fits { width ≤ 8 }
    ensures { MatchResult result
        (λ n. (width ≤ length bytes.now) × (low ≤ n) × (n ≤ high) × (number_in width low high bytes.now ≡ Got n (drop width bytes.now)))
        (λ i. (i ≤ length bytes.now) × (number_in width low high bytes.now ≡ Fault (length bytes.now - i))) }
{
    if low > high {
        return Err(0);
    }
    let mut value = 0u64;
    for i in 0..width {
        if i as usize == bytes.len() {
            return Err(bytes.len());
        }
        value = value * 256 + bytes[i as usize] as u64;
        let later = 8 * (width - 1 - i);
        if value < low >> later || value > high >> later {
            return Err(i as usize);
        }
    }
    Ok(value)
}

pub(crate) fn u8_of(bytes: &[u8]) -> u8
    requires { length bytes.now ≡ 1 }
    ensures { number 1 result ≡ bytes.now }
{
    bytes[0]
}

pub(crate) fn u16_of(bytes: &[u8]) -> u16
    requires { length bytes.now ≡ 2 }
    ensures { number 2 result ≡ bytes.now }
{
    u16::from_be_bytes([bytes[0], bytes[1]])
}

pub(crate) fn u32_of(bytes: &[u8]) -> u32
    requires { length bytes.now ≡ 4 }
    ensures { number 4 result ≡ bytes.now }
{
    u32::from_be_bytes([bytes[0], bytes[1], bytes[2], bytes[3]])
}

pub(crate) fn u64_of(bytes: &[u8]) -> u64
    requires { length bytes.now ≡ 8 }
    ensures { number 8 result ≡ bytes.now }
{
    u64::from_be_bytes([
        bytes[0], bytes[1], bytes[2], bytes[3], bytes[4], bytes[5], bytes[6], bytes[7],
    ])
}
