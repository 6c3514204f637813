// The place of a byte.
ghost use Rattle.std.specs.Prelude.{◌≡◌, ◌+◌, ◌==◌, drop};
ghost use Rattle.std.specs.List.{position_or_len};

/// The place of the first such byte, or the length where there is none. Linear in the bytes before it.
pub fn find_byte(bytes: &[u8], byte: u8) -> usize
    ensures { result ≡ position_or_len (λ b. b == byte) bytes.now }
{
    for (i, b) in bytes.iter().enumerate() {
        if *b == byte {
            return i;
        }
    }
    bytes.len()
}

/// What stands behind a place.
pub fn behind(bytes: &[u8], at: usize) -> &[u8]
    ensures { result.now ≡ drop (at + 1) bytes.now }
{
    if at < bytes.len() {
        &bytes[at + 1..]
    } else {
        &[]
    }
}
