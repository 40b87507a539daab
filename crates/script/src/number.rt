// Numbers in decimal digits.
ghost use Rattle.std.specs.Prelude.{◌≡◌, ◌+◌, ◌-◌, ◌*◌, ◌^◌, ◌&&◌, if◌then◌else◌, Some, None, nat_lt};
ghost use Rattle.std.specs.Char.{is_ascii_digit};
ghost use Rattle.script.specs.Format.{number as number_of, byte as byte_of, address as address_of};

// The number `n` with one more digit, if `b` is a digit and it fits.
fn with_digit(n: u64, b: u8) -> Option<u64>
    ensures { result ≡ (if is_ascii_digit b && nat_lt (10 * n + (b - 48)) (2 ^ 64) then Some (10 * n + (b - 48)) else None) }
{
    if !b.is_ascii_digit() {
        return None;
    }
    n.checked_mul(10)?.checked_add(u64::from(b - b'0'))
}

// The number that a word writes. It is read in one pass: `parse` would take three, one for the digits, one for text and its own.
pub fn number(word: &[u8]) -> Option<u64>
    ensures { result ≡ number_of word.now }
{
    if word.is_empty() {
        return None;
    }
    let mut n = 0;
    for b in word {
        n = with_digit(n, *b)?;
    }
    Some(n)
}

// The byte that a word writes.
pub fn byte(word: &[u8]) -> Option<u8>
    ensures { result ≡ byte_of word.now }
{
    u8::try_from(number(word)?).ok()
}

// The number that a word writes before a colon.
pub fn address(word: &[u8]) -> Option<u64>
    ensures { result ≡ address_of word.now }
{
    let [digits @ .., b':'] = word else {
        return None;
    };
    number(digits)
}
