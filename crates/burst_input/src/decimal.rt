// A number in decimal digits. Definitions in specs/.
ghost use Rattle.std.specs.Prelude.{◌≡◌};
ghost use Rattle.burst_input.specs.Decimal.{with_digit, decimal_of};

// A digit more behind n, where it is a digit and there is room for it.
fn with_digit(n: u64, byte: u8) -> Option<u64>
    ensures { result ≡ with_digit n byte }
{
    if !byte.is_ascii_digit() {
        return None;
    }
    n.checked_mul(10)?.checked_add(u64::from(byte - b'0'))
}

// Inside: the number below 2^64 that digits alone make, one at least. `parse` would take a plus before them too.
pub fn read(word: &[u8]) -> Option<u64>
    ensures { result ≡ decimal_of word.now }
{
    if word.is_empty() {
        return None;
    }
    let mut sum = 0;
    for byte in word {
        sum = with_digit(sum, *byte)?;
    }
    Some(sum)
}
