// Numbers in decimal digits: what bytes say.
#![tactic(auto)]

ghost use Rattle.std.specs.Prelude.{◌≡◌};
ghost use Rattle.decimals.specs.Decimals.{with_digit, decimal_of, capped_decimal};

// A number with one digit more at its end.
fn with_digit(n: u64, byte: u8) -> Option<u64>
    ensures { result ≡ with_digit n byte }
{
    match byte {
        b'0'..=b'9' => n.checked_mul(10)?.checked_add((byte - b'0') as u64),
        _ => None,
    }
}

// The number that bytes say: digits alone, and a number below 2^64.
pub fn decimal_of(text: &[u8]) -> Option<u64>
    ensures { result ≡ decimal_of text.now }
{
    if text.len() == 0 {
        return None;
    }
    let mut n = 0;
    for byte in text {
        n = with_digit(n, *byte)?;
    }
    Some(n)
}

// The number that bytes say, or the bound where it is more: digits alone, however many.
pub fn capped_decimal(text: &[u8], most: u32) -> Option<u64>
    ensures { result ≡ capped_decimal most text.now }
{
    if text.is_empty() {
        return None;
    }
    let mut n = 0;
    for byte in text {
        n = with_digit(n, *byte)?.min(most as u64);
    }
    Some(n)
}
