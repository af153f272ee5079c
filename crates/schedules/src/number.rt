//! Decimal numbers as words.
ghost use Rattle.std.specs.Prelude.{◌≡◌, ◌+◌, ◌*◌, ◌≤◌, IfSome, option_and_then};
ghost use Rattle.schedules.specs.Numbers.{digit_of, at_most, number_of};

/// The value of a decimal digit.
pub fn read_digit(byte: u8) -> Option<u64>
    ensures { result ≡ digit_of byte }
{
    match byte {
        b'0'..=b'9' => Some(u64::from(byte) - 48),
        _ => None,
    }
}

/// A number with one more digit behind it, where that is at most the limit.
fn add_digit(number: u64, byte: u8, limit: u64) -> Option<u64>
    ensures { result ≡ option_and_then (λ digit. at_most limit (10 * number + digit)) (digit_of byte) }
{
    let digit = read_digit(byte)?;
    let longer = 10 * u128::from(number) + u128::from(digit);
    if longer <= u128::from(limit) {
        Some(longer as u64)
    } else {
        None
    }
}

/// The number that a text stands for: one or more decimal digits, but no more than so many, leading
/// zeros allowed, where it is at most the limit. None for any other text.
#[tactic(auto, unfolding(crate::specs::Numbers::number_of))]
pub fn read_number(text: &[u8], most_digits: usize, limit: u64) -> Option<u64>
    ensures number { result ≡ number_of most_digits limit text.now }
    ensures limit { IfSome result (λ number. number ≤ limit) }
{
    if text.is_empty() || text.len() > most_digits {
        return None;
    }
    let mut number = 0;
    let mut rest = text;
    while let Some((byte, more)) = rest.split_first() {
        number = add_digit(number, *byte, limit)?;
        rest = more;
    }
    Some(number)
}
