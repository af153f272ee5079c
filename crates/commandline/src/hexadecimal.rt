//! Hexadecimal numbers as words.
ghost use Rattle.std.specs.Prelude.{◌≡◌, ◌<◌, IfSome};
ghost use Rattle.commandline.specs.Hexadecimal.{hex_digit_of, digits_of, hex_number};

/// The value of a hexadecimal digit of either case.
fn read_hex_digit(byte: u8) -> Option<u64>
    ensures value { result ≡ hex_digit_of byte }
    ensures bound { IfSome result (λ digit. digit < 16) }
{
    match byte {
        b'0'..=b'9' => Some(u64::from(byte - b'0')),
        b'a'..=b'f' => Some(u64::from(byte - b'a') + 10),
        b'A'..=b'F' => Some(u64::from(byte - b'A') + 10),
        _ => None,
    }
}

/// The digits of a text, without `0x` before them.
fn strip(text: &[u8]) -> &[u8]
    ensures { result.now ≡ digits_of text.now }
{
    match text {
        [b'0', b'x', digits @ ..] => digits,
        _ => text,
    }
}

/// The number that a text stands for: one to sixteen hexadecimal digits of either case, with or without
/// `0x` before them. None for any other text.
#[tactic(auto, unfolding(crate::specs::Hexadecimal::hex_number))]
pub(crate) fn read_hexadecimal(text: &[u8]) -> Option<u64>
    ensures { result ≡ hex_number text.now }
{
    let digits = strip(text);
    if digits.is_empty() || digits.len() > 16 {
        return None;
    }
    let mut number = 0;
    for byte in digits {
        let digit = read_hex_digit(*byte)?;
        number = 16 * number + digit;
    }
    Some(number)
}
