//! Digits as a text.
ghost use Rattle.std.specs.Prelude.{◌≡◌, ◌++◌, OnOk};
ghost use Rattle.outcomes.specs.Numbers.{AreDigits, number_of, IsTrimmed, digits_told, number_text};

use std::alloc::AllocError;

/// The digits of a number, the lowest first, without those at the upper end that are 0.
fn trimmed(digits: &[u32]) -> &[u32]
    requires { AreDigits digits.now }
    ensures digits { AreDigits result.now }
    ensures number { number_of result.now ≡ number_of digits.now }
    ensures trimmed { IsTrimmed result.now }
{
    let mut rest = digits;
    while let Some((highest, more)) = rest.split_last() {
        if *highest != 0 {
            return rest;
        }
        rest = more;
    }
    rest
}

/// Appends digits, of which the lowest stand first, with the highest first.
fn write_digits(digits: &[u32], text: &mut Vec<u8>) -> Result<(), AllocError>
    requires { AreDigits digits.now }
    ensures { OnOk result (text.new.items ≡ text.old.items ++ digits_told digits.now) }
{
    let mut rest = digits;
    while let Some((highest, more)) = rest.split_last() {
        text.push(b'0' + *highest as u8)?;
        rest = more;
    }
    Ok(())
}

/// Appends a number, by its digits, the lowest first, in decimal.
pub(crate) fn write_number(digits: &[u32], text: &mut Vec<u8>) -> Result<(), AllocError>
    requires { AreDigits digits.now }
    ensures { OnOk result (text.new.items ≡ text.old.items ++ number_text (number_of digits.now)) }
{
    let digits = trimmed(digits);
    if digits.is_empty() {
        text.push(b'0')?;
        return Ok(());
    }
    write_digits(digits, text)
}
