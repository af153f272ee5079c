//! Counts of any size.
ghost use Rattle.std.specs.Prelude.{◌≡◌, ◌+◌, ◌^◌, ◌++◌, ◌<◌, true, false, length, IfOk, OnOk, drop};
ghost use Rattle.outcomes.specs.Numbers.{AreDigits, number_of, lowest, last_carry, number_text};

use crate::digits::write_number;
use std::alloc::{AllocError, Global};
use std::marker::Model;

/// A digit is below it.
const BASE: u64 = 10;

/// How many: a number of any size, by its digits, the lowest first.
#[derive(Drop)]
pub struct Count {
    digits: Vec<u32>,
}

impl Model for Count {
    ghost use Rattle.std.specs.Prelude.{ℕ};
    ghost use Rattle.outcomes.specs.Numbers.{number_of, AreDigits};

    ghost Value = { ℕ };

    ghost view = { λ c. number_of c.digits.items };

    ghost invariant = { λ c. AreDigits c.digits.items };
}

impl Count {
    /// None. It takes no memory.
    pub fn zero(alloc: Global) -> Self
        ensures { result ≡ 0 }
    {
        Count {
            digits: Vec::new(alloc),
        }
    }

    /// One.
    pub fn one(alloc: Global) -> Result<Self, AllocError>
        ensures { IfOk result (λ count. count ≡ 1) }
    {
        let digits = vec![in alloc; 1; 1]?;
        Ok(Count { digits })
    }

    /// The same count once more.
    pub fn copy(&self, alloc: Global) -> Result<Self, AllocError>
        ensures { IfOk result (λ count. count ≡ self.now) }
    {
        let digits = Vec::from_slice(alloc, self.digits.as_slice())?;
        Ok(Count { digits })
    }

    /// So many more. Where memory is refused, the count stays as it was.
    pub fn add(&mut self, alloc: Global, other: &Count) -> Result<(), AllocError>
        ensures ok { OnOk result (self.new ≡ self.old + other.now) }
    {
        let digits = sum_digits(alloc, self.digits.as_slice(), other.digits.as_slice())?;
        self.digits = digits;
        Ok(())
    }

    /// Appends the count in decimal digits.
    pub fn write(&self, text: &mut Vec<u8>) -> Result<(), AllocError>
        ensures { OnOk result (text.new.items ≡ text.old.items ++ number_text self.now) }
    {
        write_number(self.digits.as_slice(), text)
    }
}

/// The lowest digit; 0 of none.
fn lowest(digits: &[u32]) -> u64
    ensures value { result ≡ lowest digits.now }
    ensures small { result < 2 ^ 32 }
{
    match digits.first() {
        Some(digit) => u64::from(*digit),
        None => 0,
    }
}

/// The digits above the lowest.
fn higher(digits: &[u32]) -> &[u32]
    ensures { result.now ≡ drop 1 digits.now }
{
    match digits.split_first() {
        Some((_, more)) => more,
        None => digits,
    }
}

/// Whether neither number has a digit.
fn are_none(digits: &[u32], others: &[u32]) -> bool
    ensures none { result ≡ true → length digits.now + length others.now ≡ 0 }
    ensures some { result ≡ false → 0 < length digits.now + length others.now }
{
    digits.len() == 0 && others.len() == 0
}

/// Adds what is carried at last, where it isn't 0.
fn push_carry(digits: &mut Vec<u32>, carry: u32) -> Result<(), AllocError>
    ensures { OnOk result (digits.new.items ≡ digits.old.items ++ last_carry carry) }
{
    if carry == 0 {
        return Ok(());
    }
    digits.push(carry)?;
    Ok(())
}

/// The digits of the sum of two numbers.
fn sum_digits(alloc: Global, digits: &[u32], others: &[u32]) -> Result<Vec<u32>, AllocError>
    requires digits { AreDigits digits.now }
    requires others { AreDigits others.now }
    ensures digits { IfOk result (λ sum. AreDigits sum.items) }
    ensures sum { IfOk result (λ sum. number_of sum.items ≡ number_of digits.now + number_of others.now) }
{
    let mut sum = Vec::new(alloc);
    let mut left = digits;
    let mut right = others;
    let mut carry: u64 = 0;
    while !are_none(left, right) {
        let digit = lowest(left) + lowest(right) + carry;
        sum.push((digit % BASE) as u32)?;
        carry = digit / BASE;
        left = higher(left);
        right = higher(right);
    }
    push_carry(&mut sum, carry as u32)?;
    Ok(sum)
}
