//! The float nearest to an integer of any length in a base that is a power of two.
ghost use Rattle.std.specs.Prelude.{◌≡◌, ◌≢◌, ◌⊎◌, ◌+◌, ◌-◌, ◌*◌, ◌%◌, ◌^◌, ◌<◌, ◌≤◌, ℕ, false, IsTrue, IsFalse};
ghost use Rattle.std.specs.List.{list_all};
ghost use Rattle.std.specs.Float.Ieee.{round, of_bits};
ghost use Rattle.fast_float.specs.Rounding.{scaled_bits};
ghost use Rattle.litrs.specs.Base.{base_value, is_digit_or_underscore};
ghost use Rattle.litrs.specs.Numeral.{numeral};
ghost use Rattle.litrs_value.specs.Leading.{IsLeading};

use fast_float::FastFloat;
use litrs::IntegerBase;
use litrs_lex::hex_digit_value;

/// The leading bits of an integer: it is at least `number * 2^shift`, and less than
/// `(number + 1) * 2^shift`.
#[derive(Clone, Copy)]
pub(crate) struct Leading {
    /// The leading bits: all of them, or at least 61.
    number: u64,
    /// `true` if a bit that follows them is set.
    more: bool,
    /// The number of bits after them.
    shift: u128,
}

impl Leading {
    /// Returns `true` if all bits are leading bits, and a digit more can be one of them.
    fn is_short(self) -> bool
        ensures short { IsTrue result → self.number < 2 ^ 60 }
        ensures long { IsFalse result → 2 ^ 60 ≤ self.number }
    {
        self.number < 1 << 60
    }

    /// Appends a digit of `bits` bits, in the base `radix`.
    fn push(self, digit: u64, bits: u128, radix: u64) -> Leading
        requires radix { radix ≡ 2 ^ bits }
        requires bits { bits ≤ 4 }
        requires digit { digit < radix }
        requires room { self.shift < 2 ^ 100 }
        ensures leading { (n : ℕ) → IsLeading self n → IsLeading result (n * radix + digit) }
        ensures shift { result.shift ≤ self.shift + 4 }
    {
        if self.is_short() {
            let number = self.number * radix + digit;
            Leading {
                number,
                more: self.more,
                shift: self.shift,
            }
        } else {
            Leading {
                number: self.number,
                more: is_more(self.more, digit),
                shift: self.shift + bits,
            }
        }
    }
}

/// Returns `true` if `more` is true or the digit is not zero.
fn is_more(more: bool, digit: u64) -> bool
    ensures none { IsFalse result → IsFalse more × (digit ≡ 0) }
    ensures some { IsTrue result → IsTrue more ⊎ (0 < digit) }
{
    more || digit != 0
}

/// Returns the float nearest to an integer of at least 2^64 in a base other than ten.
pub(crate) fn large_float<F: FastFloat>(base: IntegerBase, main: &[u8]) -> F
    requires digits { IsTrue (list_all (is_digit_or_underscore base) main.now) }
    requires power { base ≢ IntegerBase.Decimal }
    requires large { 2 ^ 64 ≤ numeral (base_value base) main.now }
    ensures { F.value result ≡ round F.format false (numeral (base_value base) main.now) 1 }
{
    rounded(&leading_bits(base, main))
}

/// Returns the leading bits of an integer in a base other than ten.
fn leading_bits(base: IntegerBase, main: &[u8]) -> Leading
    requires digits { IsTrue (list_all (is_digit_or_underscore base) main.now) }
    requires power { base ≢ IntegerBase.Decimal }
    ensures leading { IsLeading result (numeral (base_value base) main.now) }
    ensures shift { result.shift < 2 ^ 100 }
{
    let radix = u64::from(base.value());
    let bits = digit_bits(base);
    let mut leading = Leading {
        number: 0,
        more: false,
        shift: 0,
    };
    // The invariant counts the bytes by `i`.
    for (i, byte) in main.iter().enumerate() {
        if *byte == b'_' {
            continue;
        }
        let Some(digit) = hex_digit_value(*byte) else {
            unreachable!();
        };
        leading = leading.push(u64::from(digit), bits, radix);
    }
    leading
}

/// Returns the size of a digit in bits.
fn digit_bits(base: IntegerBase) -> u128
    requires { base ≢ IntegerBase.Decimal }
    ensures power { base_value base ≡ 2 ^ result }
    ensures small { result ≤ 4 }
{
    match base {
        IntegerBase::Binary => 1,
        IntegerBase::Octal => 3,
        IntegerBase::Decimal => unreachable!(),
        IntegerBase::Hexadecimal => 4,
    }
}

/// Returns the float nearest to an integer with these leading bits.
fn rounded<F: FastFloat>(leading: &Leading) -> F
    requires number { 2 ^ 60 ≤ leading.now.number }
    requires shift { leading.now.shift < 2 ^ 100 }
    ensures { (n : ℕ) → IsLeading leading.now n → F.value result ≡ round F.format false n 1 }
{
    let len = bit_len(leading.number);
    let dropped = len - F::DIGITS;
    let unit = power_of_two(dropped);
    let kept = leading.number / unit;
    let rest = leading.number % unit;
    let significand = round_to_even(kept, rest, unit / 2, leading.more);
    scaled(significand, F::LOWEST + dropped, leading.shift)
}

fn power_of_two(exponent: u64) -> u64
    requires { exponent ≤ 63 }
    ensures { result ≡ 2 ^ exponent }
{
    1 << exponent
}

/// Returns the length of a number in bits.
fn bit_len(number: u64) -> u64
    requires { 2 ^ 60 ≤ number }
    ensures from { 2 ^ (result - 1) ≤ number }
    ensures below { number < 2 ^ result }
    ensures range { (61 ≤ result) × (result ≤ 64) }
{
    let zeros = number.leading_zeros();
    let len = 64 - zeros;
    u64::from(len)
}

/// Rounds `kept` and a rest to the nearest integer, or to the even one if both are as near. A half
/// is `half`. The rest is more than `rest` if `more` is true.
fn round_to_even(kept: u64, rest: u64, half: u64, more: bool) -> u64
    requires { kept < 2 ^ 53 }
    ensures below { rest < half → result ≡ kept }
    ensures tie { rest ≡ half → IsFalse more → result ≡ kept + kept % 2 }
    ensures beyond { rest ≡ half → IsTrue more → result ≡ kept + 1 }
    ensures above { half < rest → result ≡ kept + 1 }
    ensures small { result ≤ 2 ^ 53 }
{
    if rest < half {
        kept
    } else if rest == half && !more {
        kept + kept % 2
    } else {
        kept + 1
    }
}

/// Returns `significand * 2^(places + shift)` times the least float above zero.
fn scaled<F: FastFloat>(significand: u64, places: u64, shift: u128) -> F
    requires significand { significand ≤ 2 ^ 53 }
    requires shift { shift < 2 ^ 100 }
    ensures { F.value result
        ≡ of_bits F.format (scaled_bits F.format significand (places + shift)) }
{
    // From 2047 on the float is infinite.
    let exponent = (u128::from(places) + shift).min(2047) as u64;
    let hidden = power_of_two(F::DIGITS - 1);
    let bits = exponent * hidden + significand;
    F::of_bits(bits.min(F::INFINITY_BITS))
}
