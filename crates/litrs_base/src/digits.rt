//! Digits of a base.
ghost use Rattle.std.specs.Prelude.{◌≡◌, ◌&&◌, ◌+◌, ◌≤◌, nat_le, length, take, drop};
ghost use Rattle.std.specs.List.{list_all};
ghost use Rattle.litrs_base.specs.Base.{is_digit};

use crate::IntegerBase;

/// Returns `true` if `bytes` are one to eight digits of `base`. For example, `7f` are digits of the
/// base sixteen but not of the base ten, and `1_0` are digits of neither. See [the reference][ref].
///
/// [ref]: https://doc.rust-lang.org/reference/tokens.html#integer-literals
// Without a loop, because its end would be hard to predict.
#[inline(always)]
pub fn are_few_digits(bytes: &[u8], base: IntegerBase) -> bool
    ensures { result ≡ (nat_le 1 (length bytes.now) && nat_le (length bytes.now) 8
        && list_all (is_digit base) bytes.now) }
{
    let len = bytes.len();
    match len {
        1..=3 => is_digit(bytes[0], base)
            & is_digit(bytes[len / 2], base)
            & is_digit(bytes[len - 1], base),
        4..=8 => are_four_digits(bytes, 0, base) & are_four_digits(bytes, len - 4, base),
        _ => false,
    }
}

/// Returns `true` if the four bytes from `at` on are digits of `base`.
#[inline(always)]
fn are_four_digits(bytes: &[u8], at: usize, base: IntegerBase) -> bool
    requires { at + 4 ≤ length bytes.now }
    ensures { result ≡ list_all (is_digit base) (take 4 (drop at bytes.now)) }
{
    is_digit(bytes[at], base)
        & is_digit(bytes[at + 1], base)
        & is_digit(bytes[at + 2], base)
        & is_digit(bytes[at + 3], base)
}

#[inline(always)]
fn is_digit(byte: u8, base: IntegerBase) -> bool
    ensures { result ≡ is_digit base byte }
{
    match base {
        IntegerBase::Binary => matches!(byte, b'0' | b'1'),
        IntegerBase::Octal => matches!(byte, b'0'..=b'7'),
        IntegerBase::Decimal => byte.is_ascii_digit(),
        IntegerBase::Hexadecimal => byte.is_ascii_hexdigit(),
    }
}
