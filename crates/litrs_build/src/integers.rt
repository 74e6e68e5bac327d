//! Integers from their value.
ghost use Rattle.std.specs.Prelude.{◌≡◌, ◌≤◌, ◌<◌, ◌/◌, ◌%◌, ◌∷◌, ◌++◌, [], ◌↔◌, ◌⊎◌, ◌&&◌, ◌==◌, not, filter, length, drop, replicate, string_bytes, IsTrue, IfOk, IfErr, OnOk, IsErrOf, if◌then◌else◌};
ghost use Rattle.std.specs.Char.{digit_char, is_ascii_digit};
ghost use Rattle.std.specs.List.{list_all, list_any};
ghost use Rattle.std.specs.Str.{chars, IsAscii};
ghost use Rattle.litrs_base.specs.Base.{prefix, is_digit, is_digit_or_underscore};
ghost use Rattle.litrs_base.specs.Characters.{underscore, digit_zero};
ghost use Rattle.litrs_base.specs.Derivations.{IsOnlyDerivation};
ghost use Rattle.litrs_base.specs.Numeral.{is_no_underscore};
ghost use Rattle.litrs_base.specs.Text.{first_passes};
ghost use Rattle.litrs_grammar.specs.Integer.{IntegerParts, IsIntegerOf, integer_value, is_e};
ghost use Rattle.litrs.specs.IntegerLiteral.{integer_parts};
ghost use Rattle.litrs.specs.Digits.{digits_of};
ghost use Rattle.litrs_build.specs.WrittenDigits.{digits_in_radix, written_digits, ends_group, grouped};
ghost use Rattle.litrs_build.specs.BuiltInteger.{NoIntegerHasSuffix, is_integer_suffix, is_base_letter, needs_separator, built_integer};

use crate::error::BuildError;
use litrs::{IntegerBase, IntegerLit, Text};
use litrs_lex::check_suffix;
use litrs_lex::integer::begins_with_e;
use std::alloc::{AllocError, Global};

/// The greatest number of digits of a 128 bit number, in base two.
const MAX_DIGITS: usize = 128;

/// 10^9, the greatest power of ten below 2^32.
const CHUNK: u64 = 0x3B9A_CA00;

/// The number of decimal digits of a number below [`CHUNK`], with leading zeros.
const CHUNK_DIGITS: usize = 9;

/// 2^32, the base of the digits of a long division.
const DIGIT: u64 = 0x1_0000_0000;

/// Builds the integer with this value, base and suffix, for example `0xffu8` from 255,
/// `Hexadecimal` and `u8`. See [`grouped_integer`], which also writes `_` between groups of digits.
///
/// There is one allocation, for the text.
///
/// # Errors
///
/// Returns the errors of [`grouped_integer`].
pub fn integer(
    alloc: Global,
    value: u128,
    base: IntegerBase,
    suffix: &str,
) -> Result<IntegerLit<String>, BuildError>
    ensures literal { IfOk result (λ lit.
        IsOnlyDerivation (IsIntegerOf (chars lit.raw)) (integer_parts lit)) }
    ensures parts { IfOk result (λ lit.
        integer_parts lit ≡ built_integer base 0 (written_digits base value) (chars suffix.now)) }
    ensures value { IfOk result (λ lit. integer_value (integer_parts lit) ≡ value) }
    ensures not_a_suffix { IsErrOf result BuildError.NotASuffix
        ↔ NoIntegerHasSuffix base (chars suffix.now) }
    ensures errors { IfErr result (λ e. (e ≡ BuildError.NotASuffix) ⊎ (e ≡ BuildError.Memory)) }
{
    grouped_integer(alloc, value, base, 0, suffix)
}

/// Builds the integer with this value, base and suffix, with `_` between groups of `group` digits,
/// for example `0xf_ffffu32` from 1048575, `Hexadecimal`, 4 and `u32`. See [the reference][ref].
///
/// Letters are in lower case, and there are no leading zeros. Groups are counted from the last
/// digit; if `group` is 0, there are none. The suffix follows the last digit, with one exception:
/// `0` in base ten before a suffix that begins with `b`, `o` or `x` is written `0_`, since `0b1` is
/// binary.
///
/// There is one allocation, for the text.
///
/// # Errors
///
/// Returns `NotASuffix` if and only if no integer of the base has the suffix. Then it is neither
/// empty nor an identifier, or begins with `e`, `E`, `_` or a digit of the base, for example `f32`
/// in base sixteen. This is decided before the allocation. Returns `Memory` if the allocation
/// fails.
///
/// [ref]: https://doc.rust-lang.org/reference/tokens.html#integer-literals
pub fn grouped_integer(
    alloc: Global,
    value: u128,
    base: IntegerBase,
    group: usize,
    suffix: &str,
) -> Result<IntegerLit<String>, BuildError>
    ensures literal { IfOk result (λ lit.
        IsOnlyDerivation (IsIntegerOf (chars lit.raw)) (integer_parts lit)) }
    ensures parts { IfOk result (λ lit. integer_parts lit
        ≡ built_integer base group (written_digits base value) (chars suffix.now)) }
    ensures value { IfOk result (λ lit. integer_value (integer_parts lit) ≡ value) }
    ensures not_a_suffix { IsErrOf result BuildError.NotASuffix
        ↔ NoIntegerHasSuffix base (chars suffix.now) }
    ensures errors { IfErr result (λ e. (e ≡ BuildError.NotASuffix) ⊎ (e ≡ BuildError.Memory)) }
{
    if !is_integer_suffix(base, suffix) {
        return Err(BuildError::NotASuffix);
    }
    let mut buffer = [b'0'; MAX_DIGITS];
    let start = write_digits(value, base, &mut buffer);
    Ok(written(alloc, base, &buffer[start..], true, group, suffix)?)
}

/// Returns `lit` with `_` between groups of `group` digits, for example `0xf_fffu32` for
/// `0xFF_FFu32` and 3. The base, the value, the suffix and the digits are those of `lit`, but
/// letters of digits are in lower case.
///
/// The integer is written as by [`grouped_integer`], with the leading zeros of `lit`. There is one
/// allocation, for the text.
///
/// # Errors
///
/// Returns `AllocError` if the allocation fails.
pub fn regroup<B: Text>(
    alloc: Global,
    lit: &IntegerLit<B>,
    group: usize,
) -> Result<IntegerLit<String>, AllocError>
    ensures literal { IfOk result (λ regrouped.
        IsOnlyDerivation (IsIntegerOf (chars regrouped.raw)) (integer_parts regrouped)) }
    ensures parts { let d = integer_parts lit.now in IfOk result (λ regrouped.
        integer_parts regrouped ≡ built_integer d.base group (digits_of d.main) d.suffix) }
    ensures value { IfOk result (λ regrouped.
        integer_value (integer_parts regrouped) ≡ integer_value (integer_parts lit.now)) }
{
    // Called for its contract: the parts are those of an integer.
    let _ = lit.raw_input();
    let main = lit.raw_main_part();
    written(
        alloc,
        lit.base(),
        main.as_bytes(),
        false,
        group,
        lit.suffix(),
    )
}

/// Returns `true` if an integer of this base may have this suffix.
fn is_integer_suffix(base: IntegerBase, suffix: &str) -> bool
    ensures { result ≡ is_integer_suffix base (chars suffix.now) }
{
    check_suffix(suffix).is_ok() && begins_apart(base, suffix.as_bytes())
}

/// Returns `true` if the first byte would not be read as a part of the number, as `e`, `E`, a digit
/// of the base or `_` would be.
fn begins_apart(base: IntegerBase, bytes: &[u8]) -> bool
    ensures { result ≡ (not (first_passes is_e bytes.now)
        && not (first_passes (is_digit_or_underscore base) bytes.now)) }
{
    !begins_with_e(bytes) && !begins_with_digit_or_underscore(base, bytes)
}

/// Returns `true` if a digit of the base or `_` comes first.
fn begins_with_digit_or_underscore(base: IntegerBase, bytes: &[u8]) -> bool
    ensures { result ≡ first_passes (is_digit_or_underscore base) bytes.now }
{
    match bytes {
        [first, ..] => is_digit_or_underscore(base, *first),
        [] => false,
    }
}

/// Returns `true` if the byte is a digit of the base or `_`.
fn is_digit_or_underscore(base: IntegerBase, byte: u8) -> bool
    ensures { result ≡ is_digit_or_underscore base byte }
{
    match base {
        IntegerBase::Binary => matches!(byte, b'0'..=b'1' | b'_'),
        IntegerBase::Octal => matches!(byte, b'0'..=b'7' | b'_'),
        IntegerBase::Decimal => byte.is_ascii_digit() || byte == b'_',
        IntegerBase::Hexadecimal => byte.is_ascii_hexdigit() || byte == b'_',
    }
}

/// Writes the digits of `value` at the end of the buffer, whose bytes are all `b'0'`. Returns the
/// index of the first.
fn write_digits(value: u128, base: IntegerBase, buffer: &mut [u8; MAX_DIGITS]) -> usize
    requires { buffer.now ≡ replicate MAX_DIGITS digit_zero }
    ensures digits { drop result buffer.new ≡ written_digits base value }
    ensures within { result ≤ MAX_DIGITS }
{
    match base {
        IntegerBase::Binary => write_in_radix::<2>(value, buffer),
        IntegerBase::Octal => write_in_radix::<8>(value, buffer),
        IntegerBase::Decimal => write_decimal(value, buffer),
        IntegerBase::Hexadecimal => write_in_radix::<16>(value, buffer),
    }
}

/// Like [`write_digits`], in base ten, a chunk of digits at a time until the rest fits 64 bits.
fn write_decimal(value: u128, buffer: &mut [u8; MAX_DIGITS]) -> usize
    requires { buffer.now ≡ replicate MAX_DIGITS digit_zero }
    ensures digits { drop result buffer.new ≡ written_digits IntegerBase.Decimal value }
    ensures within { result ≤ MAX_DIGITS }
{
    let mut rest = value;
    let mut end = MAX_DIGITS;
    while rest >> 64 != 0 {
        let (quotient, chunk) = divide_by_chunk(rest);
        itoa::write_digits(chunk, buffer, end);
        end -= CHUNK_DIGITS;
        rest = quotient;
    }
    itoa::write_digits(rest as u64, buffer, end)
}

/// Returns the quotient and the remainder of `value` by [`CHUNK`]. This is a long division, by
/// digits of 32 bits. A division of 128 bits would be a call of a function.
fn divide_by_chunk(value: u128) -> (u128, u64)
    ensures quotient { result.0 ≡ value / CHUNK }
    ensures remainder { result.1 ≡ value % CHUNK }
{
    let high = (value >> 64) as u64;
    let low = (value % 0x1_0000_0000_0000_0000) as u64;
    let middle = high % CHUNK * DIGIT + low / DIGIT;
    let last = middle % CHUNK * DIGIT + low % DIGIT;
    let quotient = middle / CHUNK * DIGIT + last / CHUNK;
    let front = u128::from(high / CHUNK) << 64;
    (front + u128::from(quotient), last % CHUNK)
}

/// Like [`write_digits`], in this radix. The compiler knows it, and shifts in place of a division
/// by a power of two.
fn write_in_radix<const RADIX: usize>(value: u128, buffer: &mut [u8; MAX_DIGITS]) -> usize
    requires { (2 ≤ RADIX) × (RADIX ≤ 16) }
    ensures digits { drop result buffer.new ≡ digits_in_radix RADIX value }
    ensures within { result ≤ MAX_DIGITS }
{
    if value == 0 {
        buffer[MAX_DIGITS - 1] = b'0';
        return MAX_DIGITS - 1;
    }
    let mut start = MAX_DIGITS;
    let mut rest = value;
    while rest > 0 {
        start -= 1;
        buffer[start] = digit_char((rest % RADIX as u128) as u8);
        rest /= RADIX as u128;
    }
    start
}

/// Returns the character of a digit from 0 to 15.
fn digit_char(digit: u8) -> u8
    requires { digit < 16 }
    ensures { result ≡ digit_char digit }
{
    if digit < 10 {
        b'0' + digit
    } else {
        b'a' + (digit - 10)
    }
}

/// Builds the integer with these digits in groups, and with this suffix. If `is_bare` is `true`,
/// there is no `_` between the digits, and letters are in lower case.
fn written(
    alloc: Global,
    base: IntegerBase,
    main: &[u8],
    is_bare: bool,
    group: usize,
    suffix: &str,
) -> Result<IntegerLit<String>, AllocError>
    requires digits { IsTrue (list_all (is_digit_or_underscore base) main.now) }
    requires some_digit { IsTrue (list_any (is_digit base) main.now) }
    requires decimal { base ≡ IntegerBase.Decimal → IsTrue (first_passes is_ascii_digit main.now) }
    requires suffix { IsTrue (is_integer_suffix base (chars suffix.now)) }
    requires bare { IsTrue is_bare → digits_of main.now ≡ main.now }
    ensures literal { IfOk result (λ lit.
        IsOnlyDerivation (IsIntegerOf (chars lit.raw)) (integer_parts lit)) }
    ensures parts { IfOk result (λ lit. integer_parts lit
        ≡ built_integer base group (digits_of main.now) (chars suffix.now)) }
{
    let text = written_text(alloc, base, main, is_bare, group, suffix)?;
    Ok(integer_of(text))
}

/// Writes the text of the integer that [`written`] builds.
fn written_text(
    alloc: Global,
    base: IntegerBase,
    main: &[u8],
    is_bare: bool,
    group: usize,
    suffix: &str,
) -> Result<String, AllocError>
    requires ascii { IsAscii main.now }
    requires decimal { base ≡ IntegerBase.Decimal → IsTrue (first_passes is_ascii_digit main.now) }
    requires bare { IsTrue is_bare → digits_of main.now ≡ main.now }
    ensures { let digits = digits_of main.now in IfOk result (λ text. string_bytes text
        ≡ ((prefix base ++ grouped group digits)
        ++ (if needs_separator base digits (chars suffix.now) then underscore ∷ [] else []))
        ++ suffix.now) }
{
    let digits = digit_count(main, is_bare);
    let separator = separator(needs_separator(base, main, digits, suffix));
    let prefix = base.prefix();
    let front = prefix.len() + separator.len();
    let len = grouped_len(digits, group)
        .saturating_add(front)
        .saturating_add(suffix.len());
    // bounded by the length of the text, which was counted.
    let mut text = String::with_capacity(alloc, len)?;
    text.push_str(prefix)?;
    push_grouped(&mut text, main, digits, is_bare, group)?;
    text.push_str(separator)?;
    text.push_str(suffix)?;
    Ok(text)
}

/// Returns `_` if it is needed, otherwise an empty text.
pub(crate) fn separator(is_needed: bool) -> &'static str
    ensures { result.now ≡ (if is_needed then underscore ∷ [] else []) }
{
    if is_needed { "_" } else { "" }
}

/// Parses a text that is an integer.
fn integer_of(text: String) -> IntegerLit<String>
    requires { (d : IntegerParts) × IsIntegerOf (chars (string_bytes text)) d }
    ensures raw { result.raw ≡ string_bytes text }
    ensures only { IsOnlyDerivation (IsIntegerOf (chars (string_bytes text)))
        (integer_parts result) }
{
    match IntegerLit::parse(text) {
        Ok(lit) => lit,
        Err(_) => unreachable!(),
    }
}

/// Returns the number of digits among these digits and underscores. If `is_bare` is `true`, there
/// are no underscores.
fn digit_count(main: &[u8], is_bare: bool) -> usize
    requires { IsTrue is_bare → digits_of main.now ≡ main.now }
    ensures { result ≡ length (filter is_no_underscore main.now) }
{
    if is_bare {
        main.len()
    } else {
        main.iter().filter(|byte| **byte != b'_').count()
    }
}

/// Returns `true` if there has to be a `_` between the digits, whose number is `digits`, and the
/// suffix.
pub(crate) fn needs_separator(base: IntegerBase, main: &[u8], digits: usize, suffix: &str) -> bool
    requires count { digits ≡ length (filter is_no_underscore main.now) }
    requires decimal { base ≡ IntegerBase.Decimal → IsTrue (first_passes is_ascii_digit main.now) }
    ensures { result ≡ needs_separator base (digits_of main.now) (chars suffix.now) }
{
    match base {
        IntegerBase::Decimal => {
            is_lone_zero(main, digits) && begins_with_base_letter(suffix.as_bytes())
        }
        IntegerBase::Binary | IntegerBase::Octal | IntegerBase::Hexadecimal => false,
    }
}

/// Returns `true` if `0` comes first, and there is one digit.
fn is_lone_zero(main: &[u8], digits: usize) -> bool
    ensures { result ≡ ((digits == 1) && first_passes (λ c. c == digit_zero) main.now) }
{
    digits == 1 && begins_with_zero(main)
}

/// Returns `true` if `0` comes first.
fn begins_with_zero(bytes: &[u8]) -> bool
    ensures { result ≡ first_passes (λ c. c == digit_zero) bytes.now }
{
    match bytes {
        [first, ..] => *first == b'0',
        [] => false,
    }
}

/// Returns `true` if `b`, `o` or `x` comes first.
fn begins_with_base_letter(bytes: &[u8]) -> bool
    ensures { result ≡ first_passes is_base_letter bytes.now }
{
    match bytes {
        [first, ..] => *first == b'b' || *first == b'o' || *first == b'x',
        [] => false,
    }
}

/// Returns the length of `digits` digits with separators.
pub(crate) fn grouped_len(digits: usize, group: usize) -> usize {
    if group == 0 || digits == 0 {
        digits
    } else {
        digits.saturating_add((digits - 1) / group)
    }
}

/// Appends the digits, whose number is `digits`, in groups, letters in lower case.
fn push_grouped(
    text: &mut String,
    main: &[u8],
    digits: usize,
    is_bare: bool,
    group: usize,
) -> Result<(), AllocError>
    requires count { digits ≡ length (filter is_no_underscore main.now) }
    requires ascii { IsAscii main.now }
    requires bare { IsTrue is_bare → digits_of main.now ≡ main.now }
    ensures { OnOk result (string_bytes text.new
        ≡ string_bytes text.old ++ grouped group (digits_of main.now)) }
{
    if is_bare {
        push_groups(text, main, group)
    } else {
        push_digits(text, main, digits, group)
    }
}

/// Appends digits, letters in lower case, a group at a time.
fn push_groups(text: &mut String, digits: &[u8], group: usize) -> Result<(), AllocError>
    requires { IsAscii digits.now }
    ensures { OnOk result (string_bytes text.new
        ≡ string_bytes text.old ++ grouped group digits.now) }
{
    if group == 0 {
        return push_ascii(text, digits);
    }
    let mut rest = digits;
    let mut len = digits.len().saturating_sub(1) % group + 1;
    while rest.len() > group {
        push_ascii(text, &rest[..len])?;
        text.push('_')?;
        rest = &rest[len..];
        len = group;
    }
    push_ascii(text, rest)
}

/// Appends bytes that are ASCII.
pub(crate) fn push_ascii(text: &mut String, bytes: &[u8]) -> Result<(), AllocError>
    requires { IsAscii bytes.now }
    ensures { OnOk result (string_bytes text.new ≡ string_bytes text.old ++ bytes.now) }
{
    text.push_str(unsafe { str::from_utf8_unchecked(bytes) })
}

/// Appends the digits among digits and underscores, whose number is `digits`, in groups, letters in
/// lower case.
fn push_digits(
    text: &mut String,
    main: &[u8],
    digits: usize,
    group: usize,
) -> Result<(), AllocError>
    requires count { digits ≡ length (filter is_no_underscore main.now) }
    requires ascii { IsAscii main.now }
    ensures { OnOk result (string_bytes text.new
        ≡ string_bytes text.old ++ grouped group (digits_of main.now)) }
{
    let mut after = digits;
    for byte in main {
        if *byte == b'_' {
            continue;
        }
        after -= 1;
        push_digit(text, byte.to_ascii_lowercase(), ends_group(group, after))?;
    }
    Ok(())
}

/// Appends a digit, and `_` if it ends a group.
pub(crate) fn push_digit(text: &mut String, digit: u8, ends_group: bool) -> Result<(), AllocError>
    requires { digit < 128 }
    ensures { OnOk result (string_bytes text.new ≡ string_bytes text.old
        ++ (digit ∷ (if ends_group then underscore ∷ [] else []))) }
{
    text.push(digit as char)?;
    text.push_str(separator(ends_group))
}

/// Returns `true` if a group ends before the last `after` digits.
pub(crate) fn ends_group(group: usize, after: usize) -> bool
    ensures { result ≡ ends_group group after }
{
    group > 0 && after > 0 && after % group == 0
}
