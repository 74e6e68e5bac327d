//! Integers that are rewritten in a style.
ghost use Rattle.std.specs.Prelude.{◌≡◌, ◌<◌, ◌∷◌, [], ◌++◌, map, filter, length, string_bytes, IfOk, OnOk, IsTrue, if◌then◌else◌};
ghost use Rattle.std.specs.Char.{is_ascii_digit};
ghost use Rattle.std.specs.List.{list_any};
ghost use Rattle.std.specs.Str.{chars, IsAscii};
ghost use Rattle.litrs_base.specs.Base.{prefix};
ghost use Rattle.litrs_base.specs.Characters.{underscore};
ghost use Rattle.litrs_base.specs.Numeral.{is_no_underscore};
ghost use Rattle.litrs_base.specs.Text.{first_passes};
ghost use Rattle.litrs_grammar.specs.Float.{is_underscore};
ghost use Rattle.litrs_grammar.specs.Integer.{integer_text};
ghost use Rattle.litrs.specs.Digits.{digits_of};
ghost use Rattle.litrs.specs.IntegerLiteral.{integer_parts};
ghost use Rattle.litrs_build.specs.BuiltInteger.{needs_separator};
ghost use Rattle.litrs_build.specs.RewrittenInteger.{cased, len_of, group_of, rewritten_integer};
ghost use Rattle.litrs_build.specs.WrittenDigits.{grouped};

use crate::integers::{ends_group, grouped_len, needs_separator, push_digit, separator};
use crate::style::{Case, GroupLens, Groups, Style};
use litrs::{IntegerBase, IntegerLit, Text};
use std::alloc::{AllocError, Global};

/// Returns the text of `lit`, rewritten in `style`.
pub(crate) fn rewritten_integer<B: Text>(
    alloc: Global,
    lit: &IntegerLit<B>,
    style: &Style,
) -> Result<String, AllocError>
    ensures { IfOk result (λ text. chars (string_bytes text)
        ≡ integer_text (rewritten_integer style.now (integer_parts lit.now))) }
{
    // Called for its contract: the parts are those of an integer.
    let _ = lit.raw_input();
    let base = lit.base();
    let main = lit.raw_main_part().as_bytes();
    match group_of(style.groups, base, main) {
        None => kept_text(alloc, base, main, style.digits, lit.suffix()),
        Some(group) => grouped_text(alloc, base, main, group, style.digits, lit.suffix()),
    }
}

/// Returns the number of digits of a group, or `None` if each `_` stays where it is.
fn group_of(groups: Groups, base: IntegerBase, main: &[u8]) -> Option<usize>
    ensures { result ≡ group_of groups base main.now }
{
    match groups {
        Groups::Kept => None,
        Groups::Regrouped(lens) => {
            if has_underscore(main) {
                Some(len_of(lens, base))
            } else {
                None
            }
        }
        Groups::Grouped(lens) => Some(len_of(lens, base)),
    }
}

/// Returns `true` if `main` contains `_`.
pub(crate) fn has_underscore(main: &[u8]) -> bool
    ensures { result ≡ list_any is_underscore main.now }
{
    main.iter().any(|byte| *byte == b'_')
}

/// Returns the number of digits of a group in `base`.
fn len_of(lens: GroupLens, base: IntegerBase) -> usize
    ensures { result ≡ len_of lens base }
{
    match base {
        IntegerBase::Binary => lens.binary,
        IntegerBase::Octal => lens.octal,
        IntegerBase::Decimal => lens.decimal,
        IntegerBase::Hexadecimal => lens.hexadecimal,
    }
}

/// Writes the text with this main part, its digits in this case, and with this suffix.
fn kept_text(
    alloc: Global,
    base: IntegerBase,
    main: &[u8],
    case: Option<Case>,
    suffix: &str,
) -> Result<String, AllocError>
    requires ascii { IsAscii main.now }
    ensures { IfOk result (λ text. string_bytes text
        ≡ (prefix base ++ map (cased case) main.now) ++ suffix.now) }
{
    let prefix = base.prefix();
    let len = main
        .len()
        .saturating_add(prefix.len())
        .saturating_add(suffix.len());
    // bounded by the length of the text.
    let mut text = String::with_capacity(alloc, len)?;
    text.push_str(prefix)?;
    push_cased(&mut text, main, case)?;
    text.push_str(suffix)?;
    Ok(text)
}

/// Writes the text with these digits in groups and in this case, and with this suffix.
fn grouped_text(
    alloc: Global,
    base: IntegerBase,
    main: &[u8],
    group: usize,
    case: Option<Case>,
    suffix: &str,
) -> Result<String, AllocError>
    requires ascii { IsAscii main.now }
    requires decimal { base ≡ IntegerBase.Decimal → IsTrue (first_passes is_ascii_digit main.now) }
    ensures { IfOk result (λ text. string_bytes text
        ≡ ((prefix base ++ grouped group (map (cased case) (filter is_no_underscore main.now)))
        ++ (if needs_separator base (digits_of main.now) (chars suffix.now)
        then underscore ∷ [] else [])) ++ suffix.now) }
{
    let digits = count_digits(main);
    let separator = separator(needs_separator(base, main, digits, suffix));
    let prefix = base.prefix();
    let len = grouped_len(digits, group)
        .saturating_add(prefix.len() + separator.len())
        .saturating_add(suffix.len());
    // bounded by the length of the text, which was counted.
    let mut text = String::with_capacity(alloc, len)?;
    text.push_str(prefix)?;
    push_cased_groups(&mut text, main, digits, group, case)?;
    text.push_str(separator)?;
    text.push_str(suffix)?;
    Ok(text)
}

/// Returns the number of digits among these digits and underscores.
pub(crate) fn count_digits(main: &[u8]) -> usize
    ensures { result ≡ length (filter is_no_underscore main.now) }
{
    main.iter().filter(|byte| **byte != b'_').count()
}

/// Appends `main`, its digits in this case.
fn push_cased(text: &mut String, main: &[u8], case: Option<Case>) -> Result<(), AllocError>
    requires { IsAscii main.now }
    ensures { OnOk result (string_bytes text.new
        ≡ string_bytes text.old ++ map (cased case) main.now) }
{
    for byte in main {
        push_digit(text, cased(case, *byte), false)?;
    }
    Ok(())
}

/// Appends the digits, whose number is `digits`, in groups and in this case.
pub(crate) fn push_cased_groups(
    text: &mut String,
    main: &[u8],
    digits: usize,
    group: usize,
    case: Option<Case>,
) -> Result<(), AllocError>
    requires count { digits ≡ length (filter is_no_underscore main.now) }
    requires ascii { IsAscii main.now }
    ensures { OnOk result (string_bytes text.new ≡ string_bytes text.old
        ++ grouped group (map (cased case) (filter is_no_underscore main.now))) }
{
    let mut after = digits;
    for byte in main {
        if *byte == b'_' {
            continue;
        }
        after -= 1;
        push_digit(text, cased(case, *byte), ends_group(group, after))?;
    }
    Ok(())
}

/// Returns `byte` in this case.
pub(crate) fn cased(case: Option<Case>, byte: u8) -> u8
    ensures value { result ≡ cased case byte }
    ensures ascii { byte < 128 → result < 128 }
{
    match case {
        None => byte,
        Some(Case::Lower) => byte.to_ascii_lowercase(),
        Some(Case::Upper) => byte.to_ascii_uppercase(),
    }
}
