//! Floats that are rewritten in a style.
ghost use Rattle.std.specs.Prelude.{◌≡◌, ◌++◌, take, drop, filter, option_map, string_bytes, IfOk, OnOk, IfSome};
ghost use Rattle.std.specs.Str.{chars, IsAscii};
ghost use Rattle.litrs_base.specs.Numeral.{is_no_underscore};
ghost use Rattle.litrs_grammar.specs.Float.{float_text, fraction_text, sign_len};
ghost use Rattle.litrs.specs.FloatLiteral.{float_parts};
ghost use Rattle.litrs_build.specs.RewrittenFloat.{grouped_after, kept_parts, grouped_parts, part_lens, regrouped, regrouped_fraction, rewritten_exponent, rewritten_float};

use crate::floats::sign_len;
use crate::integer_style::{cased, count_digits, has_underscore, push_cased_groups};
use crate::integers::{ends_group, grouped_len, push_ascii, push_digit, separator};
use crate::style::{Case, FloatGroupLens, FloatGroups, Style};
use litrs::{FloatLit, Text};
use std::alloc::{AllocError, Global};

/// The number of digits of a group in each part of a float, or `None` if each `_` stays.
#[derive(Clone, Copy)]
pub(crate) struct PartLens {
    integer: Option<usize>,
    fraction: Option<usize>,
    exponent: Option<usize>,
}

/// Returns the text of `lit`, rewritten in `style`.
pub(crate) fn rewritten_float<B: Text>(
    alloc: Global,
    lit: &FloatLit<B>,
    style: &Style,
) -> Result<String, AllocError>
    ensures { IfOk result (λ text. chars (string_bytes text)
        ≡ float_text (rewritten_float style.now (float_parts lit.now))) }
{
    // Called for its contract: the parts are those of a float.
    let _ = lit.raw_input();
    let lens = part_lens(style.float_groups, lit.number_part().as_bytes());
    let integer = lit.integer_part().as_bytes();
    let fraction = lit.fractional_part();
    let exponent = lit.exponent_part().as_bytes();
    let suffix = lit.suffix();
    let len = part_len(integer, lens.integer)
        .saturating_add(fraction_len(fraction, lens.fraction))
        .saturating_add(exponent_len(exponent, lens.exponent))
        .saturating_add(suffix.len());
    // bounded by the length of the text, which was counted.
    let mut text = String::with_capacity(alloc, len)?;
    push_part(&mut text, integer, lens.integer)?;
    push_fraction(&mut text, fraction, lens.fraction)?;
    push_exponent(&mut text, exponent, lens.exponent, style.exponents)?;
    text.push_str(suffix)?;
    Ok(text)
}

/// Returns the number of digits of a group in each part, by the text before the suffix.
fn part_lens(groups: FloatGroups, number: &[u8]) -> PartLens
    ensures { result ≡ part_lens groups number.now }
{
    match groups {
        FloatGroups::Kept => kept_parts(),
        FloatGroups::Regrouped(lens) => {
            if has_underscore(number) {
                grouped_parts(lens)
            } else {
                kept_parts()
            }
        }
        FloatGroups::Grouped(lens) => grouped_parts(lens),
    }
}

/// Returns the numbers with which each `_` stays where it is.
fn kept_parts() -> PartLens
    ensures { result ≡ kept_parts }
{
    PartLens {
        integer: None,
        fraction: None,
        exponent: None,
    }
}

/// Returns the numbers with which all parts are in groups.
fn grouped_parts(lens: FloatGroupLens) -> PartLens
    ensures { result ≡ grouped_parts lens }
{
    PartLens {
        integer: Some(lens.integer),
        fraction: Some(lens.fraction),
        exponent: Some(lens.exponent),
    }
}

/// Returns the length of `digits` in groups.
fn part_len(digits: &[u8], group: Option<usize>) -> usize {
    match group {
        None => digits.len(),
        Some(group) => grouped_len(count_digits(digits), group),
    }
}

/// Returns the length of the period and the fraction in groups.
fn fraction_len(fraction: Option<&str>, group: Option<usize>) -> usize {
    match fraction {
        Some(digits) => part_len(digits.as_bytes(), group).saturating_add(1),
        None => 0,
    }
}

/// Returns the length of an exponent with its digits in groups.
fn exponent_len(exponent: &[u8], group: Option<usize>) -> usize {
    match exponent {
        [_, number @ ..] => {
            let sign = sign_len(number);
            part_len(&number[sign..], group).saturating_add(sign + 1)
        }
        [] => 0,
    }
}

/// Appends `digits`, in groups that are counted from the last digit.
fn push_part(text: &mut String, digits: &[u8], group: Option<usize>) -> Result<(), AllocError>
    requires { IsAscii digits.now }
    ensures { OnOk result (string_bytes text.new
        ≡ string_bytes text.old ++ regrouped group digits.now) }
{
    match group {
        None => push_ascii(text, digits),
        Some(group) => {
            push_cased_groups(text, digits, count_digits(digits), group, None)?;
            Ok(())
        }
    }
}

/// Appends the period and the fraction, if there is one, in groups.
fn push_fraction(
    text: &mut String,
    fraction: Option<&str>,
    group: Option<usize>,
) -> Result<(), AllocError>
    requires { IfSome fraction (λ digits. IsAscii digits.now) }
    ensures { OnOk result (string_bytes text.new ≡ string_bytes text.old ++ fraction_text
        (option_map (λ digits. regrouped_fraction group digits.now) fraction.entry)) }
{
    match fraction {
        Some(digits) => {
            text.push_str(".")?;
            push_after_period(text, digits.as_bytes(), group)?;
            Ok(())
        }
        None => Ok(()),
    }
}

/// Appends the digits after the period, in groups that are counted from the first digit.
fn push_after_period(
    text: &mut String,
    digits: &[u8],
    group: Option<usize>,
) -> Result<(), AllocError>
    requires { IsAscii digits.now }
    ensures { OnOk result (string_bytes text.new
        ≡ string_bytes text.old ++ regrouped_fraction group digits.now) }
{
    match group {
        None => push_ascii(text, digits),
        Some(group) => push_groups_after(text, digits, group),
    }
}

/// Appends the digits among digits and underscores, in groups that are counted from the first
/// digit.
fn push_groups_after(text: &mut String, main: &[u8], group: usize) -> Result<(), AllocError>
    requires { IsAscii main.now }
    ensures { OnOk result (string_bytes text.new ≡ string_bytes text.old
        ++ grouped_after group 0 (filter is_no_underscore main.now)) }
{
    let mut before: usize = 0;
    for byte in main {
        if *byte == b'_' {
            continue;
        }
        text.push_str(separator(ends_group(group, before)))?;
        push_digit(text, *byte, false)?;
        before += 1;
    }
    Ok(())
}

/// Appends an exponent, its letter in this case, and its digits in groups.
fn push_exponent(
    text: &mut String,
    exponent: &[u8],
    group: Option<usize>,
    case: Option<Case>,
) -> Result<(), AllocError>
    requires { IsAscii exponent.now }
    ensures { OnOk result (string_bytes text.new
        ≡ string_bytes text.old ++ rewritten_exponent case group exponent.now) }
{
    match exponent {
        [letter, number @ ..] => {
            push_digit(text, cased(case, *letter), false)?;
            push_number(text, number, group)?;
            Ok(())
        }
        [] => Ok(()),
    }
}

/// Appends a sign, if there is one, and the digits after it in groups.
fn push_number(text: &mut String, number: &[u8], group: Option<usize>) -> Result<(), AllocError>
    requires { IsAscii number.now }
    ensures { let sign = sign_len number.now in OnOk result (string_bytes text.new
        ≡ string_bytes text.old
        ++ (take sign number.now ++ regrouped group (drop sign number.now))) }
{
    let len = sign_len(number);
    push_ascii(text, &number[..len])?;
    push_part(text, &number[len..], group)?;
    Ok(())
}
