//! Tests of a piece of a text: it is a literal, and the rest may follow it.
ghost use Rattle.std.specs.Prelude.{◌≡◌, ◌&&◌};
ghost use Rattle.litrs_prefix.specs.Words.{chars, float_parts, integer_parts, derivation, ends_suffix, ends_bool, keeps_period, gives_period, ends_integer, is_bare, ends_float, may_follow, IsTrue, begins_with, quoted_front, raw_front, IsIntegerOf, IsQuotedLiteral, IsRawLiteral, IsFront, IsJudged, IsJudgedBy};

use crate::opening::{begins_name, begins_with, is_empty};
use litrs::{FloatLit, IntegerLit, Literal};
use litrs_base::{begins_with_digit, split_first_char};
use litrs_lex::{Front, StringKind, cut_byte, cut_char, cut_quoted, scan_raw_string};
use unicode_ident::is_xid_continue;

/// Returns `Some(true)` if `rest` may follow the literal `front`, `Some(false)` if it may not, and
/// `None` if `front` is not a literal.
pub fn follows(front: &str, rest: &str) -> Option<bool>
    ensures { IsJudged result (chars front.now) (chars rest.now) }
{
    match Front::of(front) {
        Front::Bool(_) => Some(ends_bool(rest)),
        Front::Number => number_follows(front, rest),
        Front::Char => match cut_char(front) {
            Ok((_, start)) => Some(ends_suffix(&front[start..], rest)),
            Err(_) => None,
        },
        Front::Byte => match cut_byte(front) {
            Ok((_, start)) => Some(ends_suffix(&front[start..], rest)),
            Err(_) => None,
        },
        Front::Quoted(kind) => quoted_follows(front, rest, kind),
        Front::Raw(kind) => raw_follows(front, rest, kind),
        Front::Empty => None,
        Front::Other => None,
    }
}

/// Like [`follows`], for a number.
fn number_follows(front: &str, rest: &str) -> Option<bool>
    requires { IsFront Front.Number front.now }
    ensures { IsJudged result (chars front.now) (chars rest.now) }
{
    match FloatLit::parse(front) {
        Ok(lit) => Some(ends_suffix(lit.suffix(), rest) && ends_float(&lit, rest)),
        Err(_) => integer_follows(front, rest),
    }
}

/// Like [`follows`], for an integer.
pub fn integer_follows(front: &str, rest: &str) -> Option<bool>
    ensures { IsJudgedBy (IsIntegerOf (chars front.now))
        (λ d. ends_suffix d.suffix (chars rest.now) && ends_integer d (chars rest.now)) result }
{
    match IntegerLit::parse(front) {
        Ok(lit) => Some(ends_suffix(lit.suffix(), rest) && ends_integer(&lit, rest)),
        Err(_) => None,
    }
}

/// Like [`follows`], for a quoted string of the kind `kind`.
fn quoted_follows(front: &str, rest: &str, kind: StringKind) -> Option<bool>
    requires { IsTrue (begins_with (quoted_front kind) front.now) }
    ensures { IsJudgedBy (IsQuotedLiteral kind (chars front.now))
        (λ d. ends_suffix d.suffix (chars rest.now)) result }
{
    let allowed = kind.switches();
    let start = kind.front_len();
    match cut_quoted(
        front,
        start,
        allowed.unicode,
        allowed.byte_escapes,
        allowed.allow_nul,
    ) {
        Ok(cut) => Some(ends_suffix(&front[cut.start_suffix..], rest)),
        Err(_) => None,
    }
}

/// Like [`follows`], for a raw string of the kind `kind`.
fn raw_follows(front: &str, rest: &str, kind: StringKind) -> Option<bool>
    requires { IsTrue (begins_with (raw_front kind) front.now) }
    ensures { IsJudgedBy (IsRawLiteral kind (chars front.now))
        (λ d. ends_suffix d.suffix (chars rest.now)) result }
{
    let allowed = kind.switches();
    match scan_raw_string(front, kind.front_len(), allowed.unicode, allowed.allow_nul) {
        Ok((_, start)) => Some(ends_suffix(&front[start..], rest)),
        Err(_) => None,
    }
}

/// Returns `true` if `literal` ends where `rest` follows it. ` + 1`, `.max()` and `..` may follow
/// `2`, but `.5`, `_x`, `e+` and `3` may not.
pub fn may_follow(literal: &Literal<&str>, rest: &str) -> bool
    ensures { result ≡ may_follow (derivation literal.now) (chars rest.now) }
{
    match literal {
        Literal::Bool(_) => ends_bool(rest),
        Literal::Integer(lit) => ends_suffix(lit.suffix(), rest) && ends_integer(lit, rest),
        Literal::Float(lit) => ends_suffix(lit.suffix(), rest) && ends_float(lit, rest),
        _ => ends_suffix(literal.suffix(), rest),
    }
}

/// Returns `true` if `suffix` ends where `rest` follows it.
pub(crate) fn ends_suffix(suffix: &str, rest: &str) -> bool
    ensures { result ≡ ends_suffix (chars suffix.now) (chars rest.now) }
{
    match split_first_char(rest) {
        Some((c, _)) if is_empty(suffix) => !begins_name(c),
        Some((c, _)) => !is_xid_continue(c),
        None => true,
    }
}

/// Returns `true` if a bool ends where `rest` follows it: it is a whole name and not a prefix.
pub(crate) fn ends_bool(rest: &str) -> bool
    ensures { result ≡ ends_bool (chars rest.now) }
{
    !matches!(split_first_char(rest), Some((c, _))
        if is_xid_continue(c) || c == '"' || c == '\'' || c == '#')
}

/// Returns `true` if `lit` ends where `rest` follows it.
pub(crate) fn ends_integer(lit: &IntegerLit<&str>, rest: &str) -> bool
    ensures { result ≡ ends_integer (integer_parts lit.now) (chars rest.now) }
{
    let none = is_empty(lit.suffix());
    !begins_with_digit(rest) && !(gives_period(rest) && none)
}

/// Like [`ends_integer`], for a float.
pub(crate) fn ends_float(lit: &FloatLit<&str>, rest: &str) -> bool
    ensures { result ≡ ends_float (float_parts lit.now) (chars rest.now) }
{
    !begins_with_digit(rest) && !(begins_with(rest, '.') && is_bare(lit))
}

/// Returns `true` if `lit` ends with its period.
fn is_bare(lit: &FloatLit<&str>) -> bool
    ensures { result ≡ is_bare (float_parts lit.now).fraction }
{
    matches!(lit.fractional_part(), Some(fraction) if is_empty(fraction))
}

/// Returns `true` if `text` starts with a period that an integer before it would take.
pub(crate) fn gives_period(text: &str) -> bool
    ensures { result ≡ gives_period (chars text.now) }
{
    matches!(split_first_char(text), Some((c, after)) if c == '.' && !keeps_period(after))
}

/// Returns `true` if a period before `text` does not belong to a number, as `text` starts with
/// another period or with a name.
fn keeps_period(text: &str) -> bool
    ensures { result ≡ keeps_period (chars text.now) }
{
    matches!(split_first_char(text), Some((c, _)) if c == '.' || begins_name(c))
}
