//! Parses of strings of the three kinds.
ghost use Rattle.std.specs.Prelude.{◌≡◌, ◌⊎◌, ◌||◌, not, IfOk, IfErr, IsTrue};
ghost use Rattle.std.specs.Str.{chars, IsCharBoundary};
ghost use Rattle.litrs_base.specs.Refusal.{refusal_of, HasCharSpan};
ghost use Rattle.litrs_grammar.specs.Literal.{kind_parse, string_literal_of};
ghost use Rattle.litrs_grammar.specs.LiteralRefusals.{string_start_refusal};
ghost use Rattle.litrs_grammar.specs.Refused.{IsRefusedOrOutOfMemory};
ghost use Rattle.litrs_base.specs.Quotes.{switches_of};
ghost use Rattle.litrs_lex.specs.QuotedCut.{IsQuotedRefused, IsQuotedOutOfMemory};
ghost use Rattle.litrs_lex.specs.RawCut.{IsRawRefused};
ghost use Rattle.litrs_lex.specs.Front.{IsFront};
ghost use Rattle.litrs.specs.ParsedStrings.{IsParsedQuoted, IsParsedRaw, IsParsedString};
ghost use Rattle.litrs.specs.StringLiteral.{kept_map};

use crate::kept_value::{BodyPlace, KeptValue};
use litrs_lex::{
    Allows, EscapeContainer, Front, ParseError, ParseErrorKind, StringKind, scan_raw_string,
    unescape_string_with,
};
use std::alloc::Global;

/// Parses `input`, which starts with `front`, as a string of `kind`. Returns its value, or the
/// place of the value, and the place of its suffix, in bytes. It is compiled for each kind.
#[inline(always)]
pub(crate) fn read_string<C: EscapeContainer, A: Allows>(
    alloc: Global,
    input: &str,
    kind: StringKind,
    allowed: A,
    front: Front,
) -> Result<(KeptValue<C>, usize), ParseError>
    requires front { IsFront front input.now }
    requires same { A.allowed allowed ≡ switches_of kind }
    requires fits { IsTrue (not (A.allowed allowed).byte_escapes || C.TAKES_BYTES) }
    ensures ok { IfOk result (λ parsed.
        IsParsedString kind input.now (kept_map C.contents parsed.0) parsed.1) }
    ensures refused { IfErr result (IsRefusedOrOutOfMemory
        (kind_parse (string_literal_of kind)) (chars input.now)) }
{
    let offset = kind.front_len();
    match front {
        Front::Quoted(found) if found == kind => quoted_value(alloc, input, offset, allowed),
        Front::Raw(found) if found == kind => {
            let (start_suffix, place) = raw_place(input, offset, allowed)?;
            Ok((KeptValue::InText(place), start_suffix))
        }
        Front::Empty => Err(ParseError::new(None, ParseErrorKind::Empty)),
        _ => Err(start_refusal(input, kind)),
    }
}

/// Returns the error of `input`, which is not empty and starts with neither front of `kind`.
fn start_refusal(input: &str, kind: StringKind) -> ParseError
    ensures refusal { refusal_of result ≡ string_start_refusal kind }
    ensures char_span { HasCharSpan (chars input.now) result }
{
    match kind {
        StringKind::String => {
            let span = Some(0..1);
            ParseError::in_text(input, span, ParseErrorKind::InvalidStringLiteralStart)
        }
        StringKind::ByteString => {
            ParseError::new(None, ParseErrorKind::InvalidByteStringLiteralStart)
        }
        StringKind::CString => ParseError::new(None, ParseErrorKind::InvalidCStringLiteralStart),
    }
}

/// Parses a quoted string whose body starts at `offset`. Returns its value if the body has a
/// backslash, otherwise the place of the body, and the place of the suffix. `offset` is that of
/// [`unescape_string`](litrs_lex::unescape_string).
#[inline(always)]
fn quoted_value<C: EscapeContainer, A: Allows>(
    alloc: Global,
    input: &str,
    offset: usize,
    allowed: A,
) -> Result<(KeptValue<C>, usize), ParseError>
    requires at { IsCharBoundary input.now offset }
    requires fits { IsTrue (not (A.allowed allowed).byte_escapes || C.TAKES_BYTES) }
    ensures ok { IfOk result (λ parsed.
        IsParsedQuoted (A.allowed allowed) input.now offset
        (kept_map C.contents parsed.0) parsed.1) }
    ensures refused { IfErr result (λ e.
        IsQuotedRefused (A.allowed allowed) input.now offset e
        ⊎ IsQuotedOutOfMemory (A.allowed allowed) input.now offset e) }
{
    let (value, start_suffix) = unescape_string_with(alloc, input, offset, allowed)?;
    match value {
        Some(value) => Ok((KeptValue::Owned(value), start_suffix)),
        None => {
            let place = BodyPlace {
                start: offset,
                end: start_suffix - 1,
                is_raw: false,
            };
            Ok((KeptValue::InText(place), start_suffix))
        }
    }
}

/// Cuts a raw string whose `r` ends at `offset`. Returns the places of its suffix and its body.
/// `offset` and `allowed` are those of [`scan_raw_string`].
// Keep the body last: CONTRIBUTING.md says why.
#[inline(never)]
fn raw_place<A: Allows>(
    input: &str,
    offset: usize,
    allowed: A,
) -> Result<(usize, BodyPlace), ParseError>
    requires { IsCharBoundary input.now offset }
    ensures ok { IfOk result (λ parsed.
        IsParsedRaw (A.allowed allowed).unicode (A.allowed allowed).allow_nul offset input.now
        parsed.1 parsed.0) }
    ensures refused { IfErr result
        (IsRawRefused (A.allowed allowed).unicode (A.allowed allowed).allow_nul offset
        input.now) }
{
    let switches = allowed.switches();
    let (hashes, start_suffix) = scan_raw_string(
        input,
        offset,
        switches.unicode,
        switches.allow_nul,
    )?;
    // The quote and the hashes.
    let closing = hashes as usize + 1;
    let place = BodyPlace {
        start: offset + closing,
        end: start_suffix - closing,
        is_raw: true,
    };
    Ok((start_suffix, place))
}
