//! The fields of an error.
ghost use Rattle.std.specs.Prelude.{◌≡◌};
ghost use Rattle.litrs_c.specs.Codes.{error_code};
ghost use Rattle.litrs_c.specs.RefusalFields.{span_place, IsRefusalFields};

use crate::literals::NOWHERE;
use crate::{Place, RefusalFields};
use litrs::{ParseError, ParseErrorKind};
use std::ops::Range;

/// The fields for a text without an error.
pub(crate) const NO_REFUSAL: RefusalFields = RefusalFields {
    kind: 0,
    has_span: false,
    is_final: false,
    is_open: false,
    span: NOWHERE,
    char_span: NOWHERE,
};

#[inline(always)]
pub(crate) fn write_refusal_fields(error: &ParseError, fields: &mut RefusalFields)
    ensures { IsRefusalFields error.now fields.new }
{
    fields.kind = error_code(error.kind());
    fields.is_final = error.is_final();
    fields.is_open = error.is_open();
    let span = error.span();
    if span.is_none() {
        fields.has_span = false;
        fields.span = NOWHERE;
        fields.char_span = NOWHERE;
    } else {
        fields.has_span = true;
        fields.span = span_place(span);
        fields.char_span = span_place(error.char_span());
    }
}

#[inline(always)]
fn span_place(span: Option<Range<usize>>) -> Place
    ensures { result ≡ span_place span }
{
    match span {
        Some(span) => Place {
            start: span.start,
            end: span.end,
        },
        None => NOWHERE,
    }
}

/// Returns the number of the kind in `enum litrs_error`. `OutOfMemory` is a status and not in it:
/// its number is not written.
fn error_code(kind: ParseErrorKind) -> u32
    ensures { result ≡ error_code kind }
{
    match kind {
        ParseErrorKind::Empty => 1,
        ParseErrorKind::UnexpectedChar => 2,
        ParseErrorKind::InvalidLiteral => 3,
        ParseErrorKind::DoesNotStartWithDigit => 4,
        ParseErrorKind::InvalidDigit => 5,
        ParseErrorKind::NoDigits => 6,
        ParseErrorKind::NoExponentDigits => 7,
        ParseErrorKind::UnknownEscape => 8,
        ParseErrorKind::UnterminatedEscape => 9,
        ParseErrorKind::InvalidXEscape => 10,
        ParseErrorKind::NonAsciiXEscape => 11,
        ParseErrorKind::UnicodeEscapeInByteLiteral => 12,
        ParseErrorKind::InvalidStartOfUnicodeEscape => 13,
        ParseErrorKind::UnicodeEscapeWithoutBrace => 14,
        ParseErrorKind::NonHexDigitInUnicodeEscape => 15,
        ParseErrorKind::TooManyDigitInUnicodeEscape => 16,
        ParseErrorKind::InvalidUnicodeEscapeChar => 17,
        ParseErrorKind::UnterminatedUnicodeEscape => 18,
        ParseErrorKind::UnterminatedCharLiteral => 19,
        ParseErrorKind::OverlongCharLiteral => 20,
        ParseErrorKind::EmptyCharLiteral => 21,
        ParseErrorKind::UnterminatedByteLiteral => 22,
        ParseErrorKind::OverlongByteLiteral => 23,
        ParseErrorKind::EmptyByteLiteral => 24,
        ParseErrorKind::NonAsciiInByteLiteral => 25,
        ParseErrorKind::UnescapedSingleQuote => 26,
        ParseErrorKind::UnescapedSpecialWhitespace => 27,
        ParseErrorKind::DoesNotStartWithQuote => 28,
        ParseErrorKind::UnterminatedRawString => 29,
        ParseErrorKind::UnterminatedString => 30,
        ParseErrorKind::InvalidStringLiteralStart => 31,
        ParseErrorKind::InvalidByteLiteralStart => 32,
        ParseErrorKind::InvalidByteStringLiteralStart => 33,
        ParseErrorKind::InvalidCStringLiteralStart => 34,
        ParseErrorKind::DisallowedNulEscape => 35,
        ParseErrorKind::NulByte => 36,
        ParseErrorKind::CarriageReturn => 37,
        ParseErrorKind::TooManyHashes => 38,
        ParseErrorKind::InvalidSuffix => 39,
        ParseErrorKind::UnexpectedIntegerLit => 40,
        ParseErrorKind::IntegerSuffixStartingWithE => 41,
        ParseErrorKind::OutOfMemory => 42,
    }
}
