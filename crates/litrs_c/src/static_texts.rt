//! The names of kinds, and the version, as static texts of C.
ghost use Rattle.std.specs.Prelude.{◌≡◌, ◌<◌, ◌⊎◌, codes};
ghost use Rattle.litrs_base.specs.declared.err.ParseErrorKind.{ParseErrorKind};
ghost use Rattle.litrs_grammar.specs.Literal.{LiteralKind};
ghost use Rattle.litrs_lexer.specs.declared.kind.TokenKind.{TokenKind};
ghost use Rattle.litrs_c.specs.Codes.{kind_code, error_code, token_code};
ghost use Rattle.litrs_c.specs.Names.{zero_ended, unknown_name, kind_name, error_name, token_name, kind_names, error_names, token_names, name_at};

use crate::StaticText;

/// The name for a number that is not in the header.
const UNKNOWN: &[u8] = b"Unknown\0";

/// The names by the numbers of `enum litrs_kind`.
static KIND_NAMES: [&[u8]; 9] = [
    b"Unknown\0",
    b"Bool\0",
    b"Integer\0",
    b"Float\0",
    b"Char\0",
    b"Byte\0",
    b"String\0",
    b"ByteString\0",
    b"CString\0",
];

/// The names by the numbers of `enum litrs_error`.
static ERROR_NAMES: [&[u8]; 42] = [
    b"Unknown\0",
    b"Empty\0",
    b"UnexpectedChar\0",
    b"InvalidLiteral\0",
    b"DoesNotStartWithDigit\0",
    b"InvalidDigit\0",
    b"NoDigits\0",
    b"NoExponentDigits\0",
    b"UnknownEscape\0",
    b"UnterminatedEscape\0",
    b"InvalidXEscape\0",
    b"NonAsciiXEscape\0",
    b"UnicodeEscapeInByteLiteral\0",
    b"InvalidStartOfUnicodeEscape\0",
    b"UnicodeEscapeWithoutBrace\0",
    b"NonHexDigitInUnicodeEscape\0",
    b"TooManyDigitInUnicodeEscape\0",
    b"InvalidUnicodeEscapeChar\0",
    b"UnterminatedUnicodeEscape\0",
    b"UnterminatedCharLiteral\0",
    b"OverlongCharLiteral\0",
    b"EmptyCharLiteral\0",
    b"UnterminatedByteLiteral\0",
    b"OverlongByteLiteral\0",
    b"EmptyByteLiteral\0",
    b"NonAsciiInByteLiteral\0",
    b"UnescapedSingleQuote\0",
    b"UnescapedSpecialWhitespace\0",
    b"DoesNotStartWithQuote\0",
    b"UnterminatedRawString\0",
    b"UnterminatedString\0",
    b"InvalidStringLiteralStart\0",
    b"InvalidByteLiteralStart\0",
    b"InvalidByteStringLiteralStart\0",
    b"InvalidCStringLiteralStart\0",
    b"DisallowedNulEscape\0",
    b"NulByte\0",
    b"CarriageReturn\0",
    b"TooManyHashes\0",
    b"InvalidSuffix\0",
    b"UnexpectedIntegerLit\0",
    b"IntegerSuffixStartingWithE\0",
];

/// The names by the numbers of `enum litrs_token_kind`.
static TOKEN_NAMES: [&[u8]; 15] = [
    b"Unknown\0",
    b"Whitespace\0",
    b"LineComment\0",
    b"BlockComment\0",
    b"UnterminatedBlockComment\0",
    b"Ident\0",
    b"RawIdent\0",
    b"UnknownPrefix\0",
    b"Lifetime\0",
    b"RawLifetime\0",
    b"UnknownPrefixLifetime\0",
    b"Literal\0",
    b"MalformedLiteral\0",
    b"Punctuation\0",
    b"Unknown\0",
];

/// Writes the version of the library, that of `LITRS_VERSION`, to `version`.
#[unsafe(no_mangle)]
pub extern "C" fn litrs_get_version(version: &mut StaticText)
    ensures { version.new.text.now ≡ zero_ended (codes "1.0.1-rattle.2") }
{
    *version = StaticText {
        text: b"1.0.1-rattle.2\0",
    };
}

/// Writes the name of the kind of literals with this number in `enum litrs_kind` to `name`: that of
/// the variant of [`Literal`](litrs::Literal), and `Unknown` for any other number.
#[unsafe(no_mangle)]
pub extern "C" fn litrs_get_kind_name(kind: u32, name: &mut StaticText)
    ensures named { (k : LiteralKind) → kind ≡ kind_code k
        → name.new.text.now ≡ zero_ended (kind_name k) }
    ensures unknown { (kind ≡ 0) ⊎ (8 < kind) → name.new.text.now ≡ zero_ended unknown_name }
{
    *name = StaticText {
        text: kind_name(kind),
    };
}

/// Writes the name of the kind of errors with this number in `enum litrs_error` to `name`: that of
/// the variant of [`ParseErrorKind`](litrs::ParseErrorKind), and `Unknown` for any other number.
#[unsafe(no_mangle)]
pub extern "C" fn litrs_get_error_name(error: u32, name: &mut StaticText)
    ensures named { (k : ParseErrorKind) → error ≡ error_code k
        → name.new.text.now ≡ zero_ended (error_name k) }
    ensures unknown { (error ≡ 0) ⊎ (41 < error) → name.new.text.now ≡ zero_ended unknown_name }
{
    *name = StaticText {
        text: error_name(error),
    };
}

/// Writes the name of the kind of tokens with this number in `enum litrs_token_kind` to `name`:
/// that of the variant of [`TokenKind`](litrs_lexer::TokenKind), and `Unknown` for any other
/// number.
#[unsafe(no_mangle)]
pub extern "C" fn litrs_get_token_kind_name(kind: u32, name: &mut StaticText)
    ensures named { (k : TokenKind) → kind ≡ token_code k
        → name.new.text.now ≡ zero_ended (token_name k) }
    ensures unknown { (kind ≡ 0) ⊎ (14 < kind) → name.new.text.now ≡ zero_ended unknown_name }
{
    *name = StaticText {
        text: token_kind_name(kind),
    };
}

/// Returns the name at a number of `enum litrs_kind`.
fn kind_name(number: u32) -> &'static [u8]
    ensures { result.now ≡ zero_ended (name_at kind_names number) }
{
    let index = number as usize;
    if index < KIND_NAMES.len() {
        KIND_NAMES[index]
    } else {
        UNKNOWN
    }
}

/// Returns the name at a number of `enum litrs_error`.
fn error_name(number: u32) -> &'static [u8]
    ensures { result.now ≡ zero_ended (name_at error_names number) }
{
    let index = number as usize;
    if index < ERROR_NAMES.len() {
        ERROR_NAMES[index]
    } else {
        UNKNOWN
    }
}

/// Returns the name at a number of `enum litrs_token_kind`.
fn token_kind_name(number: u32) -> &'static [u8]
    ensures { result.now ≡ zero_ended (name_at token_names number) }
{
    let index = number as usize;
    if index < TOKEN_NAMES.len() {
        TOKEN_NAMES[index]
    } else {
        UNKNOWN
    }
}
