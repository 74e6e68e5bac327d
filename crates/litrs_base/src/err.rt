//! The errors of parses.
ghost use Rattle.std.specs.Prelude.{◌≡◌, ◌+◌, ◌≤◌, ◌<◌};
ghost use Rattle.std.specs.Str.{chars};
ghost use Rattle.litrs_base.specs.CharEnd.{IsCharEnd};
ghost use Rattle.litrs_base.specs.Kind.{kind_text};

use std::error::Error;
use std::fmt;
use std::ops::Range;

/// An error of a parse: its kind, and perhaps a span in the text.
#[derive(Debug, Drop)]
pub struct ParseError {
    pub(crate) span: Option<Range<usize>>,
    pub(crate) char_end: usize,
    pub(crate) kind: ParseErrorKind,
}

impl ParseError {
    ghost use Rattle.std.specs.Prelude.{IfSome};
    ghost use Rattle.litrs_base.specs.Refusal.{refusal, refusal_of, kind_of, span_of, char_span_of, marked_span, HasCharSpan, shifted, shifted_span, MovesWithin};
    ghost use Rattle.litrs_base.specs.CharEnd.{PointsAtCharacters, IsCutBy};
    ghost use Rattle.litrs_base.specs.Finality.{is_final, is_open};

    /// Creates an error of the kind `kind`. `span` is in bytes, and is the character span too: both
    /// spans of `new(Some(3..4), InvalidDigit)` are 3..4.
    pub fn new(span: Option<Range<usize>>, kind: ParseErrorKind) -> ParseError
        ensures refusal { refusal_of result ≡ refusal span kind }
        ensures char_span { char_span_of result ≡ span }
    {
        let char_end = match &span {
            Some(span) => span.end,
            None => 0,
        };
        ParseError {
            span,
            char_end,
            kind,
        }
    }

    /// Creates an error for `text`. `span` is in bytes, its start is at most its end, and its end
    /// may lie inside a character: the character span of `in_text("é", Some(0..1), kind)` is 0..2.
    pub fn in_text(text: &str, span: Option<Range<usize>>, kind: ParseErrorKind) -> ParseError
        requires { IfSome span (λ range. range.start ≤ range.end) }
        ensures refusal { refusal_of result ≡ refusal span kind }
        ensures char_span { HasCharSpan (chars text.now) result }
    {
        let char_end = match &span {
            Some(span) => char_end_of(text, span.end),
            None => 0,
        };
        ParseError {
            span,
            char_end,
            kind,
        }
    }

    /// Returns the part of the text that is invalid, in bytes: for `0b12` that is 3..4.
    ///
    /// The start is a character boundary. The end may lie inside a character: `é` is not an
    /// integer, and the span of the error is 0..1.
    ///
    /// The kind of an error of a parse decides whether there is a span. These kinds have no span,
    /// and all others have one:
    ///
    /// | Kinds without a span | Texts with this error |
    /// |---|---|
    /// | `Empty` | the empty text |
    /// | `InvalidLiteral` | `yes`; `r#a` |
    /// | `UnexpectedIntegerLit` | `27` as a float |
    /// | `InvalidByteLiteralStart` | `27` as a byte |
    /// | `InvalidByteStringLiteralStart`, `InvalidCStringLiteralStart` | `27` as such a string |
    /// | `EmptyCharLiteral`, `EmptyByteLiteral` | `''`, `b''` |
    /// | `OverlongCharLiteral`, `OverlongByteLiteral` | `'ab'`, `b'ab'` |
    /// | `UnterminatedCharLiteral`, `UnterminatedByteLiteral` | `'a`, `b'a` |
    /// | `UnterminatedString`, `UnterminatedRawString` | `"ab`, `r#"ab"` |
    /// | `OutOfMemory` | a literal if the allocation of its value failed |
    pub fn span(&self) -> Option<Range<usize>>
        ensures { result ≡ span_of self.now }
    {
        match &self.span {
            Some(span) => Some(span.start..span.end),
            None => None,
        }
    }

    /// Returns the span in whole characters: its end is the least character boundary at or after
    /// the end of [`span`](ParseError::span). For `é` that is 0..2. An end past the text is kept.
    pub fn char_span(&self) -> Option<Range<usize>>
        ensures { result ≡ char_span_of self.now }
    {
        match &self.span {
            Some(span) => Some(span.start..self.char_end),
            None => None,
        }
    }

    /// Returns the part of `text` to mark, in whole characters: the character span, or all of
    /// `text` if there is none. For `0b12` that is 3..4, and for `"ab`, which is not closed, 0..3.
    ///
    /// If this error is that of a parse of `text`, both ends are character boundaries of `text`, so
    /// the text can be cut there.
    ///
    /// ```
    /// use litrs_base::ParseError;
    ///
    /// /// Returns the part of `text` to underline.
    /// fn marked<'a>(text: &'a str, error: &ParseError) -> Option<&'a str> {
    ///     text.get(error.marked_span(text))
    /// }
    /// ```
    pub fn marked_span(&self, text: &str) -> Range<usize>
        ensures span { result ≡ marked_span (chars text.now) self.now }
        ensures cuts { IfSome (char_span_of self.now) (PointsAtCharacters (chars text.now))
            → IsCutBy text.now result }
    {
        match self.char_span() {
            Some(span) => span,
            None => 0..text.len(),
        }
    }

    /// Returns the kind of this error: for `0b12` that is `InvalidDigit`.
    pub fn kind(&self) -> ParseErrorKind
        ensures { result ≡ kind_of self.now }
    {
        self.kind
    }

    /// Returns `true` if the error is final: no text that starts with the invalid one is a literal
    /// for the same parse. It is for `0b12`, but not for `0x`, because `0x1` is a literal. For some
    /// errors that are not final, such as that of `yes`, no longer text is a literal either.
    pub fn is_final(&self) -> bool
        ensures { result ≡ is_final (kind_of self.now) }
    {
        self.kind().is_final()
    }

    /// Returns `true` if the error is open: it is that of an unterminated string. The closing
    /// quote, with the hashes of a raw string, then makes the text a literal. It is for `"ab` and
    /// `r#"ab"`, but not for `'a`, nor for `"\n`, whose error is that of the escape.
    pub fn is_open(&self) -> bool
        ensures { result ≡ is_open (kind_of self.now) }
    {
        matches!(
            self.kind(),
            ParseErrorKind::UnterminatedString | ParseErrorKind::UnterminatedRawString
        )
    }

    /// Adds `offset` bytes to the start and the end of both spans. The sums must be below 2^64.
    pub fn offset_span(self, offset: usize) -> ParseError
        requires { MovesWithin offset self }
        ensures refusal { refusal_of result ≡ shifted offset (refusal_of self) }
        ensures char_span { char_span_of result ≡ shifted_span offset (char_span_of self) }
    {
        let Self {
            span,
            char_end,
            kind,
        } = self;
        match span {
            Some(span) => ParseError {
                span: Some(span.start + offset..span.end + offset),
                char_end: char_end + offset,
                kind,
            },
            None => ParseError {
                span: None,
                char_end,
                kind,
            },
        }
    }

    /// Clones the error. Does not allocate.
    pub fn clone(&self) -> ParseError
        ensures { result ≡ self.now }
    {
        ParseError {
            span: self.span(),
            char_end: self.char_end,
            kind: self.kind(),
        }
    }
}

/// Returns the least character boundary of `text` at or after `end`, or `end` if it lies past the
/// text.
fn char_end_of(text: &str, end: usize) -> usize
    ensures { IsCharEnd (chars text.now) end result }
{
    if end <= text.len() {
        text.ceil_char_boundary(end)
    } else {
        end
    }
}

impl fmt::Display for ParseError {
    ghost use Rattle.std.specs.Prelude.{Some};
    ghost use Rattle.litrs_base.specs.Refusal.{refusal_of, refusal_text};

    ghost output = { λ error. Some (refusal_text (refusal_of error)) };

    fn fmt<W: fmt::Write>(&self, f: &mut fmt::Formatter<W>) -> fmt::Result {
        self.kind.fmt(f)?;
        if let Some(span) = &self.span {
            let start = span.start;
            let end = span.end;
            write!(f, " (at {start}..{end})")?;
        }
        Ok(())
    }
}

impl Error for ParseError {}

/// The kinds of errors.
#[derive(Clone, Copy, Debug, PartialEq, Eq)]
pub enum ParseErrorKind {
    /// The text is empty.
    Empty,
    /// A character is not allowed at its place.
    UnexpectedChar,
    /// The text is not a literal of the expected kind, or of any kind.
    InvalidLiteral,
    /// A number does not start with a decimal digit.
    DoesNotStartWithDigit,
    /// An integer has a decimal digit that is not a digit of its base.
    InvalidDigit,
    /// The main part of an integer has no digit.
    NoDigits,
    /// The exponent of a float has no digit.
    NoExponentDigits,
    /// A backslash is followed by a character that does not start an escape.
    UnknownEscape,
    /// The text, in a quoted string without its last character, ends inside an escape or after a
    /// backslash, or the two bytes after `\x` end inside a character.
    UnterminatedEscape,
    /// `\x` is not followed by two hex digits.
    InvalidXEscape,
    /// A `\x` escape has a value above 7F, but only ASCII is allowed.
    NonAsciiXEscape,
    /// A byte or a byte string has a `\u` escape.
    UnicodeEscapeInByteLiteral,
    /// The braces of `\u{..}` are empty, or begin with `_`.
    InvalidStartOfUnicodeEscape,
    /// `\u` is not followed by `{`, or in a quoted string only by one that ends the text.
    UnicodeEscapeWithoutBrace,
    /// A character inside `\u{..}` is neither a hex digit nor `_`.
    NonHexDigitInUnicodeEscape,
    /// A `\u{..}` escape has more than six hex digits.
    TooManyDigitInUnicodeEscape,
    /// The value of a `\u{..}` escape is not a Unicode scalar value.
    InvalidUnicodeEscapeChar,
    /// A `\u{` has no closing brace, or in a quoted string only one that ends the text.
    UnterminatedUnicodeEscape,
    /// A char has no closing quote.
    UnterminatedCharLiteral,
    /// A char has more than one character.
    OverlongCharLiteral,
    /// A char is empty.
    EmptyCharLiteral,
    /// A byte has no closing quote.
    UnterminatedByteLiteral,
    /// A byte has more than one character.
    OverlongByteLiteral,
    /// A byte is empty.
    EmptyByteLiteral,
    /// A byte or a byte string has a character that is not ASCII.
    NonAsciiInByteLiteral,
    /// A char or a byte has a single quote that is not escaped.
    UnescapedSingleQuote,
    /// A char or a byte has LF, tab or CR that is not escaped.
    UnescapedSpecialWhitespace,
    /// A char does not start with a single quote.
    DoesNotStartWithQuote,
    /// A raw string has no closing quote with as many hashes.
    UnterminatedRawString,
    /// A quoted string has no closing quote.
    UnterminatedString,
    /// A string does not start with `"` or `r`.
    InvalidStringLiteralStart,
    /// A byte does not start with `b'`.
    InvalidByteLiteralStart,
    /// A byte string does not start with `b"` or `br`.
    InvalidByteStringLiteralStart,
    /// A C string does not start with `c"` or `cr`.
    InvalidCStringLiteralStart,
    /// A C string has an escape with the value 0.
    DisallowedNulEscape,
    /// A C string has a NUL.
    NulByte,
    /// A string has a CR.
    CarriageReturn,
    /// A raw string has more than 255 hashes.
    TooManyHashes,
    /// The text after a literal is not a suffix.
    InvalidSuffix,
    /// A float was expected, and the text has neither a period nor an exponent.
    UnexpectedIntegerLit,
    /// The suffix of an integer starts with `e` or `E`.
    IntegerSuffixStartingWithE,
    /// An allocation failed. The text is a literal.
    OutOfMemory,
}

impl ParseErrorKind {
    ghost use Rattle.litrs_base.specs.Finality.{is_final};

    /// Returns `true` if errors of this kind are final.
    fn is_final(self) -> bool
        ensures { result ≡ is_final self }
    {
        match self {
            Self::UnexpectedChar
            | Self::DoesNotStartWithDigit
            | Self::InvalidDigit
            | Self::UnknownEscape
            | Self::InvalidXEscape
            | Self::NonAsciiXEscape
            | Self::UnicodeEscapeInByteLiteral
            | Self::InvalidStartOfUnicodeEscape
            | Self::NonHexDigitInUnicodeEscape
            | Self::TooManyDigitInUnicodeEscape
            | Self::InvalidUnicodeEscapeChar
            | Self::OverlongCharLiteral
            | Self::EmptyCharLiteral
            | Self::OverlongByteLiteral
            | Self::EmptyByteLiteral
            | Self::NonAsciiInByteLiteral
            | Self::UnescapedSingleQuote
            | Self::UnescapedSpecialWhitespace
            | Self::DoesNotStartWithQuote
            | Self::InvalidStringLiteralStart
            | Self::DisallowedNulEscape
            | Self::NulByte
            | Self::CarriageReturn
            | Self::TooManyHashes
            | Self::IntegerSuffixStartingWithE => true,
            _ => false,
        }
    }

    /// Returns the description that `Display` writes: for `UnterminatedString` that is
    /// `unterminated (byte) string literal`.
    pub fn description(self) -> &'static str
        ensures { result.now ≡ kind_text self }
    {
        match self {
            Self::Empty => "input is empty",
            Self::UnexpectedChar => "unexpected character",
            Self::InvalidLiteral => "invalid literal",
            Self::DoesNotStartWithDigit => "number literal does not start with decimal digit",
            Self::InvalidDigit => "integer literal contains a digit invalid for its base",
            Self::NoDigits => "integer literal does not contain any digits",
            Self::NoExponentDigits =>
                "exponent of floating point literal does not contain any digits",
            Self::UnknownEscape => "unknown escape",
            Self::UnterminatedEscape => "unterminated escape: input ended too soon",
            Self::InvalidXEscape => "invalid `\\x` escape: not followed by two hex digits",
            Self::NonAsciiXEscape => "`\\x` escape in char/string literal exceed ASCII range",
            Self::UnicodeEscapeInByteLiteral =>
                "`\\u{...}` escape in byte (string) literal not allowed",
            Self::InvalidStartOfUnicodeEscape => "invalid start of `\\u{...}` escape",
            Self::UnicodeEscapeWithoutBrace => "`Unicode \\u{...}` escape without opening brace",
            Self::NonHexDigitInUnicodeEscape => "non-hex digit found in `\\u{...}` escape",
            Self::TooManyDigitInUnicodeEscape => "more than six digits in `\\u{...}` escape",
            Self::InvalidUnicodeEscapeChar =>
                "value specified in `\\u{...}` escape is not a valid char",
            Self::UnterminatedUnicodeEscape => "unterminated `\\u{...}` escape",
            Self::UnterminatedCharLiteral => "character literal is not terminated",
            Self::OverlongCharLiteral => "character literal contains more than one character",
            Self::EmptyCharLiteral => "empty character literal",
            Self::UnterminatedByteLiteral => "byte literal is not terminated",
            Self::OverlongByteLiteral => "byte literal contains more than one byte",
            Self::EmptyByteLiteral => "empty byte literal",
            Self::NonAsciiInByteLiteral => "non ASCII character in byte (string) literal",
            Self::UnescapedSingleQuote => "character literal contains unescaped ' character",
            Self::UnescapedSpecialWhitespace =>
                "unescaped newline (\\n), tab (\\t) or cr (\\r) character",
            Self::DoesNotStartWithQuote => "invalid start for char/byte/string literal",
            Self::UnterminatedRawString => "unterminated raw (byte) string literal",
            Self::UnterminatedString => "unterminated (byte) string literal",
            Self::InvalidStringLiteralStart => "invalid start for string literal",
            Self::InvalidByteLiteralStart => "invalid start for byte literal",
            Self::InvalidByteStringLiteralStart => "invalid start for byte string literal",
            Self::InvalidCStringLiteralStart => "invalid start for C string literal",
            Self::DisallowedNulEscape => "`\\0` escape not allowed inside C string literal",
            Self::NulByte => "nul byte not allowed inside C string literal",
            Self::CarriageReturn => "`\\r` not allowed in string literals",
            Self::TooManyHashes => "raw string literal has too many # symbols (max 255)",
            Self::InvalidSuffix => "literal suffix is not a valid identifier",
            Self::UnexpectedIntegerLit => "expected float literal, but found integer",
            Self::IntegerSuffixStartingWithE =>
                "integer literal suffix must not start with 'e' or 'E'",
            Self::OutOfMemory => "out of memory",
        }
    }
}

impl fmt::Display for ParseErrorKind {
    ghost use Rattle.std.specs.Prelude.{Some};

    ghost output = { λ kind. Some (kind_text kind) };

    fn fmt<W: fmt::Write>(&self, f: &mut fmt::Formatter<W>) -> fmt::Result {
        f.pad(self.description())
    }
}
