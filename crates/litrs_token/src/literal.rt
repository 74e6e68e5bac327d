//! Tokens that are literals.
ghost use Rattle.std.specs.Prelude.{◌≡◌, ◌↔◌, IfOk, OnOk, IsErrOf, string_bytes, ◌++◌};
ghost use Rattle.std.specs.Str.{chars, encode_utf8_all};
ghost use Rattle.litrs_token.specs.LiteralToken.{IsLiteralToken, IsNoLiteralToken};
ghost use Rattle.litrs_token.specs.Place.{call_site};
ghost use Rattle.litrs_token.specs.StringToken.{escaped, string_token, IsStringOf};

use crate::kind::{TokenKind, literal_kind};
use crate::span::Span;
use std::alloc::{AllocError, Global};
use std::error::Error;
use std::fmt;
use std::marker::Model;

/// A literal that is not a bool, for example `27` or `"a"`. It has no sign.
#[derive(Debug, Drop)]
pub struct Literal {
    text: String,
    kind: TokenKind,
    span: Span,
}

impl Model for Literal {
    ghost use Rattle.std.specs.Prelude.{string_bytes};
    ghost use Rattle.std.specs.Str.{chars};
    ghost use Rattle.litrs_token.specs.LiteralToken.{LiteralToken, IsLiteralToken};

    ghost Value = { LiteralToken };

    ghost view = { λ l. record { text = string_bytes l.text; kind = l.kind; span = l.span } };

    ghost invariant = { λ l. IsLiteralToken (chars (string_bytes l.text)) l.kind };
}

/// An error of [`Literal::from_text`].
#[derive(Clone, Copy, Debug, PartialEq, Eq)]
pub enum LiteralError {
    /// The text is not a literal, or it is a bool.
    NotALiteral,
    /// An allocation failed.
    Memory,
}

impl Literal {
    /// Creates a literal from `text`, with the call-site span.
    ///
    /// ```
    /// use litrs_token::{Literal, LiteralError};
    ///
    /// let literal = Literal::from_text(rt.alloc(), "27u8")?;
    /// assert_eq!(rt; literal.text(), "27u8");
    /// let negative = Literal::from_text(rt.alloc(), "-1");
    /// assert!(rt; matches!(negative, Err(LiteralError::NotALiteral)));
    /// ```
    ///
    /// # Errors
    ///
    /// Returns `NotALiteral` if `text` is a bool or not a literal, for example `-1`. Nothing is
    /// allocated then. Otherwise, returns `Memory` if the allocation of the text fails.
    pub fn from_text(alloc: Global, text: &str) -> Result<Literal, LiteralError>
        ensures text { IfOk result (λ literal. literal.text ≡ text.now) }
        ensures kind { IfOk result (λ literal. IsLiteralToken (chars text.now) literal.kind) }
        ensures span { IfOk result (λ literal. literal.span ≡ call_site) }
        ensures not_a_literal { IsErrOf result LiteralError.NotALiteral
            ↔ IsNoLiteralToken (chars text.now) }
    {
        match literal_kind(text) {
            Some(kind) => Ok(Literal::copied(alloc, text, kind)?),
            None => Err(LiteralError::NotALiteral),
        }
    }

    /// Creates a quoted string with the value `value`, with the call-site span.
    ///
    /// `"`, backslash, LF, CR, tab and NUL are written as `\"`, `\\`, `\n`, `\r`, `\t` and `\0`,
    /// and every other character as it is. The string has no suffix. See [the reference][ref].
    ///
    /// ```
    /// use litrs_token::Literal;
    ///
    /// let literal = Literal::string(rt.alloc(), "a\n\"b\"")?;
    /// assert_eq!(rt; literal.text(), r#""a\n\"b\"""#);
    /// ```
    ///
    /// # Errors
    ///
    /// Returns `AllocError` if the allocation of the text fails.
    ///
    /// [ref]: https://doc.rust-lang.org/reference/tokens.html#string-literals
    pub fn string(alloc: Global, value: &str) -> Result<Literal, AllocError>
        ensures text { IfOk result (λ literal.
            chars literal.text ≡ string_token (chars value.now)) }
        ensures value { IfOk result (λ literal. IsStringOf (chars literal.text) value.now) }
        ensures kind { IfOk result (λ literal. literal.kind ≡ TokenKind.StringLit) }
        ensures span { IfOk result (λ literal. literal.span ≡ call_site) }
    {
        let text = quoted(alloc, value)?;
        Ok(Literal {
            text,
            kind: TokenKind::StringLit,
            span: Span::call_site(),
        })
    }

    /// Creates a literal from `text`, a literal of the kind `kind`, with the call-site span.
    ///
    /// ```
    /// use litrs_token::Literal;
    ///
    /// let literal = Literal::from_text(rt.alloc(), "27u8")?;
    /// let copy = Literal::copied(rt.alloc(), literal.text(), literal.kind())?;
    /// assert_eq!(rt; copy.text(), "27u8");
    /// ```
    ///
    /// # Errors
    ///
    /// Returns `AllocError` if the allocation of the text fails.
    pub fn copied(alloc: Global, text: &str, kind: TokenKind) -> Result<Literal, AllocError>
        requires { IsLiteralToken (chars text.now) kind }
        ensures text { IfOk result (λ literal. literal.text ≡ text.now) }
        ensures kind { IfOk result (λ literal. literal.kind ≡ kind) }
        ensures span { IfOk result (λ literal. literal.span ≡ call_site) }
    {
        let text = String::from_str(alloc, text)?;
        Ok(Literal {
            text,
            kind,
            span: Span::call_site(),
        })
    }

    /// Returns the text of this literal, for example `27u8`.
    pub fn text(&self) -> &str
        ensures text { result.now ≡ self.now.text }
        ensures literal { IsLiteralToken (chars result.now) self.now.kind }
    {
        self.text.as_str()
    }

    /// Returns the span of this literal. It is the call-site span until
    /// [`set_span`](Literal::set_span) is called.
    pub fn span(&self) -> Span
        ensures { result ≡ self.now.span }
    {
        self.span
    }

    /// Sets the span of this literal.
    ///
    /// ```
    /// use litrs_token::{Literal, Span};
    ///
    /// let mut literal = Literal::from_text(rt.alloc(), "27u8")?;
    /// literal.set_span(Span::new(4, 8));
    /// assert_eq!(rt; literal.span(), Span::new(4, 8));
    /// ```
    pub fn set_span(&mut self, span: Span)
        ensures span { self.new.span ≡ span }
        ensures text { self.new.text ≡ self.old.text }
        ensures kind { self.new.kind ≡ self.old.kind }
    {
        self.span = span;
    }

    /// Returns the kind of this literal: `IntegerLit` for `27`. It is one of the seven kinds of
    /// literals that are tokens.
    ///
    /// ```
    /// use litrs_token::{Literal, TokenKind};
    ///
    /// let literal = Literal::from_text(rt.alloc(), "27u8")?;
    /// assert_eq!(rt; literal.kind(), TokenKind::IntegerLit);
    /// ```
    pub fn kind(&self) -> TokenKind
        ensures kind { result ≡ self.now.kind }
        ensures literal { IsLiteralToken (chars self.now.text) result }
    {
        self.kind
    }

    /// Returns the text of this literal without copying it.
    pub fn into_text(self) -> String
        ensures text { string_bytes result ≡ self.text }
        ensures literal { IsLiteralToken (chars (string_bytes result)) self.kind }
    {
        let Literal {
            text,
            kind: _,
            span: _,
        } = self;
        text
    }
}

/// Returns `value` between quotes, with escapes.
fn quoted(alloc: Global, value: &str) -> Result<String, AllocError>
    ensures { IfOk result (λ text. string_bytes text
        ≡ encode_utf8_all (string_token (chars value.now))) }
{
    let mut text = String::new(alloc);
    text.push('"')?;
    for c in value.chars() {
        push_escaped(&mut text, c)?;
    }
    text.push('"')?;
    Ok(text)
}

/// Appends `c`, as an escape if it is one of those that [`Literal::string`] writes as escapes.
fn push_escaped(text: &mut String, c: char) -> Result<(), AllocError>
    ensures { OnOk result (string_bytes text.new
        ≡ string_bytes text.old ++ encode_utf8_all (escaped c)) }
{
    match c {
        '"' => text.push_str("\\\""),
        '\\' => text.push_str("\\\\"),
        '\n' => text.push_str("\\n"),
        '\r' => text.push_str("\\r"),
        '\t' => text.push_str("\\t"),
        '\0' => text.push_str("\\0"),
        _ => text.push(c),
    }
}

impl fmt::Display for LiteralError {
    ghost use Rattle.std.specs.Prelude.{Some};
    ghost use Rattle.litrs_token.specs.Errors.{literal_error_text};

    ghost output = { λ e. Some (literal_error_text e) };

    fn fmt<W: fmt::Write>(&self, f: &mut fmt::Formatter<W>) -> fmt::Result {
        f.write_str(match self {
            LiteralError::NotALiteral => "not a literal",
            LiteralError::Memory => "out of memory",
        })
    }
}

impl Error for LiteralError {}

impl From<AllocError> for LiteralError {
    ghost use Rattle.std.specs.Prelude.{◌≡◌};
    ghost use Rattle.litrs_token.specs.declared.literal.LiteralError.TheVariants.{Memory};

    ghost from_gives = { λ _ error. error ≡ Memory };

    fn from(_: AllocError) -> Self {
        LiteralError::Memory
    }
}
