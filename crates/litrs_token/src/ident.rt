//! Identifiers.
ghost use Rattle.std.specs.Prelude.{◌≡◌, ◌↔◌, IfOk, IsErrOf, IsTrue, IsFalse, Ok};
ghost use Rattle.std.specs.Str.{chars};
ghost use Rattle.litrs_token.specs.Tokens.{is_ident};

use crate::span::Span;
use litrs_lex::check_suffix;
use std::alloc::{AllocError, Global};
use std::error::Error;
use std::fmt;
use std::marker::Model;

/// An identifier, for example `x`. `_`, `true` and `false` are identifiers too.
///
/// A raw identifier, for example `r#match`, is not. See [the reference][ref].
///
/// [ref]: https://doc.rust-lang.org/reference/identifiers.html
#[derive(Debug, Drop)]
pub struct Ident {
    text: String,
    span: Span,
}

impl Model for Ident {
    ghost use Rattle.std.specs.Prelude.{string_bytes, IsTrue};
    ghost use Rattle.std.specs.Str.{chars};
    ghost use Rattle.litrs_token.specs.Tokens.{IdentToken, is_ident};

    ghost Value = { IdentToken };

    ghost view = { λ i. record { text = string_bytes i.text; span = i.span } };

    ghost invariant = { λ i. IsTrue (is_ident (chars (string_bytes i.text))) };
}

/// An error of [`Ident::new`].
#[derive(Clone, Copy, Debug, PartialEq, Eq)]
pub enum IdentError {
    /// The text is not an identifier.
    NotAnIdent,
    /// An allocation failed.
    Memory,
}

impl Ident {
    /// Creates an identifier from `text`.
    ///
    /// An identifier is `_` or an XID_Start character, followed by XID_Continue characters.
    ///
    /// ```
    /// use litrs_token::{Ident, IdentError, Span};
    ///
    /// let name = Ident::new(rt.alloc(), "mask", Span::new(0, 4))?;
    /// assert_eq!(rt; name.text(), "mask");
    /// let raw = Ident::new(rt.alloc(), "r#a", Span::new(0, 3));
    /// assert!(rt; matches!(raw, Err(IdentError::NotAnIdent)));
    /// ```
    ///
    /// # Errors
    ///
    /// Returns `NotAnIdent` if `text` is not an identifier, for example `r#a` or the empty text.
    /// Nothing is allocated then. Otherwise, returns `Memory` if the allocation fails.
    pub fn new(alloc: Global, text: &str, span: Span) -> Result<Ident, IdentError>
        ensures text { IfOk result (λ ident. ident.text ≡ text.now) }
        ensures span { IfOk result (λ ident. ident.span ≡ span) }
        ensures not_an_ident { IsErrOf result IdentError.NotAnIdent
            ↔ IsFalse (is_ident (chars text.now)) }
    {
        if !is_ident(text) {
            return Err(IdentError::NotAnIdent);
        }
        Ok(Ident::copied(alloc, text, span)?)
    }

    /// Creates an identifier from `text`, which is one, for example `mask`.
    ///
    /// # Errors
    ///
    /// Returns `AllocError` if the allocation fails.
    pub fn copied(alloc: Global, text: &str, span: Span) -> Result<Ident, AllocError>
        requires { IsTrue (is_ident (chars text.now)) }
        ensures text { IfOk result (λ ident. ident.text ≡ text.now) }
        ensures span { IfOk result (λ ident. ident.span ≡ span) }
    {
        let text = String::from_str(alloc, text)?;
        Ok(Ident { text, span })
    }

    /// Returns the text of this identifier, for example `mask`.
    pub fn text(&self) -> &str
        ensures text { result.now ≡ self.now.text }
        ensures ident { IsTrue (is_ident (chars result.now)) }
    {
        self.text.as_str()
    }

    /// Returns the span of this identifier: for `mask` at the start of a source that is 0..4.
    pub fn span(&self) -> Span
        ensures { result ≡ self.now.span }
    {
        self.span
    }

    /// Sets the span of this identifier.
    ///
    /// ```
    /// use litrs_token::{Ident, Span};
    ///
    /// let mut name = Ident::new(rt.alloc(), "mask", Span::new(0, 4))?;
    /// name.set_span(Span::new(7, 11));
    /// assert_eq!(rt; name.span(), Span::new(7, 11));
    /// ```
    pub fn set_span(&mut self, span: Span)
        ensures span { self.new.span ≡ span }
        ensures text { self.new.text ≡ self.old.text }
    {
        self.span = span;
    }
}

fn is_ident(text: &str) -> bool
    ensures { result ≡ is_ident (chars text.now) }
{
    match text {
        "_" => true,
        "" => false,
        _ => check_suffix(text).is_ok(),
    }
}

impl fmt::Display for IdentError {
    ghost use Rattle.std.specs.Prelude.{Some};
    ghost use Rattle.litrs_token.specs.Errors.{ident_error_text};

    ghost output = { λ e. Some (ident_error_text e) };

    fn fmt<W: fmt::Write>(&self, f: &mut fmt::Formatter<W>) -> fmt::Result {
        f.write_str(match self {
            IdentError::NotAnIdent => "not an identifier",
            IdentError::Memory => "out of memory",
        })
    }
}

impl Error for IdentError {}

impl From<AllocError> for IdentError {
    ghost use Rattle.std.specs.Prelude.{◌≡◌};
    ghost use Rattle.litrs_token.specs.declared.ident.IdentError.TheVariants.{Memory};

    ghost from_gives = { λ _ error. error ≡ Memory };

    fn from(_: AllocError) -> Self {
        IdentError::Memory
    }
}
