//! The errors of conversions.
ghost use Rattle.std.specs.Prelude.{◌≡◌, IfOk};
ghost use Rattle.litrs_token.specs.CompileError.{IsMessageGroup, IsCompileError};
ghost use Rattle.litrs_token.specs.Description.{description};
ghost use Rattle.litrs_token.specs.Errors.{mismatch, invalid_span};

use crate::ident::Ident;
use crate::kind::TokenKind;
use crate::literal::Literal;
use crate::punct::{Punct, Spacing};
use crate::span::Span;
use crate::tree::{Delimiter, Group, TokenTree};
use std::alloc::{AllocError, Global};
use std::error::Error;
use std::fmt;

/// An error: a token has another kind than the expected one.
#[derive(Clone, Copy, Debug, PartialEq, Eq)]
pub struct InvalidToken {
    expected: TokenKind,
    actual: TokenKind,
    span: Span,
}

impl InvalidToken {
    /// Creates the error of a token of the kind `actual`, for example `mask`, if `expected` was
    /// expected, for example an integer.
    pub(crate) fn new(expected: TokenKind, actual: TokenKind, span: Span) -> InvalidToken
        ensures { result ≡ mismatch expected actual span }
    {
        InvalidToken {
            expected,
            actual,
            span,
        }
    }

    /// Returns the span of the token, at which a compile error points.
    pub fn span(&self) -> Span
        ensures { result ≡ invalid_span self.now }
    {
        self.span
    }

    /// Returns the trees of `compile_error! { "message" }`. The message is this error as
    /// `Display` writes it.
    ///
    /// They can be used as an item, a statement or an expression. The identifier, the `!` and the
    /// group have the span of the token, and the string inside has the call-site span.
    ///
    /// ```
    /// use litrs::IntegerLit;
    /// use litrs_token::{FromToken, Punct, Spacing, TokenError, TokenTree};
    ///
    /// let tree = TokenTree::from(Punct::new('+', Spacing::Alone));
    /// let Err(TokenError::Invalid(invalid)) = IntegerLit::from_tree(rt.alloc(), tree) else {
    ///     unreachable!();
    /// };
    /// // compile_error! {
    /// //     "expected an integer literal (e.g. `27`), but found a punctuation character"
    /// // }
    /// assert_eq!(rt; invalid.to_compile_error(rt.alloc())?.len(), 3);
    /// ```
    ///
    /// # Errors
    ///
    /// Returns `AllocError` if the allocation of the trees fails.
    pub fn to_compile_error(&self, alloc: Global) -> Result<Vec<TokenTree>, AllocError>
        ensures { IfOk result (λ trees. IsCompileError self.now trees.items) }
    {
        let name = Ident::copied(alloc, "compile_error", self.span)?;
        let mut mark = Punct::new('!', Spacing::Alone);
        mark.set_span(self.span);
        let group = self.message_group(alloc)?;
        let mut trees = Vec::new(alloc);
        trees.push(TokenTree::Ident(name))?;
        trees.push(TokenTree::Punct(mark))?;
        trees.push(TokenTree::Group(group))?;
        Ok(trees)
    }

    /// Returns the message between braces.
    fn message_group(&self, alloc: Global) -> Result<Group, AllocError>
        ensures { IfOk result (IsMessageGroup self.now) }
    {
        let message = self.to_string(alloc)?;
        let mut stream = Vec::new(alloc);
        stream.push(TokenTree::Literal(Literal::string(alloc, message.as_str())?))?;
        let mut group = Group::new(Delimiter::Brace, stream);
        group.set_span(self.span);
        Ok(group)
    }
}

impl fmt::Display for InvalidToken {
    ghost use Rattle.std.specs.Prelude.{Some};
    ghost use Rattle.litrs_token.specs.Errors.{invalid_text};

    ghost output = { λ e. Some (invalid_text e) };

    fn fmt<W: fmt::Write>(&self, f: &mut fmt::Formatter<W>) -> fmt::Result {
        let expected = description(self.expected);
        let actual = description(self.actual);
        write!(f, "expected {expected}, but found {actual}")
    }
}

impl Error for InvalidToken {}

/// An error of a conversion of a token to a literal.
#[derive(Clone, Copy, Debug, PartialEq, Eq)]
pub enum TokenError {
    /// The token has another kind than the expected one.
    Invalid(InvalidToken),
    /// An allocation failed.
    Memory,
}

impl fmt::Display for TokenError {
    ghost use Rattle.std.specs.Prelude.{Some};
    ghost use Rattle.litrs_token.specs.Errors.{token_error_text};

    ghost output = { λ e. Some (token_error_text e) };

    fn fmt<W: fmt::Write>(&self, f: &mut fmt::Formatter<W>) -> fmt::Result {
        match self {
            TokenError::Invalid(invalid) => invalid.fmt(f),
            TokenError::Memory => f.write_str("out of memory"),
        }
    }
}

impl Error for TokenError {}

impl From<AllocError> for TokenError {
    ghost use Rattle.std.specs.Prelude.{◌≡◌};
    ghost use Rattle.litrs_token.specs.declared.err.TokenError.TheVariants.{Memory};

    ghost from_gives = { λ _ error. error ≡ Memory };

    fn from(_: AllocError) -> Self {
        TokenError::Memory
    }
}

impl From<InvalidToken> for TokenError {
    ghost use Rattle.std.specs.Prelude.{◌≡◌};
    ghost use Rattle.litrs_token.specs.declared.err.TokenError.TheVariants.{Invalid};

    ghost from_gives = { λ invalid error. error ≡ Invalid invalid };

    fn from(invalid: InvalidToken) -> Self {
        TokenError::Invalid(invalid)
    }
}

/// Returns the name of `kind` in messages, for example `an identifier`.
fn description(kind: TokenKind) -> &'static str
    ensures { result.now ≡ description kind }
{
    match kind {
        TokenKind::Punct => "a punctuation character",
        TokenKind::Ident => "an identifier",
        TokenKind::Group => "a group",
        TokenKind::Literal => "a literal",
        TokenKind::BoolLit => "a bool literal (`true` or `false`)",
        TokenKind::ByteLit => "a byte literal (e.g. `b'r'`)",
        TokenKind::ByteStringLit => "a byte string literal (e.g. `b\"fox\"`)",
        TokenKind::CharLit => "a character literal (e.g. `'P'`)",
        TokenKind::FloatLit => "a float literal (e.g. `3.14`)",
        TokenKind::IntegerLit => "an integer literal (e.g. `27`)",
        TokenKind::StringLit => "a string literal (e.g. \"Ferris\")",
        TokenKind::CStringLit => "a C string literal (e.g. c\"Ferris\")",
    }
}
