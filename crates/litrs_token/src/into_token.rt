//! Conversions of literals to tokens.
ghost use Rattle.std.specs.Prelude.{◌≡◌, ℕ, List, IfOk};
ghost use Rattle.litrs_token.specs.Place.{call_site};
ghost use Rattle.litrs_token.specs.declared.kind.TokenKind.{TokenKind};

use crate::ident::Ident;
use crate::literal::Literal;
use crate::one_kind::OneKind;
use crate::span::Span;
use litrs::BoolLit;
use std::alloc::{AllocError, Global};

/// A literal that can be converted to a token.
pub trait IntoToken: Drop {
    /// The bytes of the text.
    ghost raw: { Self → List ℕ };

    /// The kind.
    ghost kind: { TokenKind };

    /// Converts this literal to a token with the same text and the call-site span.
    ///
    /// ```
    /// use litrs::IntegerLit;
    /// use litrs_token::IntoToken;
    ///
    /// let token = IntegerLit::parse("27u8")?.into_token(rt.alloc())?;
    /// assert_eq!(rt; token.text(), "27u8");
    /// ```
    ///
    /// # Errors
    ///
    /// Returns `AllocError` if the allocation of the text fails. The literal is then dropped.
    fn into_token(self, alloc: Global) -> Result<Literal, AllocError>
        ensures text { IfOk result (λ token. token.text ≡ raw self) }
        ensures kind { IfOk result (λ token. token.kind ≡ kind) }
        ensures span { IfOk result (λ token. token.span ≡ call_site) };
}

impl<T: OneKind> IntoToken for T {
    ghost raw = { T.OneKind.raw };

    ghost kind = { T.OneKind.kind };

    fn into_token(self, alloc: Global) -> Result<Literal, AllocError> {
        Literal::copied(alloc, self.text(), T::kind())
    }
}

/// A literal that can be converted to an identifier.
pub trait IntoIdent: Drop {
    /// The bytes of the text.
    ghost raw: { Self → List ℕ };

    /// Converts this literal to an identifier with the call-site span.
    ///
    /// ```
    /// use litrs::BoolLit;
    /// use litrs_token::IntoIdent;
    ///
    /// let name = BoolLit::True.into_ident(rt.alloc())?;
    /// assert_eq!(rt; name.text(), "true");
    /// ```
    ///
    /// # Errors
    ///
    /// Returns `AllocError` if the allocation of the text fails.
    fn into_ident(self, alloc: Global) -> Result<Ident, AllocError>
        ensures text { IfOk result (λ ident. ident.text ≡ raw self) }
        ensures span { IfOk result (λ ident. ident.span ≡ call_site) };
}

impl IntoIdent for BoolLit {
    ghost use Rattle.litrs_grammar.specs.Bool.{bool_text};
    ghost use Rattle.litrs.specs.BoolLiteral.{bool_value};

    ghost raw = { λ lit. bool_text (bool_value lit) };

    fn into_ident(self, alloc: Global) -> Result<Ident, AllocError> {
        Ident::copied(alloc, self.as_str(), Span::call_site())
    }
}
