//! Conversions of tokens to literals.
ghost use Rattle.std.specs.Prelude.{◌≡◌, ℕ, List, Ok, IsOk, IsErr, IsTrue, IfOk, IfErr, IsErrOf, OnOk, string_bytes};
ghost use Rattle.std.specs.Result.{IsErrAnd};
ghost use Rattle.std.specs.Str.{chars};
ghost use Rattle.litrs_base.specs.Refusal.{kind_of};
ghost use Rattle.litrs_grammar.specs.Refused.{MayLackMemory};
ghost use Rattle.litrs.specs.LiteralDerivation.{literal_raw};
ghost use Rattle.litrs_token.specs.Conversion.{IsWantedKind, IsWanted};
ghost use Rattle.litrs_token.specs.BoolTree.{is_bool_ident, text_of};
ghost use Rattle.litrs_token.specs.LiteralToken.{IsLiteralToken, SomeLiteral};
ghost use Rattle.litrs_token.specs.Mismatch.{literal_mismatch, tree_mismatch};
ghost use Rattle.litrs_token.specs.Tree.{shape_of};
ghost use Rattle.litrs_token.specs.declared.err.TokenError.{TokenError};
ghost use Rattle.litrs_token.specs.declared.kind.TokenKind.{TokenKind};

use crate::bool::bool_of;
use crate::err::TokenError;
use crate::expected::{as_literal, check_kind, into_literal};
use crate::kind::TokenKind;
use crate::literal::Literal;
use crate::one_kind::OwnedKind;
use crate::tree::TokenTree;
use litrs::{ParseError, ParseErrorKind};
use std::alloc::{AllocError, Global};

/// A literal that a token can be converted to.
///
/// [`IntegerLit`](litrs::IntegerLit), [`FloatLit`](litrs::FloatLit), [`CharLit`](litrs::CharLit),
/// [`StringLit`](litrs::StringLit), [`ByteLit`](litrs::ByteLit),
/// [`ByteStringLit`](litrs::ByteStringLit) and [`CStringLit`](litrs::CStringLit) expect a literal
/// of their kind. [`litrs::Literal`] expects a literal of any kind, or a tree that is the
/// identifier `true` or `false`. All keep the text of the token.
///
/// The kind of the token is checked before anything is allocated. The text of a token is always
/// a valid literal. The calls that own their token or tree move its text, so they allocate only the
/// value of the literal.
pub trait FromToken: Drop {
    /// The expected kind.
    ghost wanted: { TokenKind };

    /// The bytes of the text of a literal.
    ghost raw: { Self → List ℕ };

    /// An error of the calls on literals, as an error of the calls on trees.
    ghost as_token_error: { Self.Error → TokenError };

    /// The error of the calls on literals: [`TokenError`], or `AllocError` if a literal of any
    /// kind is expected.
    type Error;

    /// Converts a token to a literal, for example `27` to an integer.
    ///
    /// ```
    /// use litrs::IntegerLit;
    /// use litrs_token::{FromToken, Literal};
    ///
    /// let token = Literal::from_text(rt.alloc(), "0xFF_u8")?;
    /// let lit = IntegerLit::from_literal(rt.alloc(), token)?;
    /// assert_eq!(rt; lit.value::<u8>(), Some(255));
    /// ```
    ///
    /// # Errors
    ///
    /// Returns an error with both kinds and the span if the token has another kind; otherwise an
    /// error if an allocation fails. The token is then dropped.
    fn from_literal(alloc: Global, literal: Literal) -> Result<Self, Self::Error>
        ensures raw { IfOk result (λ lit. raw lit ≡ literal.text) }
        ensures wanted { OnOk result (IsWantedKind wanted literal.kind) }
        ensures memory { IsWantedKind wanted literal.kind
            → IfErr result (λ e. as_token_error e ≡ TokenError.Memory) }
        ensures lack { IsWantedKind wanted literal.kind → IsErr result
            → MayLackMemory (chars literal.text) }
        ensures invalid { ¬ IsWantedKind wanted literal.kind
            → IsErrAnd result (λ e. as_token_error e
            ≡ TokenError.Invalid (literal_mismatch wanted literal)) };

    /// Like [`from_literal`](FromToken::from_literal), but borrows the token.
    ///
    /// ```
    /// use litrs::{CharLit, IntegerLit};
    /// use litrs_token::{FromToken, Literal};
    ///
    /// let token = Literal::from_text(rt.alloc(), "0xFF_u8")?;
    /// assert!(rt; CharLit::from_literal_ref(rt.alloc(), &token).is_err());
    /// assert!(rt; IntegerLit::from_literal_ref(rt.alloc(), &token).is_ok());
    /// ```
    ///
    /// # Errors
    ///
    /// Returns the errors of [`from_literal`](FromToken::from_literal).
    fn from_literal_ref(alloc: Global, literal: &Literal) -> Result<Self, Self::Error>
        ensures raw { IfOk result (λ lit. raw lit ≡ literal.now.text) }
        ensures wanted { OnOk result (IsWantedKind wanted literal.now.kind) }
        ensures memory { IsWantedKind wanted literal.now.kind
            → IfErr result (λ e. as_token_error e ≡ TokenError.Memory) }
        ensures invalid { ¬ IsWantedKind wanted literal.now.kind
            → IsErrAnd result (λ e. as_token_error e
            ≡ TokenError.Invalid (literal_mismatch wanted literal.now)) };

    /// Converts a tree to a literal.
    ///
    /// ```
    /// use litrs::{BoolLit, Literal};
    /// use litrs_token::{FromToken, Ident, Span, TokenTree};
    ///
    /// let name = Ident::new(rt.alloc(), "true", Span::call_site())?;
    /// let lit = Literal::from_tree(rt.alloc(), TokenTree::from(name))?;
    /// assert!(rt; matches!(&lit, Literal::Bool(BoolLit::True)));
    /// ```
    ///
    /// # Errors
    ///
    /// Returns `Invalid` if the tree is not the expected one. It has the span of the tree and the
    /// kind that was found: for a call that expects an integer, `true` is an identifier.
    /// Otherwise, returns `Memory` if an allocation fails. The tree is then dropped.
    fn from_tree(alloc: Global, tree: TokenTree) -> Result<Self, TokenError>
        ensures raw { IfOk result (λ lit. raw lit ≡ text_of (shape_of tree)) }
        ensures wanted { OnOk result (IsWanted wanted (shape_of tree)) }
        ensures bool { wanted ≡ TokenKind.Literal → IsTrue (is_bool_ident (shape_of tree))
            → IsOk result }
        ensures memory { IsWanted wanted (shape_of tree)
            → IfErr result (λ e. e ≡ TokenError.Memory) }
        ensures lack { IsWanted wanted (shape_of tree) → IsErr result
            → MayLackMemory (chars (text_of (shape_of tree))) }
        ensures invalid { ¬ IsWanted wanted (shape_of tree)
            → IsErrOf result (TokenError.Invalid (tree_mismatch wanted tree)) };

    /// Like [`from_tree`](FromToken::from_tree), but borrows the tree, as in the example of this
    /// crate.
    ///
    /// # Errors
    ///
    /// Returns the errors of [`from_tree`](FromToken::from_tree).
    fn from_tree_ref(alloc: Global, tree: &TokenTree) -> Result<Self, TokenError>
        ensures raw { IfOk result (λ lit. raw lit ≡ text_of (shape_of tree.now)) }
        ensures wanted { OnOk result (IsWanted wanted (shape_of tree.now)) }
        ensures bool { wanted ≡ TokenKind.Literal → IsTrue (is_bool_ident (shape_of tree.now))
            → IsOk result }
        ensures memory { IsWanted wanted (shape_of tree.now)
            → IfErr result (λ e. e ≡ TokenError.Memory) }
        ensures invalid { ¬ IsWanted wanted (shape_of tree.now)
            → IsErrOf result (TokenError.Invalid (tree_mismatch wanted tree.now)) };
}

impl<T: OwnedKind> FromToken for T {
    ghost wanted = { T.kind };

    ghost raw = { T.raw };

    ghost as_token_error = { λ e. e };

    type Error = TokenError;

    fn from_literal(alloc: Global, literal: Literal) -> Result<T, TokenError> {
        check_kind(&literal, T::kind())?;
        literal_of(alloc, literal.into_text())
    }

    fn from_literal_ref(alloc: Global, literal: &Literal) -> Result<T, TokenError> {
        check_kind(literal, T::kind())?;
        let text = String::from_str(alloc, literal.text())?;
        literal_of(alloc, text)
    }

    fn from_tree(alloc: Global, tree: TokenTree) -> Result<T, TokenError> {
        let literal = into_literal(tree, T::kind())?;
        T::from_literal(alloc, literal)
    }

    fn from_tree_ref(alloc: Global, tree: &TokenTree) -> Result<T, TokenError> {
        let literal = as_literal(tree, T::kind())?;
        T::from_literal_ref(alloc, literal)
    }
}

impl FromToken for litrs::Literal<String> {
    ghost use Rattle.litrs_token.specs.declared.kind.TokenKind.TheVariants as token;
    ghost use Rattle.litrs.specs.LiteralDerivation.{literal_raw};
    ghost use Rattle.litrs_token.specs.declared.err.TokenError.TheVariants.{Memory};

    ghost wanted = { token.Literal };

    ghost raw = { literal_raw };

    ghost as_token_error = { λ e. Memory };

    type Error = AllocError;

    fn from_literal(alloc: Global, literal: Literal) -> Result<litrs::Literal<String>, AllocError> {
        any_literal(alloc, literal.into_text())
    }

    fn from_literal_ref(
        alloc: Global,
        literal: &Literal,
    ) -> Result<litrs::Literal<String>, AllocError> {
        let text = String::from_str(alloc, literal.text())?;
        any_literal(alloc, text)
    }

    fn from_tree(alloc: Global, tree: TokenTree) -> Result<litrs::Literal<String>, TokenError> {
        if let Some(lit) = bool_of(&tree) {
            return Ok(litrs::Literal::Bool(lit));
        }
        let literal = into_literal(tree, TokenKind::Literal)?;
        Ok(any_literal(alloc, literal.into_text())?)
    }

    fn from_tree_ref(
        alloc: Global,
        tree: &TokenTree,
    ) -> Result<litrs::Literal<String>, TokenError> {
        if let Some(lit) = bool_of(tree) {
            return Ok(litrs::Literal::Bool(lit));
        }
        let literal = as_literal(tree, TokenKind::Literal)?;
        let text = String::from_str(alloc, literal.text())?;
        Ok(any_literal(alloc, text)?)
    }
}

/// Parses `text`, which is a literal of the expected kind.
///
/// # Errors
///
/// Returns `Memory` if the allocation of the value fails. `text` is then dropped.
fn literal_of<T: OwnedKind>(alloc: Global, text: String) -> Result<T, TokenError>
    requires { IsLiteralToken (chars (string_bytes text)) T.kind }
    ensures raw { IfOk result (λ lit. T.raw lit ≡ string_bytes text) }
    ensures memory { IfErr result (λ e. e ≡ TokenError.Memory) }
    ensures lack { IsErr result → MayLackMemory (chars (string_bytes text)) }
{
    Ok(or_alloc_error(T::parse(alloc, text))?)
}

/// Parses `text`, which is a literal of any kind.
///
/// # Errors
///
/// Returns `AllocError` if the allocation of the value fails. `text` is then dropped.
fn any_literal(alloc: Global, text: String) -> Result<litrs::Literal<String>, AllocError>
    requires { SomeLiteral (chars (string_bytes text)) }
    ensures raw { IfOk result (λ lit. literal_raw lit ≡ string_bytes text) }
    ensures lack { IsErr result → MayLackMemory (chars (string_bytes text)) }
{
    or_alloc_error(litrs::Literal::parse(alloc, text))
}

/// Returns the result of a parse that can fail only to allocate, with `AllocError` as the error.
fn or_alloc_error<T: Drop>(parsed: Result<T, ParseError>) -> Result<T, AllocError>
    requires { IfErr parsed (λ e. kind_of e ≡ ParseErrorKind.OutOfMemory) }
    ensures ok { IfOk result (λ lit. parsed ≡ Ok lit) }
    ensures err { IsErr result → IsErr parsed }
{
    match parsed {
        Ok(lit) => Ok(lit),
        Err(e) => match e.kind() {
            ParseErrorKind::OutOfMemory => Err(AllocError),
            _ => unreachable!(),
        },
    }
}
