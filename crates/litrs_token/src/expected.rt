//! Checks that a token is the one that a conversion expects.
ghost use Rattle.std.specs.Prelude.{◌≡◌, ◌↔◌, IfOk, IsOk, IfErr, OnOk, OnErr};
ghost use Rattle.std.specs.Str.{chars};
ghost use Rattle.litrs_token.specs.LiteralToken.{IsLiteralToken};
ghost use Rattle.litrs_token.specs.Mismatch.{literal_mismatch, tree_mismatch};
ghost use Rattle.litrs_token.specs.Tree.{shape_of, a_literal, IsNoLiteral};

use crate::err::InvalidToken;
use crate::kind::TokenKind;
use crate::literal::Literal;
use crate::tree::TokenTree;

/// Checks that `literal` has the kind `expected`.
///
/// # Errors
///
/// Returns an error with both kinds if `literal` has another kind.
pub fn check_kind(literal: &Literal, expected: TokenKind) -> Result<(), InvalidToken>
    ensures ok { IsOk result ↔ (literal.now.kind ≡ expected) }
    ensures literal { OnOk result (IsLiteralToken (chars literal.now.text) expected) }
    ensures err { IfErr result (λ e. e ≡ literal_mismatch expected literal.now) }
{
    if literal.kind() == expected {
        Ok(())
    } else {
        Err(InvalidToken::new(expected, literal.kind(), literal.span()))
    }
}

/// Returns the literal that `tree` is, for example `27`.
///
/// # Errors
///
/// Returns an error with both kinds of tokens if `tree` is not a literal.
pub fn as_literal(tree: &TokenTree, expected: TokenKind) -> Result<&Literal, InvalidToken>
    ensures ok { IfOk result (λ literal. shape_of tree.now ≡ a_literal literal.now) }
    ensures none { OnErr result (IsNoLiteral (shape_of tree.now)) }
    ensures err { IfErr result (λ e. e ≡ tree_mismatch expected tree.now) }
{
    match tree {
        TokenTree::Literal(literal) => Ok(literal),
        _ => Err(tree.mismatch(expected)),
    }
}

/// Like [`as_literal`], but takes the literal out of `tree`.
///
/// # Errors
///
/// Returns the errors of [`as_literal`]. `tree` is then dropped.
pub fn into_literal(tree: TokenTree, expected: TokenKind) -> Result<Literal, InvalidToken>
    ensures ok { IfOk result (λ literal. shape_of tree ≡ a_literal literal) }
    ensures none { OnErr result (IsNoLiteral (shape_of tree)) }
    ensures err { IfErr result (λ e. e ≡ tree_mismatch expected tree) }
{
    match tree {
        TokenTree::Literal(literal) => Ok(literal),
        TokenTree::Group(group) => {
            Err(InvalidToken::new(expected, TokenKind::Group, group.span()))
        }
        TokenTree::Ident(ident) => {
            Err(InvalidToken::new(expected, TokenKind::Ident, ident.span()))
        }
        TokenTree::Punct(punct) => {
            Err(InvalidToken::new(expected, TokenKind::Punct, punct.span()))
        }
    }
}
