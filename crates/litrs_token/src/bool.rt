//! Trees that are bools.
ghost use Rattle.std.specs.Prelude.{◌≡◌, IfSome, is_some};
ghost use Rattle.litrs.specs.BoolLiteral.{bool_value};
ghost use Rattle.litrs_grammar.specs.Bool.{bool_text};
ghost use Rattle.litrs_token.specs.BoolTree.{is_bool_ident, text_of};
ghost use Rattle.litrs_token.specs.Tree.{shape_of};

use crate::err::InvalidToken;
use crate::kind::TokenKind;
use crate::tree::TokenTree;
use litrs::BoolLit;

/// Returns the bool that `tree` is, or `None` if it is not the identifier `true` or `false`.
pub fn bool_of(tree: &TokenTree) -> Option<BoolLit>
    ensures some { IfSome result (λ lit.
        text_of (shape_of tree.now) ≡ bool_text (bool_value lit)) }
    ensures which { is_some result ≡ is_bool_ident (shape_of tree.now) }
{
    match tree {
        TokenTree::Ident(ident) => match ident.text() {
            "true" => Some(BoolLit::True),
            "false" => Some(BoolLit::False),
            _ => None,
        },
        _ => None,
    }
}

impl TryFrom<TokenTree> for BoolLit {
    ghost use Rattle.litrs_token.specs.BoolTree.{IsBoolAnswer};

    ghost try_from_gives = { IsBoolAnswer };

    type Error = InvalidToken;

    fn try_from(tree: TokenTree) -> Result<BoolLit, InvalidToken> {
        match bool_of(&tree) {
            Some(lit) => Ok(lit),
            None => Err(tree.mismatch(TokenKind::BoolLit)),
        }
    }
}

impl TryFrom<&TokenTree> for BoolLit {
    ghost use Rattle.litrs_token.specs.BoolTree.{IsBoolAnswer};

    ghost try_from_gives = { λ tree result. IsBoolAnswer tree.now result };

    type Error = InvalidToken;

    fn try_from(tree: &TokenTree) -> Result<BoolLit, InvalidToken> {
        match bool_of(tree) {
            Some(lit) => Ok(lit),
            None => Err(tree.mismatch(TokenKind::BoolLit)),
        }
    }
}
