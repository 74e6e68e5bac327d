//! Literals that are written as tokens and read from them.
use crate::outcome::{Outcome, agrees, made};
use litrs::{
    BoolLit, ByteLit, ByteStringLit, CStringLit, CharLit, FloatLit, IntegerLit, Literal, StringLit,
    Text,
};
use litrs_token::{FromToken, IntoIdent, IntoToken, LiteralError, TokenTree};
use std::alloc::{AllocError, Global};

/// A token that is a literal.
pub type Token = litrs_token::Literal;

/// Tries the copy of a literal of this type over this buffer, and the token or the identifier of
/// the copy.
pub fn try_copy<B: Text>(
    alloc: Global,
    at: (&'static str, &'static str),
    lit: &Literal<B>,
) -> Outcome {
    match lit {
        Literal::Bool(lit) => made((at.0, "into_ident", "&str"), lit.into_ident(alloc)),
        Literal::Integer(lit) => try_written(alloc, at, lit.clone(alloc)),
        Literal::Float(lit) => try_written(alloc, at, lit.clone(alloc)),
        Literal::Char(lit) => try_written(alloc, at, lit.clone(alloc)),
        Literal::String(lit) => try_written(alloc, at, lit.clone(alloc)),
        Literal::Byte(lit) => try_written(alloc, at, lit.clone(alloc)),
        Literal::ByteString(lit) => try_written(alloc, at, lit.clone(alloc)),
        Literal::CString(lit) => try_written(alloc, at, lit.clone(alloc)),
    }
}

/// Tries the token that the copy of a literal is written as.
fn try_written<L: IntoToken>(
    alloc: Global,
    at: (&'static str, &'static str),
    copy: Result<L, AllocError>,
) -> Outcome {
    match copy {
        Ok(copy) => made((at.0, "into_token", at.1), copy.into_token(alloc)),
        Err(_) => Outcome::Refused((at.0, "clone", at.1)),
    }
}

/// Tries the conversions to the type with this name, from the token of the literal of a text.
pub fn try_tokens(alloc: Global, name: &str, text: &str) -> Outcome {
    match name {
        "Literal" => try_read::<Literal<String>>(alloc, "Literal", text),
        "IntegerLit" => try_read::<IntegerLit<String>>(alloc, "IntegerLit", text),
        "FloatLit" => try_read::<FloatLit<String>>(alloc, "FloatLit", text),
        "CharLit" => try_read::<CharLit<String>>(alloc, "CharLit", text),
        "StringLit" => try_read::<StringLit<String>>(alloc, "StringLit", text),
        "ByteLit" => try_read::<ByteLit<String>>(alloc, "ByteLit", text),
        "ByteStringLit" => try_read::<ByteStringLit<String>>(alloc, "ByteStringLit", text),
        "CStringLit" => try_read::<CStringLit<String>>(alloc, "CStringLit", text),
        _ => Outcome::Holds,
    }
}

/// Returns the outcome of the call that makes a token of a text, given its error. No token is a
/// bool.
fn unmade(error: LiteralError) -> Outcome {
    match error {
        LiteralError::NotALiteral => Outcome::Holds,
        LiteralError::Memory => Outcome::Refused(("litrs_token::Literal", "from_text", "&str")),
    }
}

/// Tries the four conversions of a type to a literal on the token of one.
fn try_read<L: FromToken>(alloc: Global, kind: &'static str, text: &str) -> Outcome
where
    L::Error: Drop,
{
    let outcome = match Token::from_text(alloc, text) {
        Ok(token) => made(
            (kind, "from_literal", "String"),
            L::from_literal(alloc, token),
        ),
        Err(error) => unmade(error),
    };
    outcome.and(match Token::from_text(alloc, text) {
        Ok(token) => try_kept::<L>(alloc, kind, token),
        Err(error) => unmade(error),
    })
}

/// Tries the conversion that keeps the token, and those of its tree.
fn try_kept<L: FromToken>(alloc: Global, kind: &'static str, token: Token) -> Outcome
where
    L::Error: Drop,
{
    let read = L::from_literal_ref(alloc, &token);
    made((kind, "from_literal_ref", "String"), read).and(try_tree::<L>(
        alloc,
        kind,
        TokenTree::from(token),
    ))
}

/// Tries the conversions of a tree, one of which keeps it.
fn try_tree<L: FromToken>(alloc: Global, kind: &'static str, tree: TokenTree) -> Outcome {
    let read = L::from_tree_ref(alloc, &tree);
    made((kind, "from_tree_ref", "String"), read)
        .and(try_compile_error(alloc, &tree))
        .and(made((kind, "from_tree", "String"), L::from_tree(alloc, tree)))
}

/// Tries the compile error of a tree that is not a bool.
fn try_compile_error(alloc: Global, tree: &TokenTree) -> Outcome {
    let call = ("InvalidToken", "to_compile_error", "&str");
    match &BoolLit::try_from(tree) {
        Ok(_) => agrees(call, false),
        Err(invalid) => made(call, invalid.to_compile_error(alloc)),
    }
}
