//! Tokens, and conversions between tokens and literals.
//!
//! A procedural macro reads and writes trees of tokens; see [the reference][ref]. [`TokenTree`] is
//! such a tree, without a compiler: a [`Group`], an [`Ident`], a [`Punct`] or a [`Literal`], each
//! with its [`Span`]. [`FromToken`] converts tokens to the literals of the crate `litrs`, and
//! [`IntoToken`] and [`IntoIdent`] convert literals to tokens. If a token has another kind than the
//! expected one, the error is an [`InvalidToken`], which can be reported as a compile error:
//!
//! ```rust
//! use litrs::IntegerLit;
//! use litrs_token::{FromToken, TokenError, TokenTree};
//! use std::alloc::Global;
//!
//! /// The value of an attribute, for example `27` in `#[limit = 27]`.
//! #[derive(Drop)]
//! enum Limit {
//!     /// A number of 16 bits.
//!     Is(u16),
//!     /// A greater number.
//!     TooGreat,
//!     /// No number: the trees of a compile error.
//!     Wrong(Vec<TokenTree>),
//! }
//!
//! fn read_limit(alloc: Global, value: &TokenTree) -> Result<Limit, TokenError> {
//!     match IntegerLit::from_tree_ref(alloc, value) {
//!         Ok(lit) => match lit.value::<u16>() {
//!             Some(number) => Ok(Limit::Is(number)),
//!             None => Ok(Limit::TooGreat),
//!         },
//!         Err(TokenError::Invalid(invalid)) => Ok(Limit::Wrong(invalid.to_compile_error(alloc)?)),
//!         Err(TokenError::Memory) => Err(TokenError::Memory),
//!     }
//! }
//! // For the literal `27` it returns Limit::Is(27), and for the identifier `x` Limit::Wrong with
//! // the trees of
//! // compile_error! { "expected an integer literal (e.g. `27`), but found an identifier" }.
//! ```
//!
//! In the examples of its items `rt` is the runtime that a test gets.
//!
//! [ref]: https://doc.rust-lang.org/reference/procedural-macros.html
#![tactic(auto)]

pub use err::{InvalidToken, TokenError};
pub use from_token::FromToken;
pub use ident::{Ident, IdentError};
pub use into_token::{IntoIdent, IntoToken};
pub use kind::TokenKind;
pub use literal::{Literal, LiteralError};
pub use punct::{Punct, Spacing};
pub use span::Span;
pub use tree::{Delimiter, Group, TokenTree};

mod bool;
mod err;
mod expected;
mod from_token;
mod ident;
mod into_token;
mod kind;
pub mod laws;
mod literal;
mod one_kind;
mod punct;
mod span;
mod tree;
