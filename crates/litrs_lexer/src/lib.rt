//! Cuts Rust source into tokens, as the lexer of the compiler does, but for the texts that the page
//! of this crate lists. Each text that is not empty has one token at its front, and no other; a
//! malformed one is a token too.
//!
//! | Text | Kinds of its tokens |
//! |---|---|
//! | `x = 0xFF_u8` | `Ident`, `Whitespace`, `Punctuation`, `Whitespace`, `Literal` |
//! | `1..2` | `Literal`, `Punctuation` twice, `Literal` |
//! | `'a 'b'` | `Lifetime`, `Whitespace`, `Literal` |
//! | `r#fn /* /* */ */` | `RawIdent`, `Whitespace`, `BlockComment` |
//! | `f"x"` | `UnknownPrefix`, `Literal` |
//! | `0b12` | `MalformedLiteral` |
//!
//! The tokens are those of the edition 2021, by [The Rust Reference][ref].
//!
//! ```
//! use litrs::{Literal, ParseError};
//! use litrs_lexer::tokenize;
//! use std::alloc::Global;
//!
//! /// Returns the number of strings in a source that are longer than `least` bytes.
//! fn long_strings(alloc: Global, source: &str, least: usize) -> Result<u64, ParseError> {
//!     let mut count: u64 = 0;
//!     for token in tokenize(source) {
//!         match &token.literal(alloc)? {
//!             Some(Literal::String(lit)) => if lit.value().len() > least {
//!                 count = count.saturating_add(1);
//!             },
//!             _ => {}
//!         }
//!     }
//!     Ok(count)
//! }
//! ```
//!
//! [ref]: https://doc.rust-lang.org/reference/lexical-structure.html
#![tactic(auto)]

pub use kind::{DocStyle, TokenKind};
pub use may_change::token_may_change;
pub use shebang::strip_shebang;
pub use token::Token;
pub use tokens::{Tokens, all_tokens, first_token, tokenize};

mod ascii;
mod comment;
mod cut;
mod kind;
pub mod laws;
mod literal;
mod may_change;
mod name;
mod shebang;
mod token;
mod tokens;
mod whitespace;
