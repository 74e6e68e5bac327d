//! Reads Rust literals as values of Rust types: `-0x10` as the `i64` -16, `1_0.5e-1` as the `f64`
//! 1.05, `"\u{61}"` as the `String` `a`.
//!
//! | Call | Reads |
//! |---|---|
//! | [`read`] | a text that is one literal, with a minus sign before a number |
//! | [`read_prefix`] | the value at the front of a longer text |
//! | [`FromLiteral::from_literal`] | a literal that is already parsed |
//! | [`read_str`], [`into_str`] | a string, borrowed unless it is quoted and has a backslash |
//! | [`float`], [`integer_float`] | a float or an integer literal as a float, whatever its suffix |
//!
//! | Type | Literals |
//! |---|---|
//! | `bool` | `true`, `false` |
//! | the twelve integer types | `27`, `-0xFF`, `1_000u16` at `u16`; `b'a'` at `u8` |
//! | `f32`, `f64` | `1.5`, `-2e-7`, `1_0.5f32` at `f32`, `1`, `0x10` |
//! | `char` | `'a'` |
//! | `String` | `"a\n"`, `r"a"` |
//! | `Vec<u8>` | `b"a\xff"`, `c"a"` without its closing zero |
//! | [`CString`](litrs::CString) | `c"a"` |
//!
//! Only a number may have a suffix: the name of the type, for an integer at a float type only in
//! base ten. A [`ValueError`] says why a text has no value of a type, and which part of the text to
//! mark.
//!
//! ```
//! use litrs_value::{ValueError, read};
//! use std::alloc::{AllocError, Global};
//!
//! /// Returns a line about the port that a setting names, or about what is wrong with it: for
//! /// `70_000` that is "out of range for `u16`".
//! fn describe_port(alloc: Global, text: &str) -> Result<String, AllocError> {
//!     match read::<u16>(alloc, text) {
//!         Ok(port) => format!(in alloc; "port {port}\n"),
//!         Err(ValueError::Memory) => Err(AllocError),
//!         Err(error) => format!(in alloc; "{error}\n"),
//!     }
//! }
//! ```
#![tactic(auto)]

mod borrowed;
mod error;
mod floats;
mod from_literal;
mod integers;
mod kind;
pub mod laws;
mod leading;
mod prefix;
mod reading;
mod strings;
mod type_check;
mod value_type;

pub use borrowed::{into_str, read_str};
pub use error::ValueError;
pub use floats::{float, integer_float};
pub use from_literal::FromLiteral;
pub use kind::LiteralKind;
pub use prefix::{PrefixError, read_prefix};
pub use reading::{cut_sign, read};
pub use value_type::ValueType;
