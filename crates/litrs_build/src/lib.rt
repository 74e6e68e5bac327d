//! Builds Rust literals from a value and a suffix. Parsing a literal that was built returns the
//! value.
//!
//! | Value | Call | Literal |
//! |---|---|---|
//! | `a`, LF, U+200B | [`char`] | `'a'`, `'\n'`, `'\u{200b}'` |
//! | 97, 10, 255 | [`byte`] | `b'a'`, `b'\n'`, `b'\xff'` |
//! | `é"` and LF | [`string`] | `"é\"\n"` |
//! | its UTF-8 | [`byte_string`] | `b"\xc3\xa9\"\n"` |
//! | its UTF-8, and the byte FF | [`c_string`] | `c"é\"\n\xff"` |
//! | `a"#` | [`raw_string`] | `r##"a"#"##` |
//! | its UTF-8 | [`raw_byte_string`] | `br##"a"#"##` |
//! | its UTF-8 | [`raw_c_string`] | `cr##"a"#"##` |
//! | 255 in base sixteen, and `u8` | [`integer`] | `0xffu8` |
//! | 1048575 in base sixteen, in groups of four | [`grouped_integer`] | `0xf_ffff` |
//! | the parts `1`, `5` and `e3` | [`float`] | `1.5e3` |
//!
//! [`unescaped`] writes a literal anew, with the same kind, value and suffix, and [`regroup`] an
//! integer in groups of digits. [`rewritten`] does so in a [`Style`], which may keep lines.
//!
//! Between quotes, these characters and bytes are escaped:
//!
//! - LF, CR, tab and NUL as `\n`, `\r`, `\t` and `\0`, the backslash as `\\`, and the closing quote
//!   as `\"` or `\'`;
//! - other ASCII characters that are not printable ([`is_printable`]), and bytes above 7F, in a C
//!   string only those that are not UTF-8, as `\x` and two digits;
//! - other characters that are not printable as `\u{..}`. So is a combining character
//!   (Grapheme_Extend) after the opening quote or an escape, as it would be shown on top of that.
//!
//! ```
//! use litrs_build::{BuildError, string};
//! use std::alloc::Global;
//!
//! /// Returns a line of a configuration file. For `title` and `a`, LF, `b` that is
//! /// `title = "a\nb"`.
//! fn setting(alloc: Global, name: &str, value: &str) -> Result<String, BuildError> {
//!     let literal = string(alloc, value, "")?;
//!     let mut line = String::from_str(alloc, name)?;
//!     line.push_str(" = ")?;
//!     line.push_str(literal.raw_input())?;
//!     Ok(line)
//! }
//! ```
#![tactic(auto)]

pub use byte_strings::byte_string;
pub use c_strings::c_string;
pub use chars::{byte, char};
pub use error::BuildError;
pub use floats::float;
pub use integers::{grouped_integer, integer, regroup};
pub use printable::is_printable;
pub use raw::{raw_byte_string, raw_c_string, raw_string};
pub use rewriting::rewritten;
pub use strings::string;
pub use style::{Case, Escapes, FloatGroupLens, FloatGroups, GroupLens, Groups, Lines, Style};
pub use unescaping::unescaped;

mod body_item;
mod byte_strings;
mod c_strings;
mod chars;
mod error;
mod float_style;
mod floats;
mod integer_style;
mod integers;
pub mod laws;
mod pieces;
mod printable;
mod raw;
mod rewriting;
mod spelling;
mod strings;
mod style;
mod unescaping;
