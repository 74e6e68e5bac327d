//! The types that every layer uses: buffers of texts, types of integers, escapes, and errors; and
//! functions for the first character of a text, and for digits.
#![tactic(auto)]

pub use buffer::{Buffer, Text};
pub use characters::{begins_with_digit, split_first_char};
pub use digits::are_few_digits;
pub use err::{ParseError, ParseErrorKind};
pub use escape::Unescape;
pub use float::FloatType;
pub use from_integer_literal::FromIntegerLiteral;
pub use integer::{IntegerBase, IntegerType};
pub use quotes::{CharKind, StringKind, Switches};

pub mod buffer;
pub mod characters;
pub mod digits;
pub mod err;
pub mod escape;
pub mod float;
pub mod from_integer_literal;
pub mod integer;
pub mod quotes;
