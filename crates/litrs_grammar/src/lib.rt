//! The grammar of Rust literals. Its definitions are in `specs`. Its laws are here, each as the
//! contract of a function with an empty body.
#![tactic(auto)]

pub mod allocation;
pub mod char_byte;
pub mod escape;
pub mod float;
pub mod literal;
pub mod longer_texts;
pub mod name;
pub mod number;
pub mod quoted;
pub mod raw;
pub mod text;
pub mod value;
