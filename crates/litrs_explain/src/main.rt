//! Explains the Rust literals in files to a person: the kind of each, its value and its parts. For
//! a text that is not a literal it says what is wrong and where. See `docs/EXPLAIN.md`.
//!
//! ```text
//! numbers.rs:1:9: integer
//!   value 255
//!   base 16
//!   digits FF_
//!   fits u8 u16 u32 u64 u128 usize i16 i32 i64 i128 isize
//!   suffix u8
//! ```
//!
//! Text is read line by line. Only the lines of an incomplete literal or comment are held.
#![tactic(auto)]

mod arguments;
mod error;
mod explainer;
mod find;
mod json;
mod open;
mod options;
mod output;
mod place;
mod program;
mod report;
mod text;

use std::io::IsTerminal;
use std::process::ExitCode;

fn main(rt: HostRuntime) -> ExitCode {
    let is_terminal = rt.stdout().is_terminal();
    ExitCode::from(program::run_program(&rt, is_terminal))
}
