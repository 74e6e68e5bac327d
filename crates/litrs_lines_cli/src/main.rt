//! Reads lines from standard input, and writes a report on each group of lines to standard output.
//!
//! The status is 0, or 1 with one line on standard error. Arguments are ignored.
#![tactic(auto)]

use litrs_lines::{StdInput, StdOutput, run_program};
use std::io;
use std::process::ExitCode;

fn main(rt: HostRuntime) -> ExitCode {
    let mut reader = StdInput::new(rt.reader());
    let mut writer = StdOutput::new(io::writer(&rt));
    let errors = rt.stderr();
    let mut messages = io::writer(&errors);
    run_program(rt.alloc(), &mut reader, &mut writer, &mut messages)
}
