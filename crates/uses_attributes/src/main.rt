//! Reads lists of settings from the standard input, one list a line, as in an attribute of Rust:
//! `rename = "x", skip = true, max = 16, offset = -3`. Writes each setting with its value, and the
//! first fault of a line, marked in the line. A line that is not UTF-8 ends the program with an
//! error. Arguments are ignored. If the reader of the output has closed it, the program ends
//! silently.
#![tactic(auto)]

mod setting;
mod word;

use setting::{describe, read_settings, show};
use std::io::{self, ErrorKind};

/// Answers the lines of the standard input.
fn run(rt: &HostRuntime) -> io::Result<()> {
    let mut number: u32 = 0;
    for line in rt.lines(rt.alloc()) {
        let line = line?;
        number = number.saturating_add(1);
        let (settings, fault) = read_settings(rt.alloc(), line.as_str())?;
        for setting in &settings {
            print!(rt; "{number}: {}\n", describe(rt.alloc(), setting)?)?;
        }
        if let Some(fault) = &fault {
            print!(rt; "{}", show(rt.alloc(), line.as_str(), number, fault)?)?;
        }
    }
    Ok(())
}

fn main(rt: HostRuntime) -> io::Result<()> {
    match run(&rt) {
        Err(error) if error.kind() != ErrorKind::BrokenPipe => Err(error),
        _ => Ok(()),
    }
}
