//! Tries the rows of a table: literals with their parts, and texts that are rejected.
//!
//! The table is read from standard input; the comments at its top say how it is written. For each
//! row that does not hold there is a line on standard output, and the last line says how many rows
//! hold. The status is 0 if and only if all hold.
//!
//! If a call of the library returns an allocation failure, a line names the call, and the row is
//! tried again. After an allocation failure of its own the program ends, with the status 1 and one
//! line on standard error.
#![tactic(auto)]

use outcome::Outcome;
use std::alloc::Global;
use std::io;
use std::process::ExitCode;

mod builds;
mod calls;
mod diagnostics;
mod errors;
mod field_value;
mod fields;
mod fronts;
mod lines;
mod literals;
mod named;
mod outcome;
mod parses;
mod rewritings;
mod rows;
mod tokens;
mod until;
mod values;

fn main(rt: HostRuntime) -> ExitCode {
    match try_table(&rt) {
        Ok(true) => ExitCode::SUCCESS,
        Ok(false) => ExitCode::from(1),
        Err(error) => {
            let _ = eprintln!(rt; "litrs_vectors: {error}");
            ExitCode::from(1)
        }
    }
}

/// Tries each row, and reports the number of rows that hold. Returns `true` if all hold.
fn try_table(rt: &HostRuntime) -> io::Result<bool> {
    let table = io::read_to_string(rt.alloc(), rt.reader())?;
    let mut number: u64 = 0;
    let mut rows: u64 = 0;
    let mut held: u64 = 0;
    for line in table.lines() {
        number = number.saturating_add(1);
        if !line.is_empty() && !line.starts_with('#') {
            rows = rows.saturating_add(1);
            held = held.saturating_add(u64::from(try_line(rt, number, line)?));
        }
    }
    if held == rows {
        println!(rt; "{rows} rows hold")?;
    } else {
        println!(rt; "{held} of {rows} rows hold")?;
    }
    Ok(held == rows)
}

/// Tries the row of a line, and once more if an allocation failed. Returns `true` if it holds.
fn try_line(rt: &HostRuntime, number: u64, line: &str) -> io::Result<bool> {
    let outcome = match rows::try_row(rt.alloc(), line) {
        Outcome::Refused((kind, name, buffer)) => {
            println!(rt; "refused {kind}::{name} over {buffer} at line {number}")?;
            rows::try_row(rt.alloc(), line)
        }
        other => other,
    };
    let ((kind, name, buffer), what) = match outcome {
        Outcome::Holds => return Ok(true),
        Outcome::Differs(call) => (call, "another answer"),
        Outcome::Refused(call) => (call, "refused twice"),
        Outcome::Ends(error) => return Err(error.into()),
    };
    println!(rt; "line {number}: {line}: {kind}::{name} over {buffer}: {what}")?;
    Ok(false)
}
