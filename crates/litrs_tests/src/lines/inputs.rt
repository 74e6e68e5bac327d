//! Runs over inputs of several reads: each succeeds while there is memory.
use litrs_lines::{Input, MemInput, MemOutput, run};
use std::alloc::{AllocError, Global};
use std::process::Abort;

/// Returns `count` copies of a line.
fn repeated(alloc: Global, line: &str, count: usize) -> Result<String, AllocError> {
    let mut text = String::new(alloc);
    for _ in 0..count {
        text.push_str(line)?;
    }
    Ok(text)
}

/// Returns `true` if there are reports on some lines.
fn are_reported(alloc: Global, lines: &[u8]) -> bool {
    let room = lines.len().saturating_mul(10).saturating_add(100);
    let mut input = MemInput::new(lines, 4_000, None);
    match MemOutput::new(alloc, room, 4_000, None) {
        Ok(mut output) => run(alloc, &mut input, &mut output).is_ok() && !input.failed(),
        Err(_) => false,
    }
}

/// Returns `true` if there are reports on `count` copies of `line`.
fn are_lines(alloc: Global, line: &str, count: usize) -> bool {
    match repeated(alloc, line, count) {
        Ok(lines) => are_reported(alloc, lines.as_bytes()),
        Err(_) => false,
    }
}

#[test]
fn inputs_of_several_reads(rt: HostRuntime) {
    assert!(rt; are_lines(rt.alloc(), "true\n0b12\n\"a\\n\"\n", 10_000));
    assert!(rt; are_reported(rt.alloc(), &[0xFF; 20_000]));
}
