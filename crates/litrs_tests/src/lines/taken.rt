//! The memory of a text that `take_with` of a `Collector` returns.
use litrs_lines::Collector;
use std::alloc::Global;
use std::process::Abort;

/// Returns `true` if the capacity of the text of two lines is its length.
fn is_taken_exact(alloc: Global) -> bool {
    let mut collector = Collector::new(alloc);
    match collector.push("\"a") {
        Ok(true) => match collector.take_with("b\"") {
            Ok(text) => text.capacity() == text.len(),
            Err(_) => false,
        },
        _ => false,
    }
}

#[test]
fn text_of_two_lines(rt: HostRuntime) {
    assert!(rt; is_taken_exact(rt.alloc()));
}
