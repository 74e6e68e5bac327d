//! The message on a rejected token, which has no width and no precision.
use litrs::IntegerLit;
use litrs_token::{FromToken, InvalidToken, Literal, TokenError};
use std::alloc::Global;
use std::process::Abort;

/// The message on a string where an integer is expected.
const MESSAGE: &str =
    "expected an integer literal (e.g. `27`), but found a string literal (e.g. \"Ferris\")";

/// Returns the error of a string as an integer, or `None` if an allocation fails.
fn refused_string(alloc: Global) -> Option<InvalidToken> {
    let Ok(string) = Literal::string(alloc, "x") else {
        return None;
    };
    match IntegerLit::from_literal(alloc, string) {
        Ok(_lit) => None,
        Err(TokenError::Memory) => None,
        Err(TokenError::Invalid(invalid)) => Some(invalid),
    }
}

/// Returns `true` if the message is printed of the token, whatever the width and the precision.
fn is_message_printed(alloc: Global, invalid: &InvalidToken) -> bool {
    match format!(in alloc; "{invalid:>200}{invalid:.3}") {
        Ok(printed) => printed.len() == 2 * MESSAGE.len() && printed.starts_with(MESSAGE),
        Err(_) => false,
    }
}

#[test]
fn messages(rt: HostRuntime) {
    match refused_string(rt.alloc()) {
        Some(invalid) => assert!(rt; is_message_printed(rt.alloc(), &invalid)),
        None => panic!(rt; "a string is no integer"),
    }
}
