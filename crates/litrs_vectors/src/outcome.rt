//! The outcomes of calls.
use std::alloc::AllocError;

/// A call: the type that has it, or its crate, its name, and the type of its text.
pub type Call = (&'static str, &'static str, &'static str);

/// The outcome of some calls.
#[derive(Clone, Copy, Drop)]
pub enum Outcome {
    /// All answers are those of the row.
    Holds,
    /// A call has another answer.
    Differs(Call),
    /// An allocation of a call failed.
    Refused(Call),
    /// An allocation of the program itself failed.
    Ends(AllocError),
}

impl Outcome {
    /// Returns the first of two outcomes that is not `Holds`.
    pub fn and(self, other: Outcome) -> Outcome {
        match self {
            Outcome::Holds => other,
            _ => self,
        }
    }
}

/// Returns the outcome of a call, given if its answer is that of the row.
pub fn agrees(call: Call, holds: bool) -> Outcome {
    if holds {
        Outcome::Holds
    } else {
        Outcome::Differs(call)
    }
}

/// Returns the outcome of a call that fails only if an allocation fails.
pub fn made<T: Drop, E: Drop>(call: Call, answer: Result<T, E>) -> Outcome {
    match &answer {
        Ok(_) => Outcome::Holds,
        Err(_) => Outcome::Refused(call),
    }
}

/// Returns the outcome of a call that makes a text, given the text of the row.
pub fn says(call: Call, answer: Result<String, AllocError>, wanted: &[u8]) -> Outcome {
    match &answer {
        Ok(text) => agrees(call, text.as_bytes() == wanted),
        Err(_) => Outcome::Refused(call),
    }
}

/// Compares the fields of a row with those that the program wrote for the answer of a call.
pub fn written(call: Call, fields: Result<String, AllocError>, wanted: &[u8]) -> Outcome {
    match &fields {
        Ok(fields) => agrees(call, fields.as_bytes() == wanted),
        Err(error) => Outcome::Ends(*error),
    }
}
