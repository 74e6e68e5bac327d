//! The calls of a device over memory, which fail from a given number on.
ghost use Rattle.std.specs.Prelude.{◌≡◌, is_err};

use crate::device::Failed;

/// The number of calls that were made, and the number of the first that fails.
#[derive(Debug, Drop)]
pub(crate) struct Calls {
    fail_at: Option<u64>,
    made: u64,
}

impl Calls {
    ghost use Rattle.litrs_lines.specs.Calls.{fresh_calls, next_fails, after_call};

    /// Creates a count of no calls. Calls from number `fail_at` on fail, counted from 0.
    pub(crate) fn new(fail_at: Option<u64>) -> Calls
        ensures { result ≡ fresh_calls fail_at }
    {
        Calls { fail_at, made: 0 }
    }

    /// Counts a call. Returns an error if the call fails.
    pub(crate) fn make(&mut self) -> Result<(), Failed>
        ensures fails { is_err result ≡ next_fails self.old }
        ensures counts { self.new ≡ after_call self.old }
    {
        let number = self.made;
        self.made = number.saturating_add(1);
        match self.fail_at {
            Some(first) if first <= number => Err(Failed),
            _ => Ok(()),
        }
    }
}
