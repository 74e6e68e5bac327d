//! An input over memory, whose bytes are known.
ghost use Rattle.std.specs.Prelude.{◌≡◌, ◌≤◌, ◌<◌, ◌^◌, ◌↔◌, min, false, Some, length, drop, IsErr, IsTrue, IfOk, OnErr};
ghost use Rattle.std.specs.Io.KnownBytes.{ReadConsumes};
ghost use Rattle.litrs_lines.specs.Devices.{RecordsFailure};
ghost use Rattle.litrs_lines.specs.Calls.{fresh_calls, next_fails, after_call};

use crate::device::{Failed, Input};
use crate::device_calls::Calls;

/// An input over bytes in memory.
#[derive(Debug, Drop)]
pub struct MemInput<'a> {
    rest: &'a [u8],
    piece: usize,
    calls: Calls,
    failed: bool,
    ghost some: { 0 < piece },
    ghost few: { length rest.now < 2 ^ 63 },
}

impl<'a> MemInput<'a> {
    ghost use Rattle.litrs_lines.specs.MemInput.{left_of, piece_of, calls_of, failed_of};

    /// Creates an input over `bytes`. A call reads at most `piece` bytes, and `piece` is at least
    /// 1. Calls from number `fail_at` on fail, counted from 0. The bytes of the buffer after those
    /// that a call reads are unchanged.
    pub fn new(bytes: &'a [u8], piece: usize, fail_at: Option<u64>) -> Self
        requires { 0 < piece }
        ensures bytes { left_of result ≡ bytes.now }
        ensures piece { piece_of result ≡ piece }
        ensures calls { calls_of result ≡ fresh_calls fail_at }
        ensures failed { failed_of result ≡ false }
    {
        MemInput {
            rest: bytes,
            piece,
            calls: Calls::new(fail_at),
            failed: false,
        }
    }
}

impl Input for MemInput<'_> {
    ghost use Rattle.litrs_lines.specs.MemInput.{left_of, piece_of, calls_of, failed_of};

    ghost remaining = { λ input. Some (left_of input) };

    ghost has_failed = { failed_of };

    ghost few = { λ input. input.few };

    fn read(&mut self, buffer: &mut [u8]) -> Result<usize, Failed>
        ensures bound { IfOk result (λ count. count ≤ length buffer.new) }
        ensures bytes { ReadConsumes (Some (left_of self.old)) (Some (left_of self.new))
            result buffer.new }
        ensures failed { RecordsFailure (failed_of self.old) (failed_of self.new) result }

        // The number of bytes that move, and the calls that fail.
        ensures fails { IsErr result ↔ IsTrue (next_fails (calls_of self.old)) }
        ensures count { IfOk result (λ count.
            count ≡ min (min (length buffer.old) (piece_of self.old)) (length (left_of self.old))) }
        ensures calls { calls_of self.new ≡ after_call (calls_of self.old) }
        ensures piece { piece_of self.new ≡ piece_of self.old }

        // The bytes of the buffer that are unchanged.
        ensures after { IfOk result (λ count. drop count buffer.new ≡ drop count buffer.old) }
        ensures kept { OnErr result (buffer.new ≡ buffer.old) }
    {
        if self.calls.make().is_err() {
            self.failed = true;
            return Err(Failed);
        }
        let count = buffer.len().min(self.piece).min(self.rest.len());
        let (next, rest) = self.rest.split_at(count);
        buffer[..count].copy_from_slice(next);
        self.rest = rest;
        Ok(count)
    }

    fn failed(&self) -> bool {
        self.failed
    }
}
